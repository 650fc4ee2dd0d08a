// Numbers of wires, from the list of what they stand for.
ghost use Rattle.std.specs.Prelude.{◌≡◌, ◌-◌, ℕ, nat_eq, if◌then◌else◌, get_or, OnOk, IfOk};
ghost use Rattle.zl_normal.specs.Keys.{keys as keys_of, memories as memories_of};
ghost use Rattle.zl_normal.specs.Layout.{AreNumbered};
ghost use Rattle.zl_normal.specs.NumberTables.{memory_number, wire_number};
ghost use Rattle.zl_normal.specs.declared.key.Key.{Key as TheKey};
ghost use Rattle.zl_normal.specs.Slots as spec;

use crate::key::{Kept, Key};
use crate::keys::Source;
use crate::numbers::KeyTables;
use crate::slot::Slot;
use std::alloc::{AllocError, Global};
use zl_meaning::narrow;

/// Puts a number in this place of a list, which grows by zeros as far as need be.
#[tactic(auto, using(crate::proofs::Sweep::zero_more, crate::proofs::Sweep::put_at))]
fn set_at(numbers: &mut Vec<u32>, index: u64, number: u32) -> Result<(), AllocError>
    ensures { OnOk result ((i : ℕ) → get_or numbers.new.items i 0 ≡ (if nat_eq i index then number else get_or numbers.old.items i 0)) }
{
    while numbers.len() as u64 <= index {
        numbers.push(0)?;
    }
    numbers[index as usize] = number;
    Ok(())
}

fn slot_of(key: Key) -> Slot
    ensures is { result ≡ spec.slot key }
    ensures known { spec.IsSlot result }
{
    match key {
        Key::Step | Key::Fresh | Key::No | Key::Zero => Slot::Fixed,
        Key::Value(j) => Slot::OfOcc(j, 0),
        Key::Rest(j, _) => Slot::OfOcc(j, 1),
        Key::Next(j) => Slot::OfOcc(j, 2),
        Key::Other(j) => Slot::OfOcc(j, 3),
        Key::Guard(j) => Slot::OfOcc(j, 4),
        Key::Present(j) => Slot::OfOcc(j, 5),
        Key::Slope(j) => Slot::OfOcc(j, 6),
        Key::Place(p) => Slot::OfPlace(p, 0),
        Key::Between(p) => Slot::OfPlace(p, 1),
        Key::Motion(p) => Slot::OfPlace(p, 2),
        Key::Last(p) => Slot::OfPlace(p, 3),
        Key::Remembered(p) => Slot::OfPlace(p, 4),
        Key::Taken(p, _) | Key::Passed(p, _) | Key::Chosen(p, _) => Slot::OfPlace(p, 5),
        Key::Again(_) => Slot::OfAgain,
    }
}

fn offset_of(key: Key) -> u64
    ensures { result ≡ spec.offset key }
{
    match key {
        Key::Fresh => 1,
        Key::No => 2,
        Key::Zero => 3,
        Key::Rest(_, i) | Key::Again(i) => i as u64,
        Key::Taken(_, i) => i as u64 * 3,
        Key::Passed(_, i) => i as u64 * 3 + 1,
        Key::Chosen(_, i) => i as u64 * 3 + 2,
        _ => 0,
    }
}

/// How far a number is above another, or 0.
fn above(number: u64, offset: u64) -> u64
    ensures { result ≡ number - offset }
{
    if offset <= number { number - offset } else { 0 }
}

impl KeyTables {
    fn empty(alloc: Global) -> KeyTables {
        KeyTables {
            occs: Vec::new(alloc),
            places: Vec::new(alloc),
            again: 0,
            place_memories: Vec::new(alloc),
            occ_memories: Vec::new(alloc),
        }
    }

    /// Puts a number in this entry.
    #[tactic(auto, using(crate::proofs::Sweep::set_occ, crate::proofs::Sweep::set_place, crate::proofs::Sweep::set_again, crate::proofs::Sweep::set_none))]
    fn set(&mut self, slot: Slot, number: u32) -> Result<(), AllocError>
        requires { spec.IsSlot slot }
        ensures { OnOk result (spec.IsSet self.old self.new slot number) }
    {
        match slot {
            Slot::Fixed => Ok(()),
            Slot::OfOcc(j, kind) => set_at(&mut self.occs, j as u64 * 7 + kind as u64, number),
            Slot::OfPlace(p, kind) => set_at(&mut self.places, p as u64 * 6 + kind as u64, number),
            Slot::OfAgain => {
                self.again = number;
                Ok(())
            }
        }
    }

    /// Puts down that wire number `number` stands for this.
    fn put(&mut self, key: Key, number: u64) -> Result<(), AllocError>
        ensures { OnOk result (spec.IsSet self.old self.new (spec.slot key) (number - spec.offset key)) }
    {
        let first = narrow(above(number, offset_of(key)))?;
        self.set(slot_of(key), first)
    }

    /// The numbers of wires that stand for these, by their places in the list.
    pub(crate) fn of_keys(alloc: Global, keys: &[Key]) -> Result<KeyTables, AllocError>
        requires { spec.AreInTurn spec.slot spec.offset keys.now }
        ensures { IfOk result (λ tables. AreNumbered keys.now (wire_number tables)) }
    {
        let mut tables = KeyTables::empty(alloc);
        for i in 0..keys.len() {
            tables.put(keys[i], i as u64)?;
        }
        Ok(tables)
    }
}

impl KeyTables {
    /// Puts down that memory number `number` stands for this.
    #[tactic(auto, using(crate::proofs::Keeping::keep_before, crate::proofs::Keeping::keep_moving, crate::proofs::Keeping::keep_derivative, crate::proofs::Keeping::keep_pre, crate::proofs::Keeping::keep_none))]
    fn keep(&mut self, kept: Kept, number: u32) -> Result<(), AllocError>
        ensures { OnOk result (spec.IsKept self.old self.new kept number) }
    {
        match kept {
            Kept::First => Ok(()),
            Kept::Before(p) => set_at(&mut self.place_memories, p as u64 * 3, number),
            Kept::Moving(p) => set_at(&mut self.place_memories, p as u64 * 3 + 1, number),
            Kept::Derivative(p) => set_at(&mut self.place_memories, p as u64 * 3 + 2, number),
            Kept::Pre(j) => set_at(&mut self.occ_memories, j as u64, number),
        }
    }

    fn keep_next(&mut self, kept: Kept, number: u64) -> Result<(), AllocError>
        ensures { OnOk result (spec.IsKept self.old self.new kept number) }
    {
        self.keep(kept, narrow(number)?)
    }

    /// The numbers of these memories, by their places in the list.
    fn keep_all(&mut self, kept: &[Kept]) -> Result<(), AllocError>
        requires { spec.AreInTurn spec.kept_slot spec.no_offset kept.now }
        ensures memories { OnOk result (AreNumbered kept.now (memory_number self.new)) }
        ensures wires { OnOk result ((key : TheKey) → wire_number self.new key ≡ wire_number self.old key) }
    {
        for i in 0..kept.len() {
            self.keep_next(kept[i], i as u64)?;
        }
        Ok(())
    }
}

impl Source<'_> {
    /// The numbers of the memories of this form, of which this is the list. Those of wires are as before.
    pub(crate) fn keep(&self, tables: &mut KeyTables, kept: &[Kept]) -> Result<(), AllocError>
        requires { kept.now ≡ memories_of self.now.flat.now self.now.grades.now self.now.tables.now }
        ensures memories { OnOk result (AreNumbered (memories_of self.now.flat.now self.now.grades.now self.now.tables.now) (memory_number tables.new)) }
        ensures wires { OnOk result ((key : TheKey) → wire_number tables.new key ≡ wire_number tables.old key) }
    {
        tables.keep_all(kept)
    }

    /// The numbers of the wires of this form, of which this is the list.
    pub(crate) fn numbered(&self, alloc: Global, keys: &[Key]) -> Result<KeyTables, AllocError>
        requires { keys.now ≡ keys_of self.now.flat.now self.now.grades.now self.now.tables.now }
        ensures { IfOk result (λ tables. AreNumbered (keys_of self.now.flat.now self.now.grades.now self.now.tables.now) (wire_number tables)) }
    {
        KeyTables::of_keys(alloc, keys)
    }
}
