// The wires of places, and the wire that stands for a key.
ghost use Rattle.std.specs.Prelude.{◌≡◌, None, IfOk};
ghost use Rattle.zl_value.specs.declared.value.Ty.TheVariants.{Float};
ghost use Rattle.zl_kernel.specs.declared.wire.Def.TheVariants.{Mem};
ghost use Rattle.zl_normal.specs.KernelOf as spec;
ghost use Rattle.zl_normal.specs.NumberTables.{memory_number, numbers_of};
ghost use Rattle.zl_normal.specs.PlaceWires as places;
ghost use Rattle.zl_normal.specs.declared.key.Key.TheVariants as key;

use crate::key::{Kept, Key};
use crate::made_wire::{Making, blank, one, plain, tail, two};
use crate::tables::{definer_at, is_literal, start_of};
use std::alloc::{AllocError, Global};
use zl_kernel::{Def, Wire};
use zl_meaning::{Definer, DerArm, PlaceInfo, narrow};
use zl_value::{Frac, Op, Ty, Value};

impl Making<'_> {
    /// The wire of what a place has by its arms from this number on, which are these.
    fn by_arms(&self, p: u32, i: u32, arms: &[DerArm]) -> Result<u32, AllocError>
        ensures { IfOk result (λ n. n ≡ spec.by_arms self.now.flat.now self.now.grades.now self.now.tables.now (numbers_of self.now.keys.now self.now.wires.now) p i arms.now) }
    {
        match arms {
            [] => self.keys.wire(Key::Last(p)),
            [_, ..] => self.keys.wire(Key::Chosen(p, i)),
        }
    }

    /// The wire that is true where no arm before this one is taken.
    fn before_arm(&self, p: u32, i: u32) -> Result<u32, AllocError>
        ensures { IfOk result (λ n. n ≡ spec.before_arm self.now.flat.now self.now.grades.now self.now.tables.now (numbers_of self.now.keys.now self.now.wires.now) p i) }
    {
        if i == 0 {
            return Ok(0);
        }
        self.keys.wire(Key::Passed(p, i - 1))
    }

    fn defined_wire(&self, p: u32, place: &PlaceInfo) -> Result<Wire, AllocError>
        ensures { IfOk result (λ wire. wire ≡ spec.defined_wire self.now.flat.now self.now.grades.now self.now.tables.now (numbers_of self.now.keys.now self.now.wires.now) p place.now (places.definer_of place.now.definers)) }
    {
        let wires = self.wires;
        let definers = place.definers.as_slice();
        let guard = self.call_guard(place.call);
        match definer_at(definers) {
            None => Ok(plain(place.ty, Def::Copy(self.keys.wire(Key::Last(p))?), guard)),
            Some(i) => match &definers[i] {
                Definer::Input(number) => Ok(plain(place.ty, Def::In(*number), guard)),
                Definer::Plain { block: _, occ } => {
                    Ok(plain(place.ty, Def::Copy(wires.value(*occ)), guard))
                }
                Definer::Der {
                    block: _,
                    slope: _,
                    resets,
                } => {
                    let chosen = self.by_arms(p, 0, resets.as_slice())?;
                    let between = self.keys.wire(Key::Between(p))?;
                    Ok(plain(place.ty, Def::If(0, chosen, between), guard))
                }
                Definer::Start { block: _, occ: _ } => Ok(blank()),
            },
        }
    }

    /// The arms of a place with these definers.
    fn arms_of<'b>(&self, definers: &'b [Definer]) -> &'b [DerArm]
        ensures { result.now ≡ spec.arms_of self.now.flat.now self.now.grades.now self.now.tables.now (numbers_of self.now.keys.now self.now.wires.now) (places.definer_of definers.now) }
    {
        match definer_at(definers) {
            None => &[],
            Some(i) => match &definers[i] {
                Definer::Der {
                    block: _,
                    slope: _,
                    resets,
                } => resets.as_slice(),
                Definer::Input(_) => &[],
                Definer::Plain { block: _, occ: _ } => &[],
                Definer::Start { block: _, occ: _ } => &[],
            },
        }
    }

    /// Whether an arm is taken, which is the first of these.
    fn taken_wire(&self, p: u32, i: u32, arms: &[DerArm]) -> Result<Wire, AllocError>
        ensures { IfOk result (λ wire. wire ≡ spec.taken_wire self.now.flat.now self.now.grades.now self.now.tables.now (numbers_of self.now.keys.now self.now.wires.now) p i arms.now) }
    {
        let wires = self.wires;
        match arms {
            [] => Ok(blank()),
            [arm, ..] => {
                let before = self.before_arm(p, i)?;
                Ok(plain(Ty::Bool, Def::Copy(wires.value(arm.event)), Some(before)))
            }
        }
    }

    /// Whether neither it nor one before is.
    fn passed_wire(
        &self,
        alloc: Global,
        p: u32,
        i: u32,
        arms: &[DerArm],
    ) -> Result<Wire, AllocError>
        ensures { IfOk result (λ wire. wire ≡ spec.passed_wire self.now.flat.now self.now.grades.now self.now.tables.now (numbers_of self.now.keys.now self.now.wires.now) p i arms.now) }
    {
        let wires = self.wires;
        match arms {
            [] => Ok(blank()),
            [arm, ..] => {
                let def = Def::Op(Op::Not, one(alloc, wires.value(arm.event))?);
                let before = self.before_arm(p, i)?;
                Ok(plain(Ty::Bool, def, Some(before)))
            }
        }
    }

    /// The value by it and those behind it.
    fn chosen_wire(&self, p: u32, i: u32, arms: &[DerArm]) -> Result<Wire, AllocError>
        ensures { IfOk result (λ wire. wire ≡ spec.chosen_wire self.now.flat.now self.now.grades.now self.now.tables.now (numbers_of self.now.keys.now self.now.wires.now) p i arms.now) }
    {
        let wires = self.wires;
        match arms {
            [] => Ok(blank()),
            [arm, behind @ ..] => {
                let taken = self.keys.wire(Key::Taken(p, i))?;
                let other = self.by_arms(p, narrow(1 + i as u64)?, behind)?;
                Ok(plain(
                    Ty::Float,
                    Def::If(taken, wires.value(arm.value), other),
                    None,
                ))
            }
        }
    }

    fn last_wire(&self, p: u32, place: &PlaceInfo) -> Result<Wire, AllocError>
        ensures { IfOk result (λ wire. wire ≡ spec.last_wire self.now.flat.now self.now.grades.now self.now.tables.now (numbers_of self.now.keys.now self.now.wires.now) p place.now (places.start_of place.now.definers)) }
    {
        let wires = self.wires;
        let memory = self.keys.memory(Kept::Before(p));
        match start_of(place.definers.as_slice()) {
            None => Ok(plain(place.ty, Def::Mem(memory), None)),
            Some(j) => {
                if is_literal(self.flat, j) {
                    return Ok(plain(place.ty, Def::Mem(memory), None));
                }
                let remembered = self.keys.wire(Key::Remembered(p))?;
                Ok(plain(place.ty, Def::If(1, wires.value(j), remembered), None))
            }
        }
    }

    fn place_value(&self, p: u32) -> Result<Wire, AllocError>
        ensures { IfOk result (λ wire. wire ≡ spec.wire_of self.now.flat.now self.now.grades.now self.now.tables.now (numbers_of self.now.keys.now self.now.wires.now) (key.Place p)) }
    {
        let flat = self.flat;
        match flat.places.as_slice().get(p as usize) {
            Some(place) => self.defined_wire(p, place),
            None => Ok(blank()),
        }
    }

    fn place_taken(&self, p: u32, i: u32) -> Result<Wire, AllocError>
        ensures { IfOk result (λ wire. wire ≡ spec.wire_of self.now.flat.now self.now.grades.now self.now.tables.now (numbers_of self.now.keys.now self.now.wires.now) (key.Taken p i)) }
    {
        let flat = self.flat;
        match flat.places.as_slice().get(p as usize) {
            Some(place) => {
                self.taken_wire(p, i, tail(self.arms_of(place.definers.as_slice()), i))
            }
            None => Ok(blank()),
        }
    }

    fn place_passed(&self, alloc: Global, p: u32, i: u32) -> Result<Wire, AllocError>
        ensures { IfOk result (λ wire. wire ≡ spec.wire_of self.now.flat.now self.now.grades.now self.now.tables.now (numbers_of self.now.keys.now self.now.wires.now) (key.Passed p i)) }
    {
        let flat = self.flat;
        match flat.places.as_slice().get(p as usize) {
            Some(place) => {
                self.passed_wire(
                    alloc,
                    p,
                    i,
                    tail(self.arms_of(place.definers.as_slice()), i),
                )
            }
            None => Ok(blank()),
        }
    }

    fn place_chosen(&self, p: u32, i: u32) -> Result<Wire, AllocError>
        ensures { IfOk result (λ wire. wire ≡ spec.wire_of self.now.flat.now self.now.grades.now self.now.tables.now (numbers_of self.now.keys.now self.now.wires.now) (key.Chosen p i)) }
    {
        let flat = self.flat;
        match flat.places.as_slice().get(p as usize) {
            Some(place) => {
                self.chosen_wire(p, i, tail(self.arms_of(place.definers.as_slice()), i))
            }
            None => Ok(blank()),
        }
    }

    fn place_last(&self, p: u32) -> Result<Wire, AllocError>
        ensures { IfOk result (λ wire. wire ≡ spec.wire_of self.now.flat.now self.now.grades.now self.now.tables.now (numbers_of self.now.keys.now self.now.wires.now) (key.Last p)) }
    {
        let flat = self.flat;
        match flat.places.as_slice().get(p as usize) {
            Some(place) => self.last_wire(p, place),
            None => Ok(blank()),
        }
    }

    fn place_remembered(&self, p: u32) -> Wire
        ensures { result ≡ spec.wire_of self.now.flat.now self.now.grades.now self.now.tables.now (numbers_of self.now.keys.now self.now.wires.now) (key.Remembered p) }
    {
        let flat = self.flat;
        match flat.places.as_slice().get(p as usize) {
            Some(place) => {
                let memory = self.keys.memory(Kept::Before(p));
                plain(place.ty, Def::Mem(memory), None)
            }
            None => blank(),
        }
    }

    /// What is held in a memory, as a number.
    fn held(&self, kept: Kept) -> Wire
        ensures { result ≡ spec.plain Float (Mem (memory_number self.now.keys.now kept)) None }
    {
        plain(Ty::Float, Def::Mem(self.keys.memory(kept)), None)
    }

    fn present_wire(&self, alloc: Global, j: u32) -> Result<Wire, AllocError>
        ensures { IfOk result (λ wire. wire ≡ spec.wire_of self.now.flat.now self.now.grades.now self.now.tables.now (numbers_of self.now.keys.now self.now.wires.now) (key.Present j)) }
    {
        let value = self.wires.value(j);
        let def = Def::Op(Op::EqFloat, two(alloc, value, value)?);
        Ok(plain(Ty::Bool, def, None))
    }

    /// The wire that stands for this.
    pub(crate) fn wire_of(&self, alloc: Global, key: Key) -> Result<Wire, AllocError>
        ensures { IfOk result (λ wire. wire ≡ spec.wire_of self.now.flat.now self.now.grades.now self.now.tables.now (numbers_of self.now.keys.now self.now.wires.now) key) }
    {
        match key {
            Key::Step => Ok(plain(Ty::Bool, Def::Step, None)),
            Key::Fresh => Ok(plain(Ty::Bool, Def::Mem(0), None)),
            Key::No => Ok(blank()),
            Key::Zero => Ok(plain(Ty::Float, Def::Lit(Value::F(Frac::zero())), None)),
            Key::Value(j) => self.occ_value(alloc, j),
            Key::Rest(j, i) => self.occ_rest(alloc, j, i),
            Key::Next(j) => Ok(self.occ_next(j)),
            Key::Other(j) => self.other_wire(alloc, self.tables.role(j)),
            Key::Guard(j) => self.guard_wire(alloc, j, self.tables.role(j)),
            Key::Place(p) => self.place_value(p),
            Key::Between(p) => Ok(self.held(Kept::Moving(p))),
            Key::Taken(p, i) => self.place_taken(p, i),
            Key::Passed(p, i) => self.place_passed(alloc, p, i),
            Key::Chosen(p, i) => self.place_chosen(p, i),
            Key::Last(p) => self.place_last(p),
            Key::Remembered(p) => Ok(self.place_remembered(p)),
            Key::Again(i) => self.again_wire(alloc, i),
            Key::Present(j) => self.present_wire(alloc, j),
            Key::Slope(j) => self.occ_slope(alloc, j),
            Key::Motion(p) => Ok(self.held(Kept::Derivative(p))),
        }
    }
}
