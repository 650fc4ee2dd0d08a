// The wires of a form, by what they stand for, in the order in which they are numbered.
ghost use Rattle.std.specs.Prelude.{◌≡◌, ◌++◌, ◌∷◌, [], slice_get, OnOk, IfOk};
ghost use Rattle.zl_value.specs.Lists.{when};
ghost use Rattle.zl_meaning.specs.FlatForm.{place_call};
ghost use Rattle.zl_normal.specs.Keys as spec;
ghost use Rattle.zl_normal.specs.PlaceWires as places;
ghost use Rattle.zl_normal.specs.declared.key.Key.TheVariants as key;

use crate::key::{Kept, Key};
use crate::role::Role;
use crate::tables::{Tables, definer_at, has_own_slope, is_computed, start_of};
use std::alloc::{AllocError, Global};
use zl_meaning::{Definer, DerArm, Flat, Form, Occ, PlaceInfo, narrow};

/// A form with its grades, and what is known of it.
#[derive(Drop)]
pub(crate) struct Source<'a> {
    pub(crate) flat: &'a Flat,
    pub(crate) grades: &'a [u8],
    pub(crate) tables: &'a Tables,
}

fn add_if(keys: &mut Vec<Key>, wanted: bool, key: Key) -> Result<(), AllocError>
    ensures { OnOk result (keys.new.items ≡ keys.old.items ++ when wanted key) }
{
    if wanted {
        keys.push(key)?;
    }
    Ok(())
}

#[tactic(auto, using(crate::proofs::KeyLists::joints_more, crate::proofs::KeyLists::joints_last, crate::proofs::KeyLists::append_none))]
fn add_rest(keys: &mut Vec<Key>, j: u32, parts: &[u32]) -> Result<(), AllocError>
    ensures { OnOk result (keys.new.items ≡ keys.old.items ++ spec.joints (key.Rest j) 0 parts.now) }
{
    for i in 0..parts.len() {
        if i + 1 < parts.len() {
            keys.push(Key::Rest(j, narrow(i as u64)?))?;
        }
    }
    Ok(())
}

#[tactic(auto, using(crate::proofs::KeyLists::joints_more, crate::proofs::KeyLists::joints_last, crate::proofs::KeyLists::append_none))]
fn add_again(keys: &mut Vec<Key>, again: &[u32]) -> Result<(), AllocError>
    ensures { OnOk result (keys.new.items ≡ keys.old.items ++ spec.joints key.Again 0 again.now) }
{
    for i in 0..again.len() {
        if i + 1 < again.len() {
            keys.push(Key::Again(narrow(i as u64)?))?;
        }
    }
    Ok(())
}

fn add_arm(keys: &mut Vec<Key>, p: u32, i: u32) -> Result<(), AllocError>
    ensures { OnOk result (keys.new.items ≡ keys.old.items ++ key.Taken p i ∷ key.Passed p i ∷ key.Chosen p i ∷ []) }
{
    keys.push(Key::Taken(p, i))?;
    keys.push(Key::Passed(p, i))?;
    keys.push(Key::Chosen(p, i))?;
    Ok(())
}

fn add_moving(keys: &mut Vec<Key>, p: u32) -> Result<(), AllocError>
    ensures { OnOk result (keys.new.items ≡ keys.old.items ++ key.Place p ∷ key.Between p ∷ key.Motion p ∷ []) }
{
    keys.push(Key::Place(p))?;
    keys.push(Key::Between(p))?;
    keys.push(Key::Motion(p))?;
    Ok(())
}

fn keep_if(kept: &mut Vec<Kept>, wanted: bool, one: Kept) -> Result<(), AllocError>
    ensures { OnOk result (kept.new.items ≡ kept.old.items ++ when wanted one) }
{
    if wanted {
        kept.push(one)?;
    }
    Ok(())
}

impl Source<'_> {
    /// The call in whose copy a place stands.
    fn place_call(&self, p: u32) -> Option<u32>
        ensures { result ≡ place_call self.now.flat.now p }
    {
        let flat = self.flat;
        match flat.places.as_slice().get(p as usize) {
            Some(place) => place.call,
            None => None,
        }
    }

    /// The value of an occurrence.
    fn add_value(&self, keys: &mut Vec<Key>, j: u32, form: &Form) -> Result<(), AllocError>
        ensures { OnOk result (keys.new.items ≡ keys.old.items ++ spec.value_keys self.now.flat.now self.now.grades.now self.now.tables.now j form.now) }
    {
        match form {
            Form::Lit(_) => add_if(keys, self.tables.first(j) == j, Key::Value(j)),
            Form::Op(_, _) | Form::If(_, _, _) | Form::Arrow(_, _) | Form::Up(_) => {
                add_if(keys, true, Key::Value(j))
            }
            Form::Pre(x) => {
                keys.push(Key::Value(j))?;
                add_if(keys, !self.tables.is_guarded(self.flat, *x), Key::Next(j))
            }
            Form::Fired(parts) => add_rest(keys, j, parts.as_slice()),
            _ => Ok(()),
        }
    }

    /// The guard of an occurrence that is used so.
    fn add_guard(&self, keys: &mut Vec<Key>, j: u32, role: Option<Role>) -> Result<(), AllocError>
        ensures { OnOk result (keys.new.items ≡ keys.old.items ++ spec.guard_keys self.now.flat.now self.now.grades.now self.now.tables.now j role) }
    {
        match role {
            Some(
                Role::Branch {
                    whole,
                    condition,
                    side,
                },
            ) => {
                let known = self.tables.is_always(whole)
                    || self.tables.is_guarded(self.flat, condition);
                add_if(keys, !side || !known, Key::Guard(j))
            }
            Some(
                Role::Both {
                    whole: _,
                    condition: _,
                },
            ) => {
                keys.push(Key::Other(j))?;
                add_if(keys, true, Key::Guard(j))
            }
            Some(Role::Start(p)) => {
                add_if(
                    keys,
                    !self.tables.is_free(self.place_call(p)),
                    Key::Guard(j),
                )
            }
            Some(Role::Reset { place, arm: _ }) => {
                add_if(
                    keys,
                    !self.tables.is_free(self.place_call(place)),
                    Key::Guard(j),
                )
            }
            Some(
                Role::Unused
                | Role::Part(_)
                | Role::Definer(_)
                | Role::Slope(_)
                | Role::Event(_)
                | Role::Argument
                | Role::Again,
            ) => Ok(()),
            None => Ok(()),
        }
    }

    /// The slope of an occurrence.
    fn add_slope(&self, keys: &mut Vec<Key>, j: u32, occ: &Occ) -> Result<(), AllocError>
        ensures { OnOk result (keys.new.items ≡ keys.old.items ++ spec.slope_keys self.now.flat.now self.now.grades.now self.now.tables.now j occ.now) }
    {
        if has_own_slope(self.flat, self.grades, j, occ) {
            match &occ.form {
                Form::Op(_, _) => keys.push(Key::Present(j))?,
                _ => {}
            }
            keys.push(Key::Slope(j))?;
        }
        Ok(())
    }

    fn add_occ(&self, keys: &mut Vec<Key>, j: u32, occ: &Occ) -> Result<(), AllocError>
        ensures { OnOk result (keys.new.items ≡ keys.old.items ++ spec.occ_keys self.now.flat.now self.now.grades.now self.now.tables.now j occ.now) }
    {
        self.add_value(keys, j, &occ.form)?;
        self.add_guard(keys, j, self.tables.role(j))?;
        self.add_slope(keys, j, occ)
    }

    #[tactic(auto, using(crate::proofs::KeyLists::each_more, crate::proofs::KeyLists::append_none))]
    fn add_occs(&self, keys: &mut Vec<Key>) -> Result<(), AllocError>
        ensures { OnOk result (keys.new.items ≡ keys.old.items ++ spec.each (spec.occ_keys self.now.flat.now self.now.grades.now self.now.tables.now) 0 self.now.flat.now.occs) }
    {
        let flat = self.flat;
        let occs = flat.occs.as_slice();
        for j in 0..occs.len() {
            self.add_occ(keys, narrow(j as u64)?, &occs[j])?;
        }
        Ok(())
    }

    /// The arms of a place.
    #[tactic(auto, using(crate::proofs::KeyLists::arms_more, crate::proofs::KeyLists::append_none))]
    fn add_arms(&self, keys: &mut Vec<Key>, p: u32, arms: &[DerArm]) -> Result<(), AllocError>
        ensures { OnOk result (keys.new.items ≡ keys.old.items ++ spec.each (spec.arm_keys self.now.flat.now self.now.grades.now self.now.tables.now p) 0 arms.now) }
    {
        for i in 0..arms.len() {
            add_arm(keys, p, narrow(i as u64)?)?;
        }
        Ok(())
    }

    /// The value of a place.
    #[tactic(auto, using(crate::proofs::KeyLists::append_none))]
    fn add_definer(&self, keys: &mut Vec<Key>, p: u32, place: &PlaceInfo) -> Result<(), AllocError>
        ensures { OnOk result (keys.new.items ≡ keys.old.items ++ spec.definer_keys self.now.flat.now self.now.grades.now self.now.tables.now p place.now.call (places.definer_of place.now.definers)) }
    {
        let definers = place.definers.as_slice();
        match definer_at(definers) {
            None => add_if(keys, !self.tables.is_free(place.call), Key::Place(p)),
            Some(i) => match &definers[i] {
                Definer::Input(_) => add_if(keys, true, Key::Place(p)),
                Definer::Plain { block: _, occ } => {
                    let wanted = !(self.tables.is_free(place.call)
                        || self.tables.is_guarded(self.flat, *occ));
                    add_if(keys, wanted, Key::Place(p))
                }
                Definer::Der {
                    block: _,
                    slope: _,
                    resets,
                } => {
                    add_moving(keys, p)?;
                    self.add_arms(keys, p, resets.as_slice())
                }
                Definer::Start { block: _, occ: _ } => Ok(()),
            },
        }
    }

    /// `last` of a place.
    fn add_last(&self, keys: &mut Vec<Key>, p: u32, place: &PlaceInfo) -> Result<(), AllocError>
        ensures { OnOk result (keys.new.items ≡ keys.old.items ++ spec.last_keys self.now.flat.now self.now.grades.now self.now.tables.now p place.now) }
    {
        if self.tables.has_last(p, place) {
            keys.push(Key::Last(p))?;
            let computed = is_computed(self.flat, start_of(place.definers.as_slice()));
            add_if(keys, computed, Key::Remembered(p))?;
        }
        Ok(())
    }

    fn add_place(&self, keys: &mut Vec<Key>, p: u32, place: &PlaceInfo) -> Result<(), AllocError>
        ensures { OnOk result (keys.new.items ≡ keys.old.items ++ spec.place_keys self.now.flat.now self.now.grades.now self.now.tables.now p place.now) }
    {
        self.add_definer(keys, p, place)?;
        self.add_last(keys, p, place)
    }

    #[tactic(auto, using(crate::proofs::KeyLists::each_more, crate::proofs::KeyLists::append_none))]
    fn add_places(&self, keys: &mut Vec<Key>) -> Result<(), AllocError>
        ensures { OnOk result (keys.new.items ≡ keys.old.items ++ spec.each (spec.place_keys self.now.flat.now self.now.grades.now self.now.tables.now) 0 self.now.flat.now.places) }
    {
        let flat = self.flat;
        let places = flat.places.as_slice();
        for p in 0..places.len() {
            self.add_place(keys, narrow(p as u64)?, &places[p])?;
        }
        Ok(())
    }

    /// All wires.
    pub(crate) fn keys(&self, alloc: Global) -> Result<Vec<Key>, AllocError>
        ensures { IfOk result (λ keys. keys.items ≡ spec.keys self.now.flat.now self.now.grades.now self.now.tables.now) }
    {
        let mut keys = Vec::new(alloc);
        keys.push(Key::Step)?;
        keys.push(Key::Fresh)?;
        keys.push(Key::No)?;
        keys.push(Key::Zero)?;
        self.add_occs(&mut keys)?;
        self.add_places(&mut keys)?;
        let flat = self.flat;
        add_again(&mut keys, flat.again.as_slice())?;
        Ok(keys)
    }

    /// The memories of a place that moves.
    #[tactic(auto, using(crate::proofs::KeyLists::append_none))]
    fn add_motion(
        &self,
        kept: &mut Vec<Kept>,
        p: u32,
        definers: &[Definer],
    ) -> Result<(), AllocError>
        ensures { OnOk result (kept.new.items ≡ kept.old.items ++ spec.motion_memories self.now.flat.now self.now.grades.now self.now.tables.now p (places.definer_of definers.now)) }
    {
        match definer_at(definers) {
            None => Ok(()),
            Some(i) => match &definers[i] {
                Definer::Der {
                    block: _,
                    slope: _,
                    resets: _,
                } => {
                    kept.push(Kept::Moving(p))?;
                    kept.push(Kept::Derivative(p))?;
                    Ok(())
                }
                Definer::Input(_) => Ok(()),
                Definer::Plain { block: _, occ: _ } => Ok(()),
                Definer::Start { block: _, occ: _ } => Ok(()),
            },
        }
    }

    fn add_memories(
        &self,
        kept: &mut Vec<Kept>,
        p: u32,
        place: &PlaceInfo,
    ) -> Result<(), AllocError>
        ensures { OnOk result (kept.new.items ≡ kept.old.items ++ spec.place_memories self.now.flat.now self.now.grades.now self.now.tables.now p place.now) }
    {
        keep_if(kept, self.tables.has_last(p, place), Kept::Before(p))?;
        self.add_motion(kept, p, place.definers.as_slice())
    }

    #[tactic(auto, using(crate::proofs::KeyLists::each_more, crate::proofs::KeyLists::append_none))]
    fn add_place_memories(&self, kept: &mut Vec<Kept>) -> Result<(), AllocError>
        ensures { OnOk result (kept.new.items ≡ kept.old.items ++ spec.each (spec.place_memories self.now.flat.now self.now.grades.now self.now.tables.now) 0 self.now.flat.now.places) }
    {
        let flat = self.flat;
        let places = flat.places.as_slice();
        for p in 0..places.len() {
            self.add_memories(kept, narrow(p as u64)?, &places[p])?;
        }
        Ok(())
    }

    #[tactic(auto, using(crate::proofs::KeyLists::each_more, crate::proofs::KeyLists::append_none))]
    fn add_occ_memories(&self, kept: &mut Vec<Kept>) -> Result<(), AllocError>
        ensures { OnOk result (kept.new.items ≡ kept.old.items ++ spec.each (spec.occ_memories self.now.flat.now self.now.grades.now self.now.tables.now) 0 self.now.flat.now.occs) }
    {
        let flat = self.flat;
        let occs = flat.occs.as_slice();
        for j in 0..occs.len() {
            if let Form::Pre(_) = &occs[j].form {
                kept.push(Kept::Pre(narrow(j as u64)?))?;
            }
        }
        Ok(())
    }

    /// All memories.
    pub(crate) fn memories(&self, alloc: Global) -> Result<Vec<Kept>, AllocError>
        ensures { IfOk result (λ kept. kept.items ≡ spec.memories self.now.flat.now self.now.grades.now self.now.tables.now) }
    {
        let mut kept = Vec::new(alloc);
        kept.push(Kept::First)?;
        self.add_place_memories(&mut kept)?;
        self.add_occ_memories(&mut kept)?;
        Ok(kept)
    }
}
