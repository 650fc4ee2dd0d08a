// The kernel of a form, from lists of what its wires and memories stand for.
ghost use Rattle.std.specs.Prelude.{◌≡◌, ◌++◌, ◌∷◌, [], map, get_or, slice_get, OnOk, IfOk};
ghost use Rattle.zl_kernel.specs.WellFormed.{IsWellFormed};
ghost use Rattle.zl_normal.specs.Keys.{keys as keys_of, memories as memories_of};
ghost use Rattle.zl_normal.specs.KernelOf as spec;
ghost use Rattle.zl_normal.specs.NumberTables.{numbers_of};
ghost use Rattle.zl_normal.specs.PlaceWires as places;
ghost use Rattle.zl_normal.specs.declared.key.Kept.TheVariants as kept;

use crate::key::{Kept, Key};
use crate::made_wire::{Making, nowhere};
use crate::tables::{definer_at, start_of};
use std::alloc::{AllocError, Global};
use zl_kernel::{KMem, KSite, Kernel, Wire};
use zl_lexer::Names;
use zl_meaning::{Definer, Form, Occ, PlaceInfo, SiteInfo};
use zl_value::{Input, Output, Sequence, Text, Ty, Value};

/// A copy of a name, which is empty where there is none of this number.
#[tactic(auto, using(crate::proofs::KeyLists::missing))]
fn named(alloc: Global, names: &Names, number: u32) -> Result<Text, AllocError>
    ensures { IfOk result (λ text. text ≡ get_or names.now number []) }
{
    match names.text(number) {
        Some(name) => Ok(Text::from_vec(Vec::from_slice(alloc, name.as_bytes())?)),
        None => Ok(Text::from_vec(Vec::new(alloc))),
    }
}

impl Making<'_> {
    /// A memory that doesn't move.
    fn still(&self, ty: Ty, start: Option<Value>, next: u32) -> KMem
        ensures { result ≡ spec.still self.now.flat.now self.now.grades.now self.now.tables.now (numbers_of self.now.keys.now self.now.wires.now) ty start next }
    {
        KMem {
            ty,
            start,
            next,
            slope: None,
            at: nowhere(),
        }
    }

    fn no_memory(&self) -> KMem
        ensures { result ≡ spec.no_memory self.now.flat.now self.now.grades.now self.now.tables.now (numbers_of self.now.keys.now self.now.wires.now) }
    {
        self.still(Ty::Bool, None, 2)
    }

    /// The `init` value of a place, if it is a literal.
    fn literal_start(&self, start: Option<u32>) -> Option<Value>
        ensures { result ≡ spec.literal_start self.now.flat.now self.now.grades.now self.now.tables.now (numbers_of self.now.keys.now self.now.wires.now) start }
    {
        let flat = self.flat;
        match start {
            Some(j) => match flat.occs.as_slice().get(j as usize) {
                Some(occ) => match &occ.form {
                    Form::Lit(value) => Some(*value),
                    _ => None,
                },
                None => None,
            },
            None => None,
        }
    }

    fn moving_memory(&self, p: u32, place: &PlaceInfo) -> KMem
        ensures { result ≡ spec.moving_memory self.now.flat.now self.now.grades.now self.now.tables.now (numbers_of self.now.keys.now self.now.wires.now) p place.now }
    {
        let wires = self.wires;
        KMem {
            ty: Ty::Float,
            start: None,
            next: wires.place(p),
            slope: Some(wires.motion(p)),
            at: place.at,
        }
    }

    fn derivative_memory(&self, definers: &[Definer]) -> KMem
        ensures { result ≡ spec.derivative_memory self.now.flat.now self.now.grades.now self.now.tables.now (numbers_of self.now.keys.now self.now.wires.now) (places.definer_of definers.now) }
    {
        let wires = self.wires;
        match definer_at(definers) {
            None => self.no_memory(),
            Some(i) => match &definers[i] {
                Definer::Der {
                    block: _,
                    slope,
                    resets: _,
                } => self.still(Ty::Float, None, wires.value(*slope)),
                Definer::Input(_) => self.no_memory(),
                Definer::Plain { block: _, occ: _ } => self.no_memory(),
                Definer::Start { block: _, occ: _ } => self.no_memory(),
            },
        }
    }

    fn pre_memory(&self, j: u32, occ: &Occ) -> Result<KMem, AllocError>
        ensures { IfOk result (λ memory. memory ≡ spec.pre_memory self.now.flat.now self.now.grades.now self.now.tables.now (numbers_of self.now.keys.now self.now.wires.now) j occ.now.form occ.now.ty) }
    {
        let wires = self.wires;
        match &occ.form {
            Form::Pre(x) => {
                if self.tables.is_guarded(self.flat, *x) {
                    Ok(self.still(occ.ty, None, wires.value(*x)))
                } else {
                    Ok(self.still(occ.ty, None, self.keys.wire(Key::Next(j))?))
                }
            }
            _ => Ok(self.no_memory()),
        }
    }

    fn memory_before(&self, p: u32) -> KMem
        ensures { result ≡ spec.memory_of self.now.flat.now self.now.grades.now self.now.tables.now (numbers_of self.now.keys.now self.now.wires.now) (kept.Before p) }
    {
        let (flat, wires) = (self.flat, self.wires);
        match flat.places.as_slice().get(p as usize) {
            Some(place) => {
                let start = self.literal_start(start_of(place.definers.as_slice()));
                self.still(place.ty, start, wires.place(p))
            }
            None => self.no_memory(),
        }
    }

    /// The memory that stands for this.
    pub(crate) fn memory_of(&self, kept: Kept) -> Result<KMem, AllocError>
        ensures { IfOk result (λ memory. memory ≡ spec.memory_of self.now.flat.now self.now.grades.now self.now.tables.now (numbers_of self.now.keys.now self.now.wires.now) kept) }
    {
        let flat = self.flat;
        match kept {
            Kept::First => Ok(self.still(Ty::Bool, Some(Value::B(true)), 2)),
            Kept::Before(p) => Ok(self.memory_before(p)),
            Kept::Moving(p) => match flat.places.as_slice().get(p as usize) {
                Some(place) => Ok(self.moving_memory(p, place)),
                None => Ok(self.no_memory()),
            },
            Kept::Derivative(p) => match flat.places.as_slice().get(p as usize) {
                Some(place) => Ok(self.derivative_memory(place.definers.as_slice())),
                None => Ok(self.no_memory()),
            },
            Kept::Pre(j) => match flat.occs.as_slice().get(j as usize) {
                Some(occ) => self.pre_memory(j, occ),
                None => Ok(self.no_memory()),
            },
        }
    }

    /// Whether a site with this argument is fresh.
    fn fresh_of(&self, j: u32) -> u32
        ensures { result ≡ spec.fresh_occ self.now.flat.now self.now.grades.now self.now.tables.now (numbers_of self.now.keys.now self.now.wires.now) (slice_get self.now.flat.now.occs j) }
    {
        let (flat, wires) = (self.flat, self.wires);
        match flat.occs.as_slice().get(j as usize) {
            Some(occ) => match &occ.form {
                Form::If(c, x, y) => { if *x == *y { wires.value(*c) } else { 1 } }
                _ => 1,
            },
            None => 1,
        }
    }

    fn site_of(&self, site: &SiteInfo) -> KSite
        ensures { result ≡ spec.site_of self.now.flat.now self.now.grades.now self.now.tables.now (numbers_of self.now.keys.now self.now.wires.now) site.now }
    {
        let wires = self.wires;
        KSite {
            value: wires.value(site.arg),
            fresh: self.fresh_of(site.arg),
            slope: wires.slope(site.arg),
        }
    }

    /// The wire that is true where one of these occurrences is.
    fn any_again(&self, again: &[u32]) -> Result<u32, AllocError>
        ensures { IfOk result (λ wire. wire ≡ spec.any_again self.now.flat.now self.now.grades.now self.now.tables.now (numbers_of self.now.keys.now self.now.wires.now) again.now) }
    {
        let wires = self.wires;
        match again {
            [] => Ok(2),
            [j] => Ok(wires.value(*j)),
            [_, _, ..] => self.keys.wire(Key::Again(0)),
        }
    }

    fn input_of(&self, alloc: Global, names: &Names, p: u32) -> Result<Input, AllocError>
        ensures { IfOk result (λ input. input ≡ spec.input_of self.now.flat.now self.now.grades.now self.now.tables.now (numbers_of self.now.keys.now self.now.wires.now) names.now (slice_get self.now.flat.now.places p)) }
    {
        let flat = self.flat;
        match flat.places.as_slice().get(p as usize) {
            Some(place) => Ok(Input {
                name: named(alloc, names, place.name)?,
                ty: place.ty,
            }),
            None => Ok(Input {
                name: Text::from_vec(Vec::new(alloc)),
                ty: Ty::Bool,
            }),
        }
    }

    fn output_of(&self, alloc: Global, names: &Names, p: u32) -> Result<Output, AllocError>
        ensures { IfOk result (λ output. output ≡ spec.output_of self.now.flat.now self.now.grades.now self.now.tables.now (numbers_of self.now.keys.now self.now.wires.now) names.now p) }
    {
        let (flat, wires) = (self.flat, self.wires);
        let from = wires.place(p);
        match flat.places.as_slice().get(p as usize) {
            Some(place) => Ok(Output {
                name: named(alloc, names, place.name)?,
                from,
            }),
            None => Ok(Output {
                name: Text::from_vec(Vec::new(alloc)),
                from,
            }),
        }
    }

    #[tactic(auto, using(crate::proofs::KeyLists::made_more, crate::proofs::KeyLists::append_none))]
    fn wires(&self, alloc: Global, keys: &[Key]) -> Result<Sequence<Wire>, AllocError>
        ensures { IfOk result (λ wires. wires ≡ map (spec.wire_of self.now.flat.now self.now.grades.now self.now.tables.now (numbers_of self.now.keys.now self.now.wires.now)) keys.now) }
    {
        let mut wires = Vec::new(alloc);
        for i in 0..keys.len() {
            wires.push(self.wire_of(alloc, keys[i])?)?;
        }
        Ok(Sequence::from_vec(wires))
    }

    fn add_memory(&self, memories: &mut Vec<KMem>, kept: Kept) -> Result<(), AllocError>
        ensures { OnOk result (memories.new.items ≡ memories.old.items ++ spec.memory_of self.now.flat.now self.now.grades.now self.now.tables.now (numbers_of self.now.keys.now self.now.wires.now) kept ∷ []) }
    {
        let memory = self.memory_of(kept)?;
        let start: Option<Value> = memory.start;
        memories.push(KMem { start, ..memory })?;
        Ok(())
    }

    #[tactic(auto, using(crate::proofs::KeyLists::made_more, crate::proofs::KeyLists::append_none))]
    fn memories(&self, alloc: Global, kept: &[Kept]) -> Result<Sequence<KMem>, AllocError>
        ensures { IfOk result (λ memories. memories ≡ map (spec.memory_of self.now.flat.now self.now.grades.now self.now.tables.now (numbers_of self.now.keys.now self.now.wires.now)) kept.now) }
    {
        let mut memories = Vec::new(alloc);
        for i in 0..kept.len() {
            self.add_memory(&mut memories, kept[i])?;
        }
        Ok(Sequence::from_vec(memories))
    }

    #[tactic(auto, using(crate::proofs::KeyLists::made_more, crate::proofs::KeyLists::append_none))]
    fn sites(&self, alloc: Global) -> Result<Sequence<KSite>, AllocError>
        ensures { IfOk result (λ sites. sites ≡ map (spec.site_of self.now.flat.now self.now.grades.now self.now.tables.now (numbers_of self.now.keys.now self.now.wires.now)) self.now.flat.now.sites) }
    {
        let flat = self.flat;
        let of_flat = flat.sites.as_slice();
        let mut sites = Vec::new(alloc);
        for i in 0..of_flat.len() {
            sites.push(self.site_of(&of_flat[i]))?;
        }
        Ok(Sequence::from_vec(sites))
    }

    #[tactic(auto, using(crate::proofs::KeyLists::made_more, crate::proofs::KeyLists::append_none))]
    fn inputs(&self, alloc: Global, names: &Names) -> Result<Sequence<Input>, AllocError>
        ensures { IfOk result (λ ins. ins ≡ map (λ p. spec.input_of self.now.flat.now self.now.grades.now self.now.tables.now (numbers_of self.now.keys.now self.now.wires.now) names.now (slice_get self.now.flat.now.places p)) self.now.flat.now.ins) }
    {
        let flat = self.flat;
        let places = flat.ins.as_slice();
        let mut ins = Vec::new(alloc);
        for i in 0..places.len() {
            ins.push(self.input_of(alloc, names, places[i])?)?;
        }
        Ok(Sequence::from_vec(ins))
    }

    #[tactic(auto, using(crate::proofs::KeyLists::made_more, crate::proofs::KeyLists::append_none))]
    fn outputs(&self, alloc: Global, names: &Names) -> Result<Sequence<Output>, AllocError>
        ensures { IfOk result (λ outs. outs ≡ map (spec.output_of self.now.flat.now self.now.grades.now self.now.tables.now (numbers_of self.now.keys.now self.now.wires.now) names.now) self.now.flat.now.outs) }
    {
        let flat = self.flat;
        let places = flat.outs.as_slice();
        let mut outs = Vec::new(alloc);
        for i in 0..places.len() {
            outs.push(self.output_of(alloc, names, places[i])?)?;
        }
        Ok(Sequence::from_vec(outs))
    }

    /// The kernel of the form, where these are the lists of its wires and memories.
    pub(crate) fn kernel(
        &self,
        alloc: Global,
        names: &Names,
        keys: &[Key],
        kept: &[Kept],
    ) -> Result<Kernel, AllocError>
        requires keys { keys.now ≡ keys_of self.now.flat.now self.now.grades.now self.now.tables.now }
        requires kept { kept.now ≡ memories_of self.now.flat.now self.now.grades.now self.now.tables.now }
        requires whole { IsWellFormed (spec.kernel_of self.now.flat.now self.now.grades.now self.now.tables.now (numbers_of self.now.keys.now self.now.wires.now) names.now) }
        ensures { IfOk result (λ kernel. kernel ≡ spec.kernel_of self.now.flat.now self.now.grades.now self.now.tables.now (numbers_of self.now.keys.now self.now.wires.now) names.now) }
    {
        let flat = self.flat;
        let wires = self.wires(alloc, keys)?;
        let mems = self.memories(alloc, kept)?;
        let ins = self.inputs(alloc, names)?;
        let outs = self.outputs(alloc, names)?;
        let sites = self.sites(alloc)?;
        let again = self.any_again(flat.again.as_slice())?;
        Ok(Kernel {
            wires,
            mems,
            ins,
            outs,
            sites,
            again,
        })
    }
}
