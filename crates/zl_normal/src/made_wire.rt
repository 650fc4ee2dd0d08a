// The wire that stands for a key.
ghost use Rattle.std.specs.Prelude.{◌≡◌, ◌∷◌, [], ◌+◌, length, map, drop, get_or, slice_get, IfOk};
ghost use Rattle.zl_meaning.specs.FlatForm.{place_call};
ghost use Rattle.zl_normal.specs.KernelOf as spec;
ghost use Rattle.zl_normal.specs.NumberTables.{numbers_of, wiring_of};
ghost use Rattle.zl_normal.specs.Wiring.{call_guard};
ghost use Rattle.zl_normal.specs.declared.key.Key.TheVariants as key;

use crate::key::{Kept, Key};
use crate::numbers::{KeyTables, WireTables, number_at};
use crate::role::Role;
use crate::tables::{Tables, has_own_slope, is_still};
use std::alloc::{AllocError, Global};
use zl_kernel::{Def, Wire};
use zl_meaning::{Flat, Form, Occ, narrow};
use zl_value::{Op, Pos, Sequence, Ty, Value};

/// A form with its grades, what is known of it, and the numbers of its wires and memories.
#[derive(Drop)]
pub(crate) struct Making<'a> {
    pub(crate) flat: &'a Flat,
    pub(crate) grades: &'a [u8],
    pub(crate) tables: &'a Tables,
    pub(crate) keys: &'a KeyTables,
    pub(crate) wires: &'a WireTables,
}

/// A position of nothing in the text.
pub(crate) fn nowhere() -> Pos
    ensures { result ≡ spec.nowhere }
{
    Pos { line: 0, column: 0 }
}

pub(crate) fn plain(ty: Ty, def: Def, guard: Option<u32>) -> Wire
    ensures { result ≡ spec.plain ty def guard }
{
    Wire {
        ty,
        def,
        guard,
        slope: None,
        ord: 0,
        at: nowhere(),
    }
}

pub(crate) fn blank() -> Wire
    ensures { result ≡ spec.blank }
{
    plain(Ty::Bool, Def::Lit(Value::B(false)), None)
}

pub(crate) fn one(alloc: Global, a: u32) -> Result<Sequence<u32>, AllocError>
    ensures { IfOk result (λ items. items ≡ a ∷ []) }
{
    Ok(Sequence::from_vec(Vec::from_slice(alloc, &[a])?))
}

pub(crate) fn two(alloc: Global, a: u32, b: u32) -> Result<Sequence<u32>, AllocError>
    ensures { IfOk result (λ items. items ≡ a ∷ b ∷ []) }
{
    Ok(Sequence::from_vec(Vec::from_slice(alloc, &[a, b])?))
}

/// The numbers that a table has for these.
#[tactic(auto, using(crate::proofs::KeyLists::map_more))]
fn looked_up(alloc: Global, numbers: &[u32], parts: &[u32]) -> Result<Sequence<u32>, AllocError>
    ensures { IfOk result (λ items. items ≡ map (λ j. get_or numbers.now j 0) parts.now) }
{
    let mut items = Vec::new(alloc);
    for i in 0..parts.len() {
        items.push(number_at(numbers, parts[i]))?;
    }
    Ok(Sequence::from_vec(items))
}

/// What stands in a list from this place on.
#[tactic(auto, using(std::proofs::lemmas::List::drop_all))]
pub(crate) fn tail<'a, T>(items: &'a [T], i: u32) -> &'a [T]
    ensures { result.now ≡ drop i items.now }
{
    if (i as usize) < items.len() {
        items.split_at(i as usize).1
    } else {
        &[]
    }
}

/// The first of these parts, or one of the others, which wire `rest` joins.
fn joined(alloc: Global, values: &[u32], rest: u32, parts: &[u32]) -> Result<Wire, AllocError>
    ensures { IfOk result (λ wire. wire ≡ spec.joined (λ j. get_or values.now j 0) rest parts.now) }
{
    match parts {
        [u, v] => {
            let both = two(alloc, number_at(values, *u), number_at(values, *v))?;
            Ok(plain(Ty::Bool, Def::Op(Op::Or, both), None))
        }
        [u, _, _, ..] => {
            let both = two(alloc, number_at(values, *u), rest)?;
            Ok(plain(Ty::Bool, Def::Op(Op::Or, both), None))
        }
        _ => Ok(blank()),
    }
}

impl Making<'_> {
    /// The guard of what stands in the copy of a call.
    pub(crate) fn call_guard(&self, call: Option<u32>) -> Option<u32>
        ensures { result ≡ call_guard (wiring_of self.now.keys.now self.now.wires.now) call }
    {
        match call {
            Some(call) => self.wires.guard(call),
            None => None,
        }
    }

    /// The guard of what stands in the copy of a place's call.
    fn place_guard(&self, p: u32) -> Option<u32>
        ensures { result ≡ call_guard (wiring_of self.now.keys.now self.now.wires.now) (place_call self.now.flat.now p) }
    {
        let flat = self.flat;
        match flat.places.as_slice().get(p as usize) {
            Some(place) => self.call_guard(place.call),
            None => None,
        }
    }

    fn own_slope(&self, j: u32, occ: &Occ) -> Result<Option<u32>, AllocError>
        ensures { IfOk result (λ slope. slope ≡ spec.own_slope self.now.flat.now self.now.grades.now self.now.tables.now (numbers_of self.now.keys.now self.now.wires.now) j occ.now) }
    {
        if has_own_slope(self.flat, self.grades, j, occ) {
            Ok(Some(self.keys.wire(Key::Slope(j))?))
        } else {
            Ok(None)
        }
    }

    /// A wire with this definition for the value of an occurrence.
    fn solved(&self, j: u32, occ: &Occ, def: Def) -> Result<Wire, AllocError>
        ensures { IfOk result (λ wire. wire ≡ spec.solved self.now.flat.now self.now.grades.now self.now.tables.now (numbers_of self.now.keys.now self.now.wires.now) j occ.now def) }
    {
        let slope = self.own_slope(j, occ)?;
        let guard = self.wires.guard(j);
        Ok(Wire {
            ty: occ.ty,
            def,
            guard,
            slope,
            ord: j,
            at: occ.at,
        })
    }

    fn value_wire(&self, alloc: Global, j: u32, occ: &Occ) -> Result<Wire, AllocError>
        ensures { IfOk result (λ wire. wire ≡ spec.value_wire self.now.flat.now self.now.grades.now self.now.tables.now (numbers_of self.now.keys.now self.now.wires.now) j occ.now occ.now.form) }
    {
        let wires = self.wires;
        match &occ.form {
            Form::Lit(value) => Ok(plain(occ.ty, Def::Lit(*value), None)),
            Form::Op(op, parts) => {
                let parts = looked_up(alloc, wires.values.as_slice(), parts.as_slice())?;
                self.solved(j, occ, Def::Op(*op, parts))
            }
            Form::If(c, x, y) => {
                let def = Def::If(wires.value(*c), wires.value(*x), wires.value(*y));
                self.solved(j, occ, def)
            }
            Form::Arrow(x, y) => {
                self.solved(j, occ, Def::If(1, wires.value(*x), wires.value(*y)))
            }
            Form::Pre(_) => {
                let memory = self.keys.memory(Kept::Pre(j));
                Ok(plain(occ.ty, Def::Mem(memory), None))
            }
            Form::Up(site) => Ok(plain(Ty::Bool, Def::Event(*site), None)),
            _ => Ok(blank()),
        }
    }

    /// The slope of an operator.
    fn slope_def(&self, alloc: Global, op: Op, parts: &[u32]) -> Result<Def, AllocError>
        ensures { IfOk result (λ def. def ≡ spec.slope_def self.now.flat.now self.now.grades.now self.now.tables.now (numbers_of self.now.keys.now self.now.wires.now) op parts.now) }
    {
        let (wires, grades) = (self.wires, self.grades);
        match (op, parts) {
            (Op::SubFloat, [a, b]) => {
                if is_still(grades, *a) {
                    Ok(Def::Op(Op::NegFloat, one(alloc, wires.slope(*b))?))
                } else {
                    Ok(Def::Op(Op::SubFloat, two(alloc, wires.slope(*a), wires.slope(*b))?))
                }
            }
            (Op::MulFloat, [a, b]) => {
                if is_still(grades, *a) {
                    Ok(Def::Op(Op::MulFloat, two(alloc, wires.value(*a), wires.slope(*b))?))
                } else {
                    Ok(Def::Op(Op::MulFloat, two(alloc, wires.slope(*a), wires.value(*b))?))
                }
            }
            (Op::DivFloat, [a, b]) => {
                Ok(Def::Op(Op::DivFloat, two(alloc, wires.slope(*a), wires.value(*b))?))
            }
            _ => Ok(Def::Op(op, looked_up(alloc, wires.slopes.as_slice(), parts)?)),
        }
    }

    /// The place of the fault of an occurrence's slope in the order of faults.
    fn behind_values(&self, j: u32) -> Result<u32, AllocError>
        ensures { IfOk result (λ n. n ≡ length self.now.flat.now.occs + j) }
    {
        let flat = self.flat;
        let values = narrow(flat.occs.len() as u64)?;
        narrow(values as u64 + j as u64)
    }

    fn slope_wire(&self, alloc: Global, j: u32, occ: &Occ) -> Result<Wire, AllocError>
        ensures { IfOk result (λ wire. wire ≡ spec.slope_wire self.now.flat.now self.now.grades.now self.now.tables.now (numbers_of self.now.keys.now self.now.wires.now) j occ.now occ.now.form) }
    {
        let wires = self.wires;
        match &occ.form {
            Form::Op(op, parts) => {
                let def = self.slope_def(alloc, *op, parts.as_slice())?;
                let guard = Some(self.keys.wire(Key::Present(j))?);
                let ord = self.behind_values(j)?;
                Ok(Wire {
                    ty: Ty::Float,
                    def,
                    guard,
                    slope: None,
                    ord,
                    at: occ.at,
                })
            }
            Form::If(c, x, y) => {
                let def = Def::If(wires.value(*c), wires.slope(*x), wires.slope(*y));
                Ok(plain(Ty::Float, def, None))
            }
            _ => Ok(blank()),
        }
    }

    fn rest_wire(&self, alloc: Global, j: u32, i: u32, occ: &Occ) -> Result<Wire, AllocError>
        ensures { IfOk result (λ wire. wire ≡ spec.rest_wire self.now.flat.now self.now.grades.now self.now.tables.now (numbers_of self.now.keys.now self.now.wires.now) j i occ.now.form) }
    {
        let wires = self.wires;
        match &occ.form {
            Form::Fired(parts) => {
                let rest = self.keys.wire(Key::Rest(j, narrow(1 + i as u64)?))?;
                joined(
                    alloc,
                    wires.values.as_slice(),
                    rest,
                    tail(parts.as_slice(), i),
                )
            }
            _ => Ok(blank()),
        }
    }

    fn next_wire(&self, occ: &Occ) -> Wire
        ensures { result ≡ spec.next_wire self.now.flat.now self.now.grades.now self.now.tables.now (numbers_of self.now.keys.now self.now.wires.now) occ.now.form occ.now.ty }
    {
        let wires = self.wires;
        match &occ.form {
            Form::Pre(x) => plain(occ.ty, Def::Copy(wires.value(*x)), wires.guard(*x)),
            _ => blank(),
        }
    }

    /// That the test of an `if` whose branches are one occurrence is false.
    pub(crate) fn other_wire(&self, alloc: Global, role: Option<Role>) -> Result<Wire, AllocError>
        ensures { IfOk result (λ wire. wire ≡ spec.other_wire self.now.flat.now self.now.grades.now self.now.tables.now (numbers_of self.now.keys.now self.now.wires.now) role) }
    {
        let wires = self.wires;
        match role {
            Some(Role::Both { whole, condition }) => {
                let def = Def::Op(Op::Not, one(alloc, wires.value(condition))?);
                Ok(plain(Ty::Bool, def, wires.guard(whole)))
            }
            _ => Ok(blank()),
        }
    }

    /// The guard of an occurrence that is used so.
    pub(crate) fn guard_wire(
        &self,
        alloc: Global,
        j: u32,
        role: Option<Role>,
    ) -> Result<Wire, AllocError>
        ensures { IfOk result (λ wire. wire ≡ spec.guard_wire self.now.flat.now self.now.grades.now self.now.tables.now (numbers_of self.now.keys.now self.now.wires.now) j role) }
    {
        let wires = self.wires;
        match role {
            Some(
                Role::Branch {
                    whole,
                    condition,
                    side,
                },
            ) => {
                let test = wires.value(condition);
                let def = if side {
                    Def::Copy(test)
                } else {
                    Def::Op(Op::Not, one(alloc, test)?)
                };
                Ok(plain(Ty::Bool, def, wires.guard(whole)))
            }
            Some(Role::Both { whole, condition }) => {
                let other = self.keys.wire(Key::Other(j))?;
                let def = Def::Op(Op::Or, two(alloc, wires.value(condition), other)?);
                Ok(plain(Ty::Bool, def, wires.guard(whole)))
            }
            Some(Role::Start(p)) => Ok(plain(Ty::Bool, Def::Copy(1), self.place_guard(p))),
            Some(Role::Reset { place, arm }) => {
                let taken = self.keys.wire(Key::Taken(place, arm))?;
                Ok(plain(Ty::Bool, Def::Copy(taken), self.place_guard(place)))
            }
            _ => Ok(blank()),
        }
    }

    pub(crate) fn occ_value(&self, alloc: Global, j: u32) -> Result<Wire, AllocError>
        ensures { IfOk result (λ wire. wire ≡ spec.wire_of self.now.flat.now self.now.grades.now self.now.tables.now (numbers_of self.now.keys.now self.now.wires.now) (key.Value j)) }
    {
        let flat = self.flat;
        match flat.occs.as_slice().get(j as usize) {
            Some(occ) => self.value_wire(alloc, j, occ),
            None => Ok(blank()),
        }
    }

    pub(crate) fn occ_rest(&self, alloc: Global, j: u32, i: u32) -> Result<Wire, AllocError>
        ensures { IfOk result (λ wire. wire ≡ spec.wire_of self.now.flat.now self.now.grades.now self.now.tables.now (numbers_of self.now.keys.now self.now.wires.now) (key.Rest j i)) }
    {
        let flat = self.flat;
        match flat.occs.as_slice().get(j as usize) {
            Some(occ) => self.rest_wire(alloc, j, i, occ),
            None => Ok(blank()),
        }
    }

    pub(crate) fn occ_next(&self, j: u32) -> Wire
        ensures { result ≡ spec.wire_of self.now.flat.now self.now.grades.now self.now.tables.now (numbers_of self.now.keys.now self.now.wires.now) (key.Next j) }
    {
        let flat = self.flat;
        match flat.occs.as_slice().get(j as usize) {
            Some(occ) => self.next_wire(occ),
            None => blank(),
        }
    }

    pub(crate) fn occ_slope(&self, alloc: Global, j: u32) -> Result<Wire, AllocError>
        ensures { IfOk result (λ wire. wire ≡ spec.wire_of self.now.flat.now self.now.grades.now self.now.tables.now (numbers_of self.now.keys.now self.now.wires.now) (key.Slope j)) }
    {
        let flat = self.flat;
        match flat.occs.as_slice().get(j as usize) {
            Some(occ) => self.slope_wire(alloc, j, occ),
            None => Ok(blank()),
        }
    }

    pub(crate) fn again_wire(&self, alloc: Global, i: u32) -> Result<Wire, AllocError>
        ensures { IfOk result (λ wire. wire ≡ spec.wire_of self.now.flat.now self.now.grades.now self.now.tables.now (numbers_of self.now.keys.now self.now.wires.now) (key.Again i)) }
    {
        let (flat, wires) = (self.flat, self.wires);
        let rest = self.keys.wire(Key::Again(narrow(1 + i as u64)?))?;
        joined(
            alloc,
            wires.values.as_slice(),
            rest,
            tail(flat.again.as_slice(), i),
        )
    }
}
