// What is known of a form before its wires are made.
ghost use Rattle.std.specs.Prelude.{◌≡◌, ◌<◌, false, get_or, length, slice_get, Some, None, IfSome};
ghost use Rattle.zl_meaning.specs.declared.place.Definer.{Definer as TheDefiner};
ghost use Rattle.zl_normal.specs.Tables as spec;
ghost use Rattle.zl_normal.specs.PlaceWires as places;

use crate::role::Role;
use std::marker::Model;
use zl_meaning::{Definer, Flat, Form, Occ, PlaceInfo};
use zl_value::{Op, Ty};

/// By occurrence: how it is used, the first literal that is equal to it, whether it is always evaluated. By place: whether
/// something asks for its `last`.
#[derive(Debug, Drop)]
pub(crate) struct Tables {
    pub(crate) roles: Vec<Role>,
    pub(crate) firsts: Vec<u32>,
    pub(crate) free: Vec<bool>,
    pub(crate) lasts: Vec<bool>,
}

impl Model for Tables {
    ghost use Rattle.zl_normal.specs.Tables.{Tables as TablesOf};

    ghost Value = { TablesOf };

    ghost view = { λ t. record {
      roles = t.roles.items;
      firsts = t.firsts.items;
      free = t.free.items;
      lasts = t.lasts.items;
    } };
}

/// The number in this place of a list, else `other`.
fn number_or(numbers: &[u32], n: u32, other: u32) -> u32
    ensures { result ≡ get_or numbers.now n other }
{
    match numbers.get(n as usize) {
        Some(number) => *number,
        None => other,
    }
}

fn is_marked(marks: &[bool], n: u32) -> bool
    ensures { result ≡ get_or marks.now n false }
{
    match marks.get(n as usize) {
        Some(mark) => *mark,
        None => false,
    }
}

fn is_solved_form(form: &Form) -> bool
    ensures { result ≡ spec.is_solved_form form.now }
{
    match form {
        Form::Op(_, _) | Form::If(_, _, _) | Form::Arrow(_, _) => true,
        _ => false,
    }
}

fn is_solved(flat: &Flat, j: u32) -> bool
    ensures { result ≡ spec.is_solved flat.now j }
{
    match flat.occs.as_slice().get(j as usize) {
        Some(occ) => is_solved_form(&occ.form),
        None => false,
    }
}

fn is_literal_form(form: &Form) -> bool
    ensures { result ≡ spec.is_literal_form form.now }
{
    match form {
        Form::Lit(_) => true,
        _ => false,
    }
}

/// Whether an occurrence is a literal.
pub(crate) fn is_literal(flat: &Flat, j: u32) -> bool
    ensures { result ≡ spec.is_literal flat.now j }
{
    match flat.occs.as_slice().get(j as usize) {
        Some(occ) => is_literal_form(&occ.form),
        None => false,
    }
}

/// Whether `last` of a place begins with an `init` value that is computed.
pub(crate) fn is_computed(flat: &Flat, start: Option<u32>) -> bool
    ensures { result ≡ spec.is_computed flat.now start }
{
    match start {
        Some(j) => !is_literal(flat, j),
        None => false,
    }
}

/// The place in the list of the first definer beside `init`.
pub(crate) fn definer_at(definers: &[Definer]) -> Option<usize>
    ensures none { result ≡ None → places.definer_of definers.now ≡ None }
    ensures some { IfSome result (λ i. (definer : TheDefiner) → definer ≡ get_or definers.now i definer → places.definer_of definers.now ≡ Some definer) }
    ensures within { IfSome result (λ i. i < length definers.now) }
{
    for i in 0..definers.len() {
        match &definers[i] {
            Definer::Start { block: _, occ: _ } => {}
            Definer::Input(_) => return Some(i),
            Definer::Plain { block: _, occ: _ } => return Some(i),
            Definer::Der {
                block: _,
                slope: _,
                resets: _,
            } => return Some(i),
        }
    }
    None
}

/// The occurrence of the first `init`.
pub(crate) fn start_of(definers: &[Definer]) -> Option<u32>
    ensures { result ≡ places.start_of definers.now }
{
    for i in 0..definers.len() {
        match &definers[i] {
            Definer::Start { block: _, occ } => return Some(*occ),
            _ => {}
        }
    }
    None
}

fn asks_itself(definers: &[Definer]) -> bool
    ensures { result ≡ spec.asks_itself (places.definer_of definers.now) }
{
    match definer_at(definers) {
        None => true,
        Some(i) => match &definers[i] {
            Definer::Der {
                block: _,
                slope: _,
                resets: _,
            } => true,
            _ => false,
        },
    }
}

fn is_float(ty: Ty) -> bool
    ensures { result ≡ spec.is_float ty }
{
    match ty {
        Ty::Float => true,
        _ => false,
    }
}

fn grade(grades: &[u8], j: u32) -> u8
    ensures { result ≡ get_or grades.now j 3 }
{
    match grades.get(j as usize) {
        Some(grade) => *grade,
        None => 3,
    }
}

/// Whether an occurrence stands still by its grade.
pub(crate) fn is_still(grades: &[u8], j: u32) -> bool
    ensures { result ≡ spec.is_still grades.now j }
{
    grade(grades, j) == 0
}

fn is_graded(grades: &[u8], j: u32) -> bool
    ensures { result ≡ spec.is_graded grades.now j }
{
    grade(grades, j) <= 1 || grades.len() <= j as usize
}

/// Whether an occurrence is a number that may move.
pub(crate) fn moves(grades: &[u8], j: u32, occ: &Occ) -> bool
    ensures { result ≡ spec.moves grades.now j occ.now }
{
    is_float(occ.ty) && is_graded(grades, j) && !is_still(grades, j)
}

fn is_blank_place(flat: &Flat, p: u32) -> bool
    ensures { result ≡ spec.is_blank_place (slice_get flat.now.places p) }
{
    match flat.places.as_slice().get(p as usize) {
        Some(place) => place.definers.as_slice().is_empty(),
        None => false,
    }
}

fn is_blank_form(flat: &Flat, form: &Form) -> bool
    ensures { result ≡ spec.is_blank_form flat.now form.now }
{
    match form {
        Form::Read(p) => is_blank_place(flat, *p),
        _ => false,
    }
}

/// Whether an occurrence is a name of a place without definer.
pub(crate) fn is_blank(flat: &Flat, j: u32) -> bool
    ensures { result ≡ spec.is_blank_occ flat.now (slice_get flat.now.occs j) }
{
    match flat.occs.as_slice().get(j as usize) {
        Some(occ) => is_blank_form(flat, &occ.form),
        None => false,
    }
}

/// Whether the slope of an operator is made.
pub(crate) fn has_made_slope(grades: &[u8], op: Op, parts: &[u32]) -> bool
    ensures { result ≡ spec.has_made_slope grades.now op parts.now }
{
    match (op, parts) {
        (Op::AddFloat, [a, b]) => !is_still(grades, *a) && !is_still(grades, *b),
        (Op::SubFloat, [_, b]) => !is_still(grades, *b),
        (Op::MulFloat | Op::DivFloat, [_, _]) => true,
        (Op::NegFloat, [_]) => true,
        _ => false,
    }
}

fn has_form_slope(flat: &Flat, grades: &[u8], form: &Form) -> bool
    ensures { result ≡ spec.has_form_slope flat.now grades.now form.now }
{
    match form {
        Form::Op(op, parts) => has_made_slope(grades, *op, parts.as_slice()),
        Form::If(_, _, y) => !is_blank(flat, *y),
        _ => false,
    }
}

/// Whether an occurrence has a slope with a wire of its own.
pub(crate) fn has_own_slope(flat: &Flat, grades: &[u8], j: u32, occ: &Occ) -> bool
    ensures { result ≡ spec.has_own_slope flat.now grades.now j occ.now }
{
    moves(grades, j, occ) && has_form_slope(flat, grades, &occ.form)
}

impl Tables {
    /// How an occurrence is used.
    pub(crate) fn role(&self, j: u32) -> Option<Role>
        ensures { result ≡ slice_get self.now.roles j }
    {
        match self.roles.get(j as usize) {
            Some(role) => Some(*role),
            None => None,
        }
    }

    /// Whether an occurrence is always evaluated.
    pub(crate) fn is_always(&self, j: u32) -> bool
        ensures { result ≡ get_or self.now.free j false }
    {
        is_marked(self.free.as_slice(), j)
    }

    /// The first literal that is equal to this one.
    pub(crate) fn first(&self, j: u32) -> u32
        ensures { result ≡ get_or self.now.firsts j 0 }
    {
        number_or(self.firsts.as_slice(), j, 0)
    }

    /// Whether what an occurrence has needs no further guard.
    pub(crate) fn is_guarded(&self, flat: &Flat, j: u32) -> bool
        ensures { result ≡ spec.is_guarded flat.now self.now j }
    {
        self.is_always(j) || is_solved(flat, j)
    }

    /// Whether what stands in the copy of a call is always evaluated.
    pub(crate) fn is_free(&self, call: Option<u32>) -> bool
        ensures { result ≡ spec.is_free self.now call }
    {
        match call {
            Some(call) => self.is_always(call),
            None => true,
        }
    }

    /// Whether `last` of a place has a wire.
    pub(crate) fn has_last(&self, p: u32, place: &PlaceInfo) -> bool
        ensures { result ≡ spec.has_last self.now p place.now }
    {
        is_marked(self.lasts.as_slice(), p) || asks_itself(place.definers.as_slice())
    }
}
