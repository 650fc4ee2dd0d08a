//! The grade that the equation of an occurrence or of a place gives.
ghost use Rattle.std.specs.Prelude.{◌≡◌, max};
ghost use Rattle.zl_meaning.specs.Grades as spec;
ghost use Rattle.zl_grade.specs.Equations as equations;
ghost use Rattle.zl_grade.specs.declared.node.Node.TheVariants as node;
ghost use Rattle.zl_grade.specs.Graded.{grading_of};

use crate::node::Node;
use zl_meaning::{Definer, Flat, Form, Grades};
use zl_value::Op;

fn greater(a: u8, b: u8) -> u8
    ensures { result ≡ max a b }
{
    if a > b { a } else { b }
}

pub(crate) fn occ_grade(grades: &Grades, k: usize) -> u8
    ensures { result ≡ spec.grade_of (grading_of grades.now) k }
{
    match grades.occs.get(k) {
        Some(grade) => *grade,
        None => 3,
    }
}

fn place_grade(grades: &Grades, p: usize) -> u8
    ensures { result ≡ spec.place_grade (grading_of grades.now) p }
{
    match grades.places.get(p) {
        Some(grade) => *grade,
        None => 0,
    }
}

/// The grade of a node.
pub(crate) fn grade_at(grades: &Grades, node: Node) -> u8
    ensures { result ≡ equations.grade_at (grading_of grades.now) node }
{
    match node {
        Node::Occ(k) => occ_grade(grades, k),
        Node::Place(p) => place_grade(grades, p),
    }
}

fn product(a: u8, b: u8) -> u8
    ensures { result ≡ spec.product_grade a b }
{
    if a == 0 {
        b
    } else if b == 0 {
        a
    } else {
        2
    }
}

fn quotient(a: u8, b: u8) -> u8
    ensures { result ≡ spec.quotient_grade a b }
{
    if b == 0 { a } else { 2 }
}

fn op_grade(grades: &Grades, op: Op, parts: &[u32]) -> u8
    ensures { result ≡ spec.op_grade (grading_of grades.now) op parts.now }
{
    match (op, parts) {
        (Op::AddFloat | Op::SubFloat, [a, b]) => greater(
            occ_grade(grades, *a as usize),
            occ_grade(grades, *b as usize),
        ),
        (Op::MulFloat, [a, b]) => product(
            occ_grade(grades, *a as usize),
            occ_grade(grades, *b as usize),
        ),
        (Op::DivFloat, [a, b]) => quotient(
            occ_grade(grades, *a as usize),
            occ_grade(grades, *b as usize),
        ),
        (Op::NegFloat, [a]) => occ_grade(grades, *a as usize),
        _ => 0,
    }
}

fn form_grade(grades: &Grades, form: &Form) -> u8
    ensures { result ≡ spec.form_grade (grading_of grades.now) form.now }
{
    match form {
        Form::Read(p) => place_grade(grades, *p as usize),
        Form::Result(x) => occ_grade(grades, *x as usize),
        Form::Op(op, parts) => op_grade(grades, *op, parts.as_slice()),
        Form::If(_, x, y) => greater(
            occ_grade(grades, *x as usize),
            occ_grade(grades, *y as usize),
        ),
        Form::Arrow(_, y) => occ_grade(grades, *y as usize),
        _ => 0,
    }
}

/// What a plain definer adds to the grade of its place: its own grade, if it is graded.
fn if_graded(grade: u8) -> u8
    ensures { result ≡ spec.if_graded grade }
{
    if grade <= 2 { grade } else { 0 }
}

fn definer_grade(grades: &Grades, definer: &Definer) -> u8
    ensures { result ≡ spec.definer_grade (grading_of grades.now) definer.now }
{
    match definer {
        Definer::Plain { block: _, occ } => if_graded(occ_grade(grades, *occ as usize)),
        Definer::Der { .. } => 1,
        _ => 0,
    }
}

fn greatest_grade(grades: &Grades, definers: &[Definer]) -> u8
    ensures { result ≡ spec.greatest_grade (grading_of grades.now) definers.now }
{
    let mut greatest = 0;
    for definer in definers {
        greatest = greater(greatest, definer_grade(grades, definer));
    }
    greatest
}

/// The grade of an occurrence that is marked by the equation of its form. One that isn't marked isn't graded.
fn given_occ(flat: &Flat, marks: &[bool], grades: &Grades, k: usize) -> u8
    ensures { result ≡ equations.given flat.now marks.now (grading_of grades.now) (node.Occ k) }
{
    match marks.get(k) {
        Some(true) => match flat.occs.as_slice().get(k) {
            Some(occ) => form_grade(grades, &occ.form),
            None => 0,
        },
        _ => 3,
    }
}

fn given_place(flat: &Flat, marks: &[bool], grades: &Grades, p: usize) -> u8
    ensures { result ≡ equations.given flat.now marks.now (grading_of grades.now) (node.Place p) }
{
    match flat.places.as_slice().get(p) {
        Some(place) => greatest_grade(grades, place.definers.as_slice()),
        None => 0,
    }
}

/// The grade that its equation gives a node.
pub(crate) fn given(flat: &Flat, marks: &[bool], grades: &Grades, node: Node) -> u8
    ensures { result ≡ equations.given flat.now marks.now (grading_of grades.now) node }
{
    match node {
        Node::Occ(k) => given_occ(flat, marks, grades, k),
        Node::Place(p) => given_place(flat, marks, grades, p),
    }
}

/// Whether a node may have to rise where one that it reads rises to this grade.
pub(crate) fn may_rise(grades: &Grades, node: Node, grade: u8) -> bool
    ensures { result ≡ equations.may_rise (grading_of grades.now) node grade }
{
    match node {
        Node::Occ(_) => true,
        Node::Place(p) => place_grade(grades, p) < grade,
    }
}
