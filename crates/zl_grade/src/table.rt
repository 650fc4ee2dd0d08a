//! The table of grades: all begin at the least, and rise until each is the one that its equation gives.
ghost use Rattle.std.specs.Prelude.{◌≡◌, ℕ, [], get_or, length, map, IfOk, OnOk};
ghost use Rattle.zl_meaning.specs.Grades.{AreGrades};
ghost use Rattle.zl_grade.specs.Equations.{IsInside, with_grade};
ghost use Rattle.zl_grade.specs.Chains.{HasChains};
ghost use Rattle.zl_grade.specs.Graded.{grading_of};
ghost use Rattle.zl_grade.specs.Links as links;
ghost use Rattle.zl_grade.specs.Marks.{AreMarks};
ghost use Rattle.zl_grade.specs.Table.{first_grade, AreClosed, AreSettled, HasAll, HasNumbers, IsBelow, IsNext};
ghost use Rattle.zl_grade.specs.declared.node.Node.TheVariants as node;

use crate::equations::{given, grade_at};
use crate::links::links_of;
use crate::node::Node;
use crate::readers::Readers;
use std::alloc::{AllocError, Global};
use zl_meaning::{Flat, Grades};

/// A node whose grade rises to this one.
#[derive(Clone, Copy, Debug)]
pub(crate) struct Rise {
    node: Node,
    grade: u8,
}

/// The next node on the list that has to rise.
fn next_rise(flat: &Flat, marks: &[bool], grades: &Grades, waiting: &mut Vec<Node>) -> Option<Rise>
    requires settled { AreSettled flat.now marks.now (grading_of grades.now) waiting.old.items }
    ensures { IsNext flat.now marks.now (grading_of grades.now) waiting.new.items result }
{
    while let Some(node) = waiting.pop() {
        let grade = given(flat, marks, grades, node);
        if grade > grade_at(grades, node) {
            return Some(Rise { node, grade });
        }
    }
    None
}

fn put(grades: &mut Grades, rise: Rise)
    requires { IsInside (grading_of grades.old) rise.node }
    ensures { grading_of grades.new ≡ with_grade (grading_of grades.old) rise.node rise.grade }
{
    match rise.node {
        Node::Occ(k) => grades.occs[k] = rise.grade,
        Node::Place(p) => grades.places[p] = rise.grade,
    }
}

/// The least grades of the occurrences that are marked, and 3 for the others.
fn first_grades(alloc: Global, marks: &[bool]) -> Result<Vec<u8>, AllocError>
    ensures { IfOk result (λ grades. grades.items ≡ map first_grade marks.now) }
{
    let mut grades = Vec::new(alloc);
    for mark in marks {
        grades.push(if *mark { 0 } else { 3 })?;
    }
    Ok(grades)
}

/// Adds so many occurrences.
fn add_occs(waiting: &mut Vec<Node>, count: usize) -> Result<(), AllocError>
    ensures { OnOk result (HasNumbers node.Occ count waiting.old.items waiting.new.items) }
{
    for k in 0..count {
        waiting.push(Node::Occ(k))?;
    }
    Ok(())
}

/// Adds so many places.
fn add_places(waiting: &mut Vec<Node>, count: usize) -> Result<(), AllocError>
    ensures { OnOk result (HasNumbers node.Place count waiting.old.items waiting.new.items) }
{
    for p in 0..count {
        waiting.push(Node::Place(p))?;
    }
    Ok(())
}

fn all_nodes(alloc: Global, flat: &Flat) -> Result<Vec<Node>, AllocError>
    ensures { IfOk result (λ waiting. HasAll (length flat.now.occs) (length flat.now.places) waiting.items) }
{
    let mut waiting = Vec::new(alloc);
    add_occs(&mut waiting, flat.occs.len())?;
    add_places(&mut waiting, flat.places.len())?;
    Ok(waiting)
}

fn zeros(alloc: Global, count: usize) -> Result<Vec<u8>, AllocError>
    ensures count { IfOk result (λ grades. length grades.items ≡ count) }
    ensures zeros { IfOk result (λ grades. (p : ℕ) → get_or grades.items p 0 ≡ 0) }
{
    vec![in alloc; 0; count]
}

/// The least grades of a form, of which the occurrences are marked that are graded.
fn least_grades(alloc: Global, flat: &Flat, marks: &[bool]) -> Result<Grades, AllocError>
    requires marks { AreMarks flat.now marks.now }
    ensures { IfOk result (λ grades. IsBelow flat.now marks.now (grading_of grades)) }
{
    let occs = first_grades(alloc, marks)?;
    let places = zeros(alloc, flat.places.len())?;
    Ok(Grades { occs, places })
}

/// Lets nodes rise until none has to. Each rises twice at most.
fn settle(
    flat: &Flat,
    marks: &[bool],
    readers: &Readers,
    grades: &mut Grades,
    waiting: &mut Vec<Node>,
) -> Result<(), AllocError>
    requires closed { AreClosed flat.now marks.now }
    requires readers { HasChains (links.links_of flat.now) (length flat.now.occs) (length flat.now.places) readers.now }
    requires below { IsBelow flat.now marks.now (grading_of grades.old) }
    requires settled { AreSettled flat.now marks.now (grading_of grades.old) waiting.old.items }
    ensures below { OnOk result (IsBelow flat.now marks.now (grading_of grades.new)) }
    ensures settled { OnOk result (AreSettled flat.now marks.now (grading_of grades.new) []) }
{
    while let Some(rise) = next_rise(flat, marks, grades, waiting) {
        readers.add(grades, rise.node, rise.grade, waiting)?;
        put(grades, rise);
    }
    Ok(())
}

/// The table of grades of a form, of which the occurrences are marked that are graded.
pub(crate) fn table(alloc: Global, flat: &Flat, marks: &[bool]) -> Result<Grades, AllocError>
    requires marks { AreMarks flat.now marks.now }
    requires closed { AreClosed flat.now marks.now }
    ensures { IfOk result (λ grades. AreGrades flat.now (grading_of grades)) }
{
    let links = links_of(alloc, flat)?;
    let readers = Readers::new(alloc, links.as_slice(), flat.occs.len(), flat.places.len())?;
    let mut waiting = all_nodes(alloc, flat)?;
    let mut grades = least_grades(alloc, flat, marks)?;
    settle(flat, marks, &readers, &mut grades, &mut waiting)?;
    Ok(grades)
}
