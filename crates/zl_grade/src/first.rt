//! The first occurrence that has a greater grade than is needed of it.
ghost use Rattle.std.specs.Prelude.{◌≡◌, ◌↔◌, ◌++◌, ◌∷◌, [], List, true};
ghost use Rattle.zl_grade.specs.Graded.{grading_of};
ghost use Rattle.zl_grade.specs.Needs.{least, IsOver, IsFirst};
ghost use Rattle.zl_grade.specs.declared.needs.Need.{Need as One};

use crate::equations::occ_grade;
use crate::needs::Need;
use zl_meaning::Grades;

fn is_over(grades: &Grades, need: Need) -> bool
    ensures { (result ≡ true) ↔ IsOver (grading_of grades.now) need }
{
    occ_grade(grades, need.occ as usize) > need.limit
}

/// The lesser of this number and one that was found before.
fn lesser(found: Option<u32>, number: u32) -> u32
    ensures { result ≡ least found number }
{
    match found {
        Some(before) if before < number => before,
        _ => number,
    }
}

/// The first of the occurrences so far that have a greater grade than is needed of them, with one more.
#[tactic(auto, using(crate::proofs::FirstLaws::first_with, crate::proofs::FirstLaws::first_without))]
fn with_one(grades: &Grades, first: Option<u32>, need: Need) -> Option<u32>
    ensures { (done : List One) → IsFirst (grading_of grades.now) done first → IsFirst (grading_of grades.now) (done ++ need ∷ []) result }
{
    if is_over(grades, need) {
        Some(lesser(first, need.occ))
    } else {
        first
    }
}

/// The first occurrence that has a greater grade than is needed of it.
pub(crate) fn first_over(grades: &Grades, needs: &[Need]) -> Option<u32>
    ensures { IsFirst (grading_of grades.now) needs.now result }
{
    let mut first = None;
    for need in needs {
        first = with_one(grades, first, *need);
    }
    first
}
