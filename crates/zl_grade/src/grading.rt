//! Grades of the occurrences and places of a flat form.
ghost use Rattle.std.specs.Prelude.{◌≡◌, ◌<◌, true, length, slice_get, Some, IfOk, IfErr};
ghost use Rattle.zl_meaning.specs.Depends.{AreRanks};
ghost use Rattle.zl_meaning.specs.GradesLaw.{AreAllowed};
ghost use Rattle.zl_meaning.specs.Regular.{is_hybrid_block, IsRegular};
ghost use Rattle.zl_meaning.specs.Single.{IsSingle};
ghost use Rattle.zl_meaning.specs.declared.occurrence.Occ.{Occ as TheOcc};
ghost use Rattle.zl_grade.specs.Graded.{grading_of, KeepsIfDecided};
ghost use Rattle.zl_grade.specs.Marks.{AreMarks};
ghost use Rattle.zl_grade.specs.Outcome.{IsOutcome};
ghost use Rattle.zl_grade.specs.Refused.{IsRefused};

use crate::first::first_over;
use crate::graded::graded;
use crate::needs::needs_of;
use crate::table::table;
use std::alloc::{AllocError, Global};
use zl_meaning::laws::is_well_formed;
use zl_meaning::{Flat, Grades, Ranks};
use zl_value::{Pos, Refusal, Rule};

/// The grades of a form, or the position of the first occurrence that has a greater one than is needed of it.
#[derive(Drop)]
enum Outcome {
    Allowed(Grades),
    Over(Pos),
}

fn position(flat: &Flat, k: u32) -> Pos
    requires { k < length flat.now.occs }
    ensures { (occ : TheOcc) → slice_get flat.now.occs k ≡ Some occ → occ.at ≡ result }
{
    flat.occs.as_slice()[k as usize].at
}

/// What is found of a form, of which the occurrences are marked that are graded.
fn outcome_by(
    alloc: Global,
    flat: &Flat,
    ranks: &Ranks,
    marks: &[bool],
) -> Result<Outcome, AllocError>
    requires single { IsSingle flat.now }
    requires regular { IsRegular flat.now }
    requires hybrid { is_hybrid_block flat.now 0 ≡ true }
    requires ranks { AreRanks flat.now ranks.now.places.items ranks.now.blocks.items }
    requires marks { AreMarks flat.now marks.now }
    ensures { IfOk result (IsOutcome flat.now) }
{
    let _ = &ranks.places;
    is_well_formed(flat);
    let grades = table(alloc, flat, marks)?;
    let needs = needs_of(alloc, flat, marks)?;
    match first_over(&grades, needs.as_slice()) {
        None => Ok(Outcome::Allowed(grades)),
        Some(k) => Ok(Outcome::Over(position(flat, k))),
    }
}

fn try_grades(alloc: Global, flat: &Flat, ranks: &Ranks) -> Result<Outcome, AllocError>
    requires single { IsSingle flat.now }
    requires regular { IsRegular flat.now }
    requires hybrid { is_hybrid_block flat.now 0 ≡ true }
    requires ranks { AreRanks flat.now ranks.now.places.items ranks.now.blocks.items }
    ensures { IfOk result (IsOutcome flat.now) }
{
    let marks = graded(alloc, flat)?;
    outcome_by(alloc, flat, ranks, marks.as_slice())
}

/// The grades of a form's occurrences and places: where there are some, the form keeps them, if in its runs each test and each
/// derivative that is evaluated has a value. `Broken` with `Grade` where an occurrence has a greater grade than is needed of it, at
/// the first such occurrence; `Memory` for want of memory. The rule is this project's own.
pub fn grades(alloc: Global, flat: &Flat, ranks: &Ranks) -> Result<Grades, Refusal>
    requires single { IsSingle flat.now }
    requires regular { IsRegular flat.now }
    requires hybrid { is_hybrid_block flat.now 0 ≡ true }
    requires ranks { AreRanks flat.now ranks.now.places.items ranks.now.blocks.items }
    ensures grades { IfOk result (λ g. AreAllowed flat.now (grading_of g)) }
    ensures kept { IfOk result (λ g. KeepsIfDecided flat.now (grading_of g)) }
    ensures refused { IfErr result (IsRefused flat.now) }
{
    match try_grades(alloc, flat, ranks) {
        Ok(Outcome::Allowed(grades)) => Ok(grades),
        Ok(Outcome::Over(at)) => Err(Refusal::Broken {
            rule: Rule::Grade,
            at,
        }),
        Err(_) => Err(Refusal::Memory),
    }
}
