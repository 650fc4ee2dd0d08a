//! Laws of the definitions. Each is a function without a body, whose contract is the law.
ghost use Rattle.zl_meaning.specs.Causality.{CausalExactlyWithRanks, RanksOrCircle};
ghost use Rattle.zl_meaning.specs.GradesLaw.{GradesAreKept, HasOneGrading};
ghost use Rattle.zl_meaning.specs.Laws.{CorrespondenceKeepsRuns, HasOneRun, HasOneTable, ReadsNoMore, UsesAreListed};
ghost use Rattle.zl_meaning.specs.Levels.{LevelsGiveRanks, LevelsGrow, RanksGiveLevels};
ghost use Rattle.zl_meaning.specs.OneInstant.{RanksGiveOneInstant};
ghost use Rattle.zl_meaning.specs.ThinForm.{ThinIsGraded, ThinRuns};
ghost use Rattle.zl_meaning.specs.WellFormed.{IsWellFormed};

use crate::Flat;

/// Each flat form is well formed: its numbers name entries, its types agree, and its parts stand where they belong.
pub fn is_well_formed(flat: &Flat)
    ensures { IsWellFormed flat.now }
{
    let _ = &flat.blocks;
}

/// The list of the uses of an occurrence, with which the meaning computes, has each use and no other.
pub fn uses_are_listed()
    ensures { UsesAreListed }
{}

/// The equation of an entry reads what the definitions say that it reads, and no more.
pub fn reads_no_more()
    ensures { ReadsNoMore }
{}

/// What stands at a moment of a run is decided by what stood before, if the equations can be ranked.
pub fn has_one_table()
    ensures { HasOneTable }
{}

/// A level says when something is known: of a place its value, of a block whether it is active and reset, of an occurrence
/// the value that its operands give, and whether it is evaluated. Levels that keep the one-step inequalities grow along every
/// dependency: a place or a block that depends on another has a greater one.
pub fn levels_grow()
    ensures { LevelsGrow }
{}

/// From such levels of places, blocks, values and uses there are ranks of all entries of a moment.
pub fn levels_give_ranks()
    ensures { LevelsGiveRanks }
{}

/// A form whose places and blocks can be ranked along their dependencies has such levels.
pub fn ranks_give_levels()
    ensures { RanksGiveLevels }
{}

/// A form is causal, nothing in it depends on itself, exactly where its places and blocks have ranks.
pub fn causal_exactly_with_ranks()
    ensures { CausalExactlyWithRanks }
{}

/// Each form has ranks, or a place or a block that depends on itself.
pub fn ranks_or_circle()
    ensures { RanksOrCircle }
{}

/// From ranks of places and blocks there is, after each history, exactly one instant of each kind, with this time, these
/// inputs and these sites that fired: it is the one that solves what is before it.
pub fn ranks_give_one_instant()
    ensures { RanksGiveOneInstant }
{}

/// A form whose equations can be ranked has at most one run with a script, and two beginnings of runs are equal as far as
/// both go.
pub fn has_one_run()
    ensures { HasOneRun }
{}

/// Where the steps and flows of a pass' result correspond to those of its argument, and the old places have the same
/// values there, the pass keeps runs.
pub fn correspondence_keeps_runs<W>()
    ensures { CorrespondenceKeepsRuns W }
{}

/// Where no occurrence has a greater grade than is needed of it, everything moves in the flows of each run as its grade says:
/// what has grade 0 stands still, what has grade 1 moves on a straight line, and where no step is demanded a flow begins where
/// its instant stood. It holds of a well-formed, single and regular form with a hybrid main block and ranks, in whose runs each
/// test and each derivative that is evaluated has a value.
pub fn grades_are_kept()
    ensures { GradesAreKept }
{}

/// A well-formed form with ranks has one table of grades at most.
pub fn has_one_grading()
    ensures { HasOneGrading }
{}

/// The grades of the form of one variable whose derivative is a number.
pub fn thin_is_graded()
    ensures { ThinIsGraded }
{}

/// One variable whose derivative is a number runs up to the horizon, or to a fault where it leaves the width; and that is its
/// only run.
pub fn thin_runs()
    ensures { ThinRuns }
{}
