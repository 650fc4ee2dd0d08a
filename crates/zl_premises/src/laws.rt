//! Laws of the definitions. Each is a function without a body, whose contract is the law.
ghost use Rattle.zl_premises.specs.Guards.{RanksGiveGuardRanks, RegularFormsKeepInits};
ghost use Rattle.zl_premises.specs.Lasts.{LastsAreKept};
ghost use Rattle.zl_premises.specs.Moving.{TableMoves, GradesKeepMoving};
ghost use Rattle.zl_premises.specs.Narrow.{DerivativesAreNarrow};
ghost use Rattle.zl_premises.specs.Starting.{GradesStartRight};
ghost use Rattle.zl_premises.specs.Whole.{GradesKeepFlows, MainFormsHavePremises, MainFormsKeepRuns};

/// By the table of grades what moves by a `der` doesn't stand still.
pub fn table_moves()
    ensures { TableMoves }
{}

/// A form whose grades are allowed keeps them, by a grading by which what moves by a `der` doesn't stand still.
pub fn grades_keep_moving()
    ensures { GradesKeepMoving }
{}

/// Such a form has no fault where a flow begins, if no step is demanded.
pub fn grades_start_right()
    ensures { GradesStartRight }
{}

/// Where `last` of a place stands in the copy of the place's call, it is evaluated only with that call.
pub fn lasts_are_kept()
    ensures { LastsAreKept }
{}

/// In runs of the main block alone each derivative that is evaluated is a number in the width, if it has a value.
pub fn derivatives_are_narrow()
    ensures { DerivativesAreNarrow }
{}

/// A regular form of the main block alone has no `init` in a copy that a condition or an event decides on.
pub fn regular_forms_keep_inits()
    ensures { RegularFormsKeepInits }
{}

/// From ranks of places and blocks there are ranks of entries in which whether an occurrence is evaluated is below its value.
pub fn ranks_give_guard_ranks()
    ensures { RanksGiveGuardRanks }
{}

/// A form of the main block alone whose grades are allowed keeps its flows.
pub fn grades_keep_flows()
    ensures { GradesKeepFlows }
{}

/// Such a form has what the law of normal forms asks of it.
pub fn main_forms_have_premises()
    ensures { MainFormsHavePremises }
{}

/// Each run of a normal form of such a form is one of the form.
pub fn main_forms_keep_runs()
    ensures { MainFormsKeepRuns }
{}
