//! Laws of the definitions. Each is a function without a body, whose contract is the law.
ghost use Rattle.zl_flat.specs.Counted.{CountsAreLengths, CountIsSmall, PlacesAreNumbered};
ghost use Rattle.zl_flat.specs.Lasts.{LastsStandInCopies};
ghost use Rattle.zl_flat.specs.Shown.{FormsShowOutward};
ghost use Rattle.zl_flat.specs.Worked.{CallingExpands, FallingExpands};
ghost use Rattle.zl_flat.specs.WorkedTexts.{OneForm, ResetBlockExpands, TwoTanksExpands, WaitingExpands};

/// A worked program: a variable that is reset.
pub fn falling()
    ensures { FallingExpands }
{}

/// A worked program: a call of a declaration with a parameter.
pub fn calling()
    ensures { CallingExpands }
{}

/// A text expands to one form at most.
pub fn one_form()
    ensures { OneForm }
{}

/// The text of two tanks of which one is filled expands to the form on which its worked run stands.
pub fn two_tanks()
    ensures { TwoTanksExpands }
{}

/// So does that of a reset of a `present` that calls a node.
pub fn reset_block()
    ensures { ResetBlockExpands }
{}

/// So does that of an automaton inside a state of another, which waits while that state isn't active.
pub fn waiting_by_history()
    ensures { WaitingExpands }
{}

/// The counts of a program that keeps the rules, but for that of calls, are the lengths of what the walk of it makes, hidden
/// occurrences left out.
pub fn counts_are_lengths()
    ensures { CountsAreLengths }
{}

/// What the walk of a program makes that keeps the rules and the limits is few, also what no limit counts: hidden occurrences
/// are no more than others, and choices and automata no more than blocks.
pub fn count_is_small()
    ensures { CountIsSmall }
{}

/// The numbers of the places of a copy end where the copy's places do.
pub fn places_are_numbered()
    ensures { PlacesAreNumbered }
{}

/// A `last` of a place in the copy of a call stands in that copy: its call is that one, or stands in the copy itself.
pub fn lasts_stand_in_copies()
    ensures { LastsStandInCopies }
{}

/// The flat form of a program that keeps the rules has an output, its inputs and its outputs have names of the file, and no two
/// inputs have one name.
pub fn forms_show_outward()
    ensures { FormsShowOutward }
{}
