//! Worked programs, each a function without a body: its contract says that its flat form has a run, and what the run prints.
ghost use Rattle.zl_meaning.specs.Worked.Ramp.{RampRuns};
ghost use Rattle.zl_meaning.specs.Worked.SawTooth.{SawToothRuns};
ghost use Rattle.zl_meaning.specs.Worked.SiteAtZero.{SiteAtZeroRuns, SiteAtZeroStays};
ghost use Rattle.zl_meaning.specs.Worked.TwoCrossings.{BothCrossingsFire, TwoCrossingsRuns};
ghost use Rattle.zl_meaning.specs.Worked.Cascade.{CascadeIsDue, CascadeRuns};
ghost use Rattle.zl_meaning.specs.Worked.TwoTanks.{TwoTanksRuns};
ghost use Rattle.zl_meaning.specs.Worked.ScriptLineAtACrossing.{ScriptLineAtACrossingRuns};
ghost use Rattle.zl_meaning.specs.Worked.TwoFaults.{TwoFaultsRuns};
ghost use Rattle.zl_meaning.specs.Worked.TwoFaultsTurned.{TwoFaultsTurnedRuns};
ghost use Rattle.zl_meaning.specs.Worked.FeedbackThroughDeclarations.{FeedbackThroughDeclarationsRuns};
ghost use Rattle.zl_meaning.specs.Worked.EnteredByThen.{EnteredByThenRuns};
ghost use Rattle.zl_meaning.specs.Worked.EnteredByContinue.{EnteredByContinueRuns};
ghost use Rattle.zl_meaning.specs.Worked.ResetBlock.{ResetBlockRuns};
ghost use Rattle.zl_meaning.specs.Worked.StrongTransition.{StrongTransitionRuns};
ghost use Rattle.zl_meaning.specs.Worked.WeakTransition.{WeakTransitionRuns};
ghost use Rattle.zl_meaning.specs.Worked.StrongToItself.{StrongToItselfRuns};
ghost use Rattle.zl_meaning.specs.Worked.GuardAfterAStrongTransition.{GuardAfterAStrongTransitionRuns};
ghost use Rattle.zl_meaning.specs.Worked.BranchWithACall.{BranchWithACallRuns};
ghost use Rattle.zl_meaning.specs.Worked.Otherwise.{OtherwiseRuns};
ghost use Rattle.zl_meaning.specs.Worked.UnchosenTooWide.{UnchosenTooWideRuns};
ghost use Rattle.zl_meaning.specs.Worked.Room.{RoomRuns};
ghost use Rattle.zl_meaning.specs.Worked.FreshSite.{FreshSiteRuns};
ghost use Rattle.zl_meaning.specs.Worked.FreshEvent.{FreshEventRuns};
ghost use Rattle.zl_meaning.specs.Worked.WaitingByReset.{WaitingByResetRuns};
ghost use Rattle.zl_meaning.specs.Worked.WaitingByHistory.{WaitingByHistoryRuns};
ghost use Rattle.zl_meaning.specs.Worked.IncrementTooWide.{IncrementTooWideRuns};
ghost use Rattle.zl_meaning.specs.Worked.SlopeTooWide.{SlopeTooWideRuns};
ghost use Rattle.zl_meaning.specs.Worked.BlankArmHoldsNothing.{BlankArmHoldsNothingRuns};
ghost use Rattle.zl_meaning.specs.Worked.BlankBlockOfInit.{BlankBlockOfInitRuns};
ghost use Rattle.zl_meaning.specs.Worked.BlankChoice.{BlankChoiceRuns};
ghost use Rattle.zl_meaning.specs.Worked.BlankResetBody.{BlankResetBodyRuns};
ghost use Rattle.zl_meaning.specs.Worked.StrongContinue.{StrongContinueRuns};
ghost use Rattle.zl_meaning.specs.Worked.GuardResetByAWeakThen.{GuardResetByAWeakThenRuns};
ghost use Rattle.zl_meaning.specs.Worked.DiscreteAutomaton.{DiscreteAutomatonRuns};
ghost use Rattle.zl_meaning.specs.Worked.UntakenBranchFault.{UntakenBranchFaultRuns};
ghost use Rattle.zl_meaning.specs.Worked.IncrementsBeforeValues.{IncrementsBeforeValuesRuns};
ghost use Rattle.zl_meaning.specs.Worked.DefinerOutsideItsCopy.{DefinerOutsideItsCopyIsRefused, DefinerOutsideItsCopyIsTwo};
ghost use Rattle.zl_meaning.specs.Worked.DefinerOutsideABranch.{DefinerOutsideABranchIsRefused, DefinerOutsideABranchIsTwo};
ghost use Rattle.zl_meaning.specs.Worked.NameInACopyOfNoCall.{NameInACopyOfNoCallIsRefused};
ghost use Rattle.zl_meaning.specs.Worked.StepsAlone.{StepsAloneRuns};
ghost use Rattle.zl_meaning.specs.Worked.UpOfAnArm.{UpOfAnArmKeepsGrades};
ghost use Rattle.zl_meaning.specs.Worked.NameOfASquare.{NameOfASquareKeepsGrades};
ghost use Rattle.zl_meaning.specs.Worked.DiscreteMain.{DiscreteMainKeepsNoGrades};
ghost use Rattle.zl_meaning.specs.Worked.CausalForms.{DerivativeOfItselfIsCausal, FeedbackIsCausal, PreOfItselfIsCausal, UntilOfItsBodyIsCausal};
ghost use Rattle.zl_meaning.specs.Worked.CircularForms.{CallInItsBranchIsCircular, LastLeadsBackIsCircular, UnlessOfItsBodyIsCircular};

/// A variable with slope one.
pub fn ramp()
    ensures { RampRuns }
{}

/// A variable that is reset where it reaches one.
pub fn saw_tooth()
    ensures { SawToothRuns }
{}

/// A site that is at zero doesn't fire.
pub fn site_at_zero()
    ensures { SiteAtZeroRuns }
{}

/// Two sites that reach zero at one time both fire.
pub fn two_crossings()
    ensures { TwoCrossingsRuns }
{}

/// A step makes a further site fire, so that a second step follows at the same time.
pub fn cascade()
    ensures { CascadeRuns }
{}

/// Two tanks of which one is filled, up to the bound on steps.
pub fn two_tanks()
    ensures { TwoTanksRuns }
{}

/// A step takes the script line of its time.
pub fn script_line_at_a_crossing()
    ensures { ScriptLineAtACrossingRuns }
{}

/// Two faults at one instant: the first in text order counts.
pub fn two_faults()
    ensures { TwoFaultsRuns }
{}

/// The same two faults, the other way round.
pub fn two_faults_turned()
    ensures { TwoFaultsTurnedRuns }
{}

/// Feedback through two declarations.
pub fn feedback_through_declarations()
    ensures { FeedbackThroughDeclarationsRuns }
{}

/// A state that is entered by `then` is fresh.
pub fn entered_by_then()
    ensures { EnteredByThenRuns }
{}

/// A state that is entered by `continue` goes on where it was.
pub fn entered_by_continue()
    ensures { EnteredByContinueRuns }
{}

/// A reset makes its body fresh, and what is inside it.
pub fn reset_block()
    ensures { ResetBlockRuns }
{}

/// A strong transition: the step runs the target.
pub fn strong_transition()
    ensures { StrongTransitionRuns }
{}

/// A weak transition: the step after it runs the target.
pub fn weak_transition()
    ensures { WeakTransitionRuns }
{}

/// A strong transition of a state to itself.
pub fn strong_to_itself()
    ensures { StrongToItselfRuns }
{}

/// After a strong transition by `then` the guard forgets what it saw.
pub fn guard_after_a_strong_transition()
    ensures { GuardAfterAStrongTransitionRuns }
{}

/// A call in a branch: what is called there is evaluated where the branch is taken.
pub fn branch_with_a_call()
    ensures { BranchWithACallRuns }
{}

/// An `else` body, and `last` of a variable inside a handler.
pub fn otherwise()
    ensures { OtherwiseRuns }
{}

/// A crossing that isn't reached needn't be in the width.
pub fn unchosen_too_wide()
    ensures { UnchosenTooWideRuns }
{}

/// A room with a heater, and a script line that turns the heater down.
pub fn room()
    ensures { RoomRuns }
{}

/// A site in a fresh block doesn't fire.
pub fn fresh_site()
    ensures { FreshSiteRuns }
{}

/// `up` doesn't hold in a fresh block.
pub fn fresh_event()
    ensures { FreshEventRuns }
{}

/// An inner transition waits while its automaton isn't active, and is forgotten by a reset.
pub fn waiting_by_reset()
    ensures { WaitingByResetRuns }
{}

/// An inner transition waits while its automaton isn't active.
pub fn waiting_by_history()
    ensures { WaitingByHistoryRuns }
{}

/// The move of a flow is a number of its own, and isn't in the width.
pub fn increment_too_wide()
    ensures { IncrementTooWideRuns }
{}

/// A slope that isn't in the width is a fault once, at the product that it comes from.
pub fn slope_too_wide()
    ensures { SlopeTooWideRuns }
{}

/// An arm whose test has no value is blank, and a variable that it would define has no value: it isn't held.
pub fn blank_arm_holds_nothing()
    ensures { BlankArmHoldsNothingRuns }
{}

/// Where the block of an `init` is blank, `last` of that variable has no value.
pub fn blank_block_of_init()
    ensures { BlankBlockOfInitRuns }
{}

/// A test without a value leaves all bodies of its choice blank, `else` too.
pub fn blank_choice()
    ensures { BlankChoiceRuns }
{}

/// A `reset` whose test has no value leaves its body blank.
pub fn blank_reset_body()
    ensures { BlankResetBodyRuns }
{}

/// A strong transition by `continue`: the target goes on from what it held.
pub fn strong_continue()
    ensures { StrongContinueRuns }
{}

/// A weak transition by `then` resets the guard of its target too.
pub fn guard_reset_by_a_weak_then()
    ensures { GuardResetByAWeakThenRuns }
{}

/// An automaton in discrete context moves once at each of its activations, and demands no step.
pub fn discrete_automaton()
    ensures { DiscreteAutomatonRuns }
{}

/// A branch that isn't taken isn't evaluated, and has no fault.
pub fn untaken_branch_fault()
    ensures { UntakenBranchFaultRuns }
{}

/// All increments are tested before all new values: the second increment is the fault, not the first value.
pub fn increments_before_values()
    ensures { IncrementsBeforeValuesRuns }
{}

/// What tells steps is true at a step and false at a left end.
pub fn steps_alone()
    ensures { StepsAloneRuns }
{}

/// No run fires the site: it comes from zero, not from below.
pub fn site_at_zero_stays()
    ensures { SiteAtZeroStays }
{}

/// No run fires one of the two sites alone.
pub fn both_crossings_fire()
    ensures { BothCrossingsFire }
{}

/// No run goes on before the second step is made.
pub fn cascade_is_due()
    ensures { CascadeIsDue }
{}

/// What a definer names has to stand in the copy of its place's call.
pub fn definer_outside_its_copy_is_refused()
    ensures { DefinerOutsideItsCopyIsRefused }
{}

/// Without that, two instants solve one history.
pub fn definer_outside_its_copy_is_two()
    ensures { DefinerOutsideItsCopyIsTwo }
{}

/// The same where the call stands in a branch.
pub fn definer_outside_a_branch_is_refused()
    ensures { DefinerOutsideABranchIsRefused }
{}

/// Without that, two instants solve one history.
pub fn definer_outside_a_branch_is_two()
    ensures { DefinerOutsideABranchIsTwo }
{}

/// What expansion makes has names in the copies of calls alone.
pub fn name_in_a_copy_of_no_call_is_refused()
    ensures { NameInACopyOfNoCallIsRefused }
{}

/// What an arm gives isn't graded, and the variable that it defines keeps its grade all the same.
pub fn up_of_an_arm_keeps_grades()
    ensures { UpOfAnArmKeepsGrades }
{}

/// The square of a variable that moves, and a name of it, keep their grades, which are 2.
pub fn name_of_a_square_keeps_grades()
    ensures { NameOfASquareKeepsGrades }
{}

/// The operators of a discrete main are evaluated in flows and aren't graded, so it keeps no grades.
pub fn discrete_main_keeps_no_grades()
    ensures { DiscreteMainKeepsNoGrades }
{}

/// `pre` under `->` of the variable that they define gives no dependency.
pub fn pre_of_itself_is_causal()
    ensures { PreOfItselfIsCausal }
{}

/// A derivative may read its own variable.
pub fn derivative_of_itself_is_causal()
    ensures { DerivativeOfItselfIsCausal }
{}

/// An `until` test may read what its body defines.
pub fn until_of_its_body_is_causal()
    ensures { UntilOfItsBodyIsCausal }
{}

/// Two copies of declarations may feed back, where a derivative stands between.
pub fn feedback_is_causal()
    ensures { FeedbackIsCausal }
{}

/// An `unless` test that reads what its body defines goes round.
pub fn unless_of_its_body_is_circular()
    ensures { UnlessOfItsBodyIsCircular }
{}

/// So do `init` values that lead back by `last`.
pub fn last_leads_back_is_circular()
    ensures { LastLeadsBackIsCircular }
{}

/// And a variable of what is called in a branch, where the condition reads it.
pub fn call_in_its_branch_is_circular()
    ensures { CallInItsBranchIsCircular }
{}
