//! Laws of a run. Each function does nothing, and its contract is the law.
ghost use Rattle.zl_value.specs.Instants.{Instant, History};
ghost use Rattle.zl_code.specs.CodeForm.{CodeForm};
ghost use Rattle.zl_code.specs.Method.{Doing};
ghost use Rattle.zl_run.specs.Laws.{FiringsAreEvents, FlowLasts, ClockSteps, StopIsNext, PiecesAreTrace};

use zl_crossing::laws::first_lasts;

/// What is noted of the sites after an instant says which fired.
pub fn firings_are_events()
    ensures { (c : CodeForm) (h : History Doing) (i : Instant Doing) → FiringsAreEvents c h i }
{}

/// A flow lasts until the first crossing of the lines of its sites.
pub fn flow_lasts()
    ensures { FlowLasts }
{
    first_lasts();
}

/// After a step the clock is that of the longer history.
pub fn clock_steps()
    ensures { ClockSteps }
{}

/// The next stop is the time of the first line that isn't passed, else the horizon.
pub fn stop_is_next()
    ensures { StopIsNext }
{}

/// The pieces that are put one by one are the trace.
pub fn pieces_are_trace()
    ensures { PiecesAreTrace }
{}
