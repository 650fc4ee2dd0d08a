//! Worked kernels, each a function without a body: its contract says that the kernel has a run, and what the run prints.
ghost use Rattle.zl_kernel.specs.Worked.SawTooth.{SawToothRuns};
ghost use Rattle.zl_kernel.specs.Worked.Counter.{CounterRuns};
ghost use Rattle.zl_kernel.specs.Worked.Forgotten.{ForgottenRuns};
ghost use Rattle.zl_kernel.specs.Worked.WideSlope.{WideSlopeRuns};
ghost use Rattle.zl_kernel.specs.Worked.NoSlope.{NoSlopeRuns};
ghost use Rattle.zl_kernel.specs.Worked.WideMove.{WideMoveRuns};

/// A variable that is reset where it reaches one.
pub fn saw_tooth()
    ensures { SawToothRuns }
{}

/// A counter of crossings beside a site that is always fresh, up to an instant with two faults.
pub fn counter()
    ensures { CounterRuns }
{}

/// A memory whose wire is empty at an instant is empty after it, and an output without a value ends the run; an input keeps what
/// a line of the script gave it.
pub fn forgotten()
    ensures { ForgottenRuns }
{}

/// A slope has its fault in the flow, and none at the instant before.
pub fn wide_slope()
    ensures { WideSlopeRuns }
{}

/// A memory that holds a value and whose slope is empty ends the run.
pub fn no_slope()
    ensures { NoSlopeRuns }
{}

/// A memory that would leave the width in a flow.
pub fn wide_move()
    ensures { WideMoveRuns }
{}
