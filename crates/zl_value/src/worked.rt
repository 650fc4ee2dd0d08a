//! Worked runs of small systems, each a function without a body: its contract says that there is the run, and what is
//! printed of it.
ghost use Rattle.zl_value.specs.Worked.{DropRuns, LeapRuns};

/// A step takes the script line of its time, and makes a site fire, so that one more step follows at the same time.
pub fn drop_runs()
    ensures { DropRuns }
{}

/// The move of a flow is a number of its own, and isn't in the width.
pub fn leap_runs()
    ensures { LeapRuns }
{}
