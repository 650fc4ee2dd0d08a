//! Worked codes, each a function without a body: its contract says what its run prints, or what its statements do.
ghost use Rattle.zl_code.specs.Worked.SawTooth.{SawToothRuns};
ghost use Rattle.zl_code.specs.Worked.Statements.{StatementsDo};

/// A variable that is reset where it reaches one.
pub fn saw_tooth()
    ensures { SawToothRuns }
{}

/// Memories are read as they were before, one part of an `if` is run, nothing is handed on, and the fault of least number is
/// reported.
pub fn statements()
    ensures { StatementsDo }
{}
