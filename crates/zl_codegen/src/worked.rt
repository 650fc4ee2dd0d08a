//! Worked codes, each a function without a body: its contract says which code an order gives.
ghost use Rattle.zl_codegen.specs.Worked.SawTooth.{SawToothHasCode};
ghost use Rattle.zl_codegen.specs.Worked.Counter.{CounterHasCode};
ghost use Rattle.zl_codegen.specs.Worked.Nested.{AreNested};

/// A variable that is reset where it reaches one.
pub fn saw_tooth()
    ensures { SawToothHasCode }
{}

/// Operators that nothing reads and that can fault.
pub fn counter()
    ensures { CounterHasCode }
{}

/// Guards of guards.
pub fn nested()
    ensures { AreNested }
{}
