//! Worked normal forms, each a function without a body: its contract says that a kernel is the normal form of a flat form.
ghost use Rattle.zl_normal.specs.Worked.SawTooth.{SawToothIsNormal};
ghost use Rattle.zl_normal.specs.Worked.Slopes.{SlopesAreNormal};

/// A variable that is reset where it reaches one.
pub fn saw_tooth_is_normal()
    ensures { SawToothIsNormal }
{}

/// A product and a difference that move, in the branches of an `if`.
pub fn slopes_are_normal()
    ensures { SlopesAreNormal }
{}
