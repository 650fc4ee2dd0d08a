//! Laws of the definitions. Each is a function without a body, whose contract is the law.
ghost use Rattle.zl_compile.specs.Laws.{NeverBoth};

/// A file breaks no rule, or one, and never both.
pub fn never_both()
    ensures { NeverBoth }
{}
