//! Laws of the definitions. Each is a function without a body, whose contract is the law.
ghost use Rattle.zl_levels.specs.Initialised.{LevelsInitialise};

/// A form of the main block alone with levels has a value where one must be.
pub fn levels_initialise()
    ensures { LevelsInitialise }
{}
