//! Laws of what the program does. Each is a function without a body, whose contract is the law.
ghost use Rattle.zl_cli.specs.ThinExpansion.{IsTreeAsMeant};
ghost use Rattle.zl_cli.specs.ThinMeaning.{IsRunAsMeant};

/// What is put for one variable whose derivative is a number is the trace of the one run of the form that such a variable has.
pub fn thin_run_is_meant()
    ensures { IsRunAsMeant }
{}

/// What is put for a program of one variable whose derivative is a number is the trace of the one run of the program's flat form.
pub fn thin_tree_is_meant()
    ensures { IsTreeAsMeant }
{}
