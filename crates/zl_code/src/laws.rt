//! Laws of the definitions. Each is a function without a body, whose contract is the law.
ghost use Rattle.zl_code.specs.Laws.{HasOneRun};
ghost use Rattle.zl_code.specs.WellFormed.{IsCode};

use crate::Code;

/// Each code is well formed: its numbers name entries, its types agree, and its statements are nested.
pub fn is_well_formed(code: &Code)
    ensures { IsCode code.now }
{
    let _ = &code.regs;
}

/// A code has at most one run with a script, and two beginnings of runs are equal as far as both go.
pub fn has_one_run()
    ensures { HasOneRun }
{}
