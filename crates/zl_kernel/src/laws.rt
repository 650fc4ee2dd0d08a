//! Laws of the definitions. Each is a function without a body, whose contract is the law.
ghost use Rattle.zl_kernel.specs.Laws.{HasOneSolution, HasOneRun};
ghost use Rattle.zl_kernel.specs.WellFormed.{IsWellFormed};

use crate::Kernel;

/// Each kernel is well formed: its numbers name entries, types agree, it has an output, its inputs have different names, and
/// faults are told apart by their numbers.
pub fn is_well_formed(kernel: &Kernel)
    ensures { IsWellFormed kernel.now }
{
    let _ = &kernel.wires;
}

/// If numbers grow along all that wires read, there is exactly one solution for the wires at each instant and in each flow.
pub fn has_one_solution()
    ensures { HasOneSolution }
{}

/// Such a kernel has at most one run with a script, and two beginnings of runs of one length are equal.
pub fn has_one_run()
    ensures { HasOneRun }
{}
