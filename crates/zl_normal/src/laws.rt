//! Laws of the definitions. Each is a function without a body, whose contract is the law.
ghost use Rattle.zl_normal.specs.Laws.{NormalFormKeepsRuns, NormalFormLacksNothing};
ghost use Rattle.zl_normal.specs.MadeKernel.{MadeKernelIsNormalAtInstants};

/// Each run of a normal form is one of its form: with the same times, marks and faults, and the same is printed of it.
pub fn normal_form_keeps_runs()
    ensures { NormalFormKeepsRuns }
{}

/// No run of a normal form ends for want of a value, if what is printed and asked for in the form's runs has values.
pub fn normal_form_lacks_nothing()
    ensures { NormalFormLacksNothing }
{}

/// The kernel that is made of a form is normal at instants, and has the form's inputs and outputs.
pub fn made_kernel_is_normal_at_instants()
    ensures { MadeKernelIsNormalAtInstants }
{}
