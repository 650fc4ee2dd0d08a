//! What is proved of the kernel that is made of a form. Each is a function without a body, whose contract is the law.
ghost use Rattle.zl_normal.specs.MadeFlows.{MadeKernelIsNormal, MadeKernelIsWellFormed, MadeKernelHasRanks, GradesGiveSlopes};

/// The kernel that is made of a form, by any layout of its wires, is its normal form.
pub fn made_kernel_is_normal()
    ensures { MadeKernelIsNormal }
{}

/// The kernel is well formed, where the form's inputs and outputs have names that a kernel can have.
pub fn made_kernel_is_well_formed()
    ensures { MadeKernelIsWellFormed }
{}

/// The wires of the kernel have ranks, each above those of what it reads.
pub fn made_kernel_has_ranks()
    ensures { MadeKernelHasRanks }
{}

/// By the grades of a form each operator that moves has a slope that is made of those of its operands.
pub fn grades_give_slopes()
    ensures { GradesGiveSlopes }
{}
