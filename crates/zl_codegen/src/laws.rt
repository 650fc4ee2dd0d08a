//! Laws of the definitions. Each is a function without a body, whose contract is the law.
ghost use Rattle.zl_codegen.specs.Laws.{MethodsSolve, NeedsAreClosed, AnyOrder, MethodsReport};
ghost use Rattle.zl_codegen.specs.RunLaws.{WiresKeepTypes, CodeKeepsRuns, CodeHasRuns};

/// A method's registers hold what the kernel says of their wires, whatever the order.
pub fn methods_solve()
    ensures { MethodsSolve }
{}

/// What a method needs is closed, whatever the order.
pub fn needs_are_closed()
    ensures { NeedsAreClosed }
{}

/// The codes of two orders of one kernel are one system, as seen from outside.
pub fn any_order()
    ensures { AnyOrder }
{}

/// The fault to report after a method is the kernel's.
pub fn methods_report()
    ensures { MethodsReport }
{}

/// Along each run of a kernel each wire holds nothing, or a value of its type in the width.
pub fn wires_keep_types()
    ensures { WiresKeepTypes }
{}

/// Each run of a code is one of its kernel: with the same times, marks and faults, and the same is printed of it.
pub fn code_keeps_runs()
    ensures { CodeKeepsRuns }
{}

/// Each run of a kernel is one of the code of any of its orders.
pub fn code_has_runs()
    ensures { CodeHasRuns }
{}
