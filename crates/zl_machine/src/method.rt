// A method, from empty registers on.
ghost use Rattle.std.specs.Prelude.{◌≡◌, List, length, replicate, None};
ghost use Rattle.zl_code.specs.declared.stmt.Stmt.{Stmt};
ghost use Rattle.zl_code.specs.Method.{method};
ghost use Rattle.zl_machine.specs.Instructions.{GoesDown};
ghost use Rattle.zl_machine.specs.Keeping.{IsProgramOf};

use crate::decoding::Program;
use crate::execution::execute;
use zl_code::Found;
use zl_value::Value;

/// Runs a method: its registers begin as `blank`, which is empty, and `next` gets the memories as they are after it.
pub(crate) fn run_method(
    program: &Program,
    blank: &[Option<Value>],
    mems: &[Option<Value>],
    inputs: &[Option<Value>],
    events: &[bool],
    regs: &mut [Option<Value>],
    next: &mut [Option<Value>],
) -> Option<Found>
    requires down { GoesDown program.now.code.items program.now.lits.items }
    requires blank { blank.now ≡ replicate (length regs.old) None }
    requires room { length next.old ≡ length mems.now }
    ensures { (stmts : List Stmt) → IsProgramOf program.now stmts → record { regs = regs.new; mems = next.new; found = result } ≡ method (length regs.old) stmts (record { mems = mems.now; inputs = inputs.now; events = events.now }) }
{
    regs.copy_from_slice(blank);
    next.copy_from_slice(mems);
    execute(
        program.code.as_slice(),
        program.lits.as_slice(),
        mems,
        inputs,
        events,
        regs,
        next,
    )
}
