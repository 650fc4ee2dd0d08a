// The loop over instructions, with what it does to registers, memories and fault.
ghost use Rattle.std.specs.Prelude.{◌≡◌, set, get_or, length, Some, None, false};
ghost use Rattle.zl_value.specs.Operators.{answered, Faults};
ghost use Rattle.zl_code.specs.Method.{noted};
ghost use Rattle.zl_machine.specs.Answers.{as_answer};
ghost use Rattle.zl_machine.specs.Instructions.{Does, GoesDown};

use crate::cells::{read, write};
use crate::instr::Instr;
use crate::operator::{eq_ints, neg_float, not, one, or, sub_floats, truth, two};
use zl_code::{Found, OpFault};
use zl_value::{Arith, Fault, Value};

/// The fault of least number, and the earlier one of two with one number.
fn least(found: Option<Found>, kind: Arith, at: OpFault) -> Option<Found>
    ensures { result ≡ noted found (Faults kind) (Some at) }
{
    let new = Found {
        ord: at.ord,
        fault: Fault { kind, at: at.at },
    };
    match found {
        None => Some(new),
        Some(old) => {
            if new.ord < old.ord {
                Some(new)
            } else {
                Some(old)
            }
        }
    }
}

fn calm(made: Result<Option<Value>, Arith>) -> Option<Value>
    ensures { result ≡ answered (as_answer made) }
{
    match made {
        Ok(v) => v,
        Err(_) => None,
    }
}

/// The fault after an answer.
fn note(found: Option<Found>, made: &Result<Option<Value>, Arith>, fault: OpFault) -> Option<Found>
    ensures { result ≡ noted found (as_answer made.now) (Some fault) }
{
    match made {
        Ok(_) => found,
        Err(kind) => least(found, *kind, fault),
    }
}

fn event(events: &[bool], site: u32) -> bool
    ensures { result ≡ get_or events.now site false }
{
    match events.get(site as usize) {
        Some(fired) => *fired,
        None => false,
    }
}

/// Runs the instructions from the last one down.
pub(crate) fn execute(
    code: &[Instr],
    lits: &[Option<Value>],
    mems: &[Option<Value>],
    inputs: &[Option<Value>],
    events: &[bool],
    regs: &mut [Option<Value>],
    next: &mut [Option<Value>],
) -> Option<Found>
    requires down { GoesDown code.now lits.now }
    ensures does { Does code.now lits.now (record { mems = mems.now; inputs = inputs.now; events = events.now }) (record { regs = regs.old; mems = next.old; found = None }) (record { regs = regs.new; mems = next.new; found = result }) }
{
    let mut found: Option<Found> = None;
    let mut pc = code.len();
    while pc > 0 {
        pc -= 1;
        match &code[pc] {
            Instr::Lit { to, number } => write(regs, *to, read(lits, *number)),
            Instr::Get { to, from } => write(regs, *to, read(regs, *from)),
            Instr::Mem { to, mem } => write(regs, *to, read(mems, *mem)),
            Instr::In { to, input } => write(regs, *to, read(inputs, *input)),
            Instr::Event { to, site } => write(regs, *to, Some(Value::B(event(events, *site)))),
            Instr::One { to, op, a } => write(regs, *to, calm(one(*op, read(regs, *a)))),
            Instr::OneFault { to, op, a, fault } => {
                let made = one(*op, read(regs, *a));
                found = note(found, &made, *fault);
                write(regs, *to, calm(made))
            }
            Instr::Two { to, op, a, b } => {
                write(regs, *to, calm(two(*op, read(regs, *a), read(regs, *b))))
            }
            Instr::TwoFault {
                to,
                op,
                a,
                b,
                fault,
            } => {
                let made = two(*op, read(regs, *a), read(regs, *b));
                found = note(found, &made, *fault);
                write(regs, *to, calm(made))
            }
            Instr::SubFloat { to, a, b, fault } => {
                let made = sub_floats(read(regs, *a), read(regs, *b));
                found = note(found, &made, *fault);
                write(regs, *to, calm(made))
            }
            Instr::NegFloat { to, a } => write(regs, *to, neg_float(read(regs, *a))),
            Instr::EqInt { to, a, b } => {
                write(regs, *to, eq_ints(read(regs, *a), read(regs, *b)))
            }
            Instr::Or { to, a, b } => write(regs, *to, or(read(regs, *a), read(regs, *b))),
            Instr::Not { to, a } => write(regs, *to, not(read(regs, *a))),
            Instr::Set { mem, from } => write(next, *mem, read(regs, *from)),
            Instr::If { reg, other, end } => match truth(read(regs, *reg)) {
                Some(true) => {}
                Some(false) => pc = *other as usize,
                None => pc = *end as usize,
            },
            Instr::Jump(to) => pc = *to as usize,
            Instr::Choose { to, cond, yes, no } => match truth(read(regs, *cond)) {
                Some(true) => write(regs, *to, read(regs, *yes)),
                Some(false) => write(regs, *to, read(regs, *no)),
                None => {}
            },
        }
    }
    found
}
