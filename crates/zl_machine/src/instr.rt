// Instructions.
use zl_code::OpFault;
use zl_value::Op;

/// An instruction. The next one stands just before it; those that name another place name one further down, by how many
/// instructions are left there.
#[derive(Clone, Copy, Debug)]
pub(crate) enum Instr {
    /// A value of the table of literals.
    Lit {
        to: u32,
        number: u32,
    },
    Get {
        to: u32,
        from: u32,
    },
    Mem {
        to: u32,
        mem: u32,
    },
    In {
        to: u32,
        input: u32,
    },
    Event {
        to: u32,
        site: u32,
    },
    /// An operator on one operand, without a fault, and with one.
    One {
        to: u32,
        op: Op,
        a: u32,
    },
    OneFault {
        to: u32,
        op: Op,
        a: u32,
        fault: OpFault,
    },
    Two {
        to: u32,
        op: Op,
        a: u32,
        b: u32,
    },
    TwoFault {
        to: u32,
        op: Op,
        a: u32,
        b: u32,
        fault: OpFault,
    },
    SubFloat {
        to: u32,
        a: u32,
        b: u32,
        fault: OpFault,
    },
    NegFloat {
        to: u32,
        a: u32,
    },
    EqInt {
        to: u32,
        a: u32,
        b: u32,
    },
    Or {
        to: u32,
        a: u32,
        b: u32,
    },
    Not {
        to: u32,
        a: u32,
    },
    Set {
        mem: u32,
        from: u32,
    },
    If {
        reg: u32,
        other: u32,
        end: u32,
    },
    Jump(u32),
    /// One of two registers, where the condition holds a value.
    Choose {
        to: u32,
        cond: u32,
        yes: u32,
        no: u32,
    },
}
