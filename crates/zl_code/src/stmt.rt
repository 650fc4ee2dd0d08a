// Statements, and the fault of a method.
use zl_value::{Fault, Op, Pos, Sequence, Value};

/// Where an operator of the code stands in the text of the program, and which of several faults is reported: the one of
/// the least `ord`.
#[derive(Clone, Copy, Debug, PartialEq, Eq)]
pub struct OpFault {
    pub ord: u32,
    pub at: Pos,
}

/// A fault of a method, with the number by which the one to report is chosen.
#[derive(Clone, Copy, Debug, PartialEq, Eq)]
pub struct Found {
    pub ord: u32,
    pub fault: Fault,
}

/// A statement. Its numbers name registers, memories, inputs and sites.
#[derive(Debug, Drop)]
pub enum Stmt {
    /// `to = lit value`
    Lit {
        to: u32,
        value: Value,
    },
    /// `to = get from`
    Get {
        to: u32,
        from: u32,
    },
    /// `to = mem mem`
    Mem {
        to: u32,
        mem: u32,
    },
    /// `to = in input`
    In {
        to: u32,
        input: u32,
    },
    /// `to = event site`
    Event {
        to: u32,
        site: u32,
    },
    /// `to = op args`
    Op {
        to: u32,
        op: Op,
        args: Sequence<u32>,
        fault: Option<OpFault>,
    },
    /// `set mem from`
    Set {
        mem: u32,
        from: u32,
    },
    /// The statements up to `Else` are run where this register holds `true`, those from there to `Fi` where it holds
    /// `false`.
    If(u32),
    Else,
    Fi,
}
