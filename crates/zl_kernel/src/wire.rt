use zl_value::{Op, Pos, Sequence, Ty, Value};

/// What the value of a wire is made from. Its numbers name wires, but that of `Mem` a memory, that of `In` an input and that
/// of `Event` a site. This project's own.
#[derive(Debug, Drop)]
pub enum Def {
    Lit(Value),
    /// What another wire holds.
    Copy(u32),
    /// What a memory holds.
    Mem(u32),
    /// The value of an input.
    In(u32),
    /// It is a step, and the site fired after the instant before.
    Event(u32),
    /// It is a step.
    Step,
    Op(Op, Sequence<u32>),
    /// What the second wire holds where the first is true, and the third where it is false.
    If(u32, u32, u32),
}

/// A wire: at each instant, and in each flow, it holds a value or is empty.
#[derive(Debug, Drop)]
pub struct Wire {
    pub ty: Ty,
    pub def: Def,
    /// A wire of type bool. Where it isn't true, this one is empty.
    pub guard: Option<u32>,
    /// The wire that holds the slope of this one in a flow.
    pub slope: Option<u32>,
    /// Its place in the order in which faults count: of several faults that of the least number does.
    pub ord: u32,
    /// The position that a fault names.
    pub at: Pos,
}
