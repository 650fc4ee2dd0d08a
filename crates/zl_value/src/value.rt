use crate::{Arith, Frac, Pos};

/// The type of a variable or of an expression.
#[derive(Clone, Copy, Debug, PartialEq, Eq)]
pub enum Ty {
    Bool,
    Int,
    Float,
    /// The type of a zero-crossing `up(e)`, which no variable has.
    Zero,
}

/// The value of a variable or of an expression.
#[derive(Clone, Copy, Debug, PartialEq, Eq)]
pub enum Value {
    B(bool),
    I(i64),
    F(Frac),
}

/// An operator without a result, at the place of its occurrence.
#[derive(Clone, Copy, Debug, PartialEq, Eq)]
pub struct Fault {
    pub kind: Arith,
    pub at: Pos,
}
