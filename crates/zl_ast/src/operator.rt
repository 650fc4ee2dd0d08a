/// An operator that stands before its one operand. `pre` is that of Zélus: the value of the step before.
#[derive(Clone, Copy, Debug, PartialEq, Eq)]
pub enum Prefix {
    /// `-` of int
    Minus,
    /// `-.` of float
    MinusDot,
    Not,
    Pre,
}

/// An operator that stands between its two operands.
#[derive(Clone, Copy, Debug, PartialEq, Eq)]
pub enum Infix {
    /// `||` and `or`
    Or,
    /// `&&` and `&`
    And,
    Equal,
    /// `<>`
    Unequal,
    Less,
    /// `<=`
    AtMost,
    Greater,
    /// `>=`
    AtLeast,
    Plus,
    Minus,
    PlusDot,
    MinusDot,
    Star,
    Slash,
    Mod,
    StarDot,
    SlashDot,
}

/// An operator between a first value and later ones.
#[derive(Clone, Copy, Debug, PartialEq, Eq)]
pub enum FlowOp {
    /// `->` of Zélus: the left value at first, and later the right one.
    Arrow,
    /// `fby` of Zélus: the left value at first, and later the right one of the step before.
    Fby,
}
