/// Why an operator has no result.
#[derive(Clone, Copy, Debug, PartialEq, Eq)]
pub enum Arith {
    /// The exact result isn't in the width.
    Range,
    /// The divisor is zero.
    Division,
}
