use zl_value::Frac;

/// What the word of a value says.
#[derive(Clone, Copy, Debug, PartialEq, Eq)]
pub(crate) enum Literal {
    Truth(bool),
    /// Digits, perhaps with a sign. `None` where the number doesn't have 64 bits.
    Whole(Option<i64>),
    /// Any other number. `None` where it isn't in the width.
    Fractional(Option<Frac>),
}
