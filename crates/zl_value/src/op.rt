/// An operator on values. Operators on `int` take whole numbers, those on `float` fractions; a comparison takes two
/// values of one type, and `false` is less than `true`. This project's own, after Zélus.
#[derive(Clone, Copy, Debug, PartialEq, Eq)]
pub enum Op {
    AddInt,
    SubInt,
    MulInt,
    /// The quotient without its fraction, rounded towards zero.
    DivInt,
    /// The rest of that quotient, with the sign of the left operand.
    ModInt,
    NegInt,
    AddFloat,
    SubFloat,
    MulFloat,
    DivFloat,
    NegFloat,
    /// The whole number as a fraction.
    FloatOfInt,
    /// The fraction's whole part, rounded towards zero.
    Truncate,
    EqBool,
    NeBool,
    LtBool,
    LeBool,
    GtBool,
    GeBool,
    EqInt,
    NeInt,
    LtInt,
    LeInt,
    GtInt,
    GeInt,
    EqFloat,
    NeFloat,
    LtFloat,
    LeFloat,
    GtFloat,
    GeFloat,
    And,
    Or,
    Not,
}
