use zl_value::{Pos, Ty};

/// What the type of a variable or an occurrence is equal to.
#[derive(Clone, Copy, Debug, PartialEq, Eq)]
pub enum Side {
    Fixed(Ty),
    /// The type of the variable or occurrence at this place.
    SameAs(Pos),
}

/// An equality of types. A variable or occurrence is named by its place.
#[derive(Clone, Copy, Debug, PartialEq, Eq)]
pub struct Equality {
    /// The place of the construct that gives the equality.
    pub at: Pos,
    /// The place of the variable or occurrence whose type it speaks of.
    pub node: Pos,
    pub side: Side,
}

/// What is asked of the level of a variable or an occurrence: early, with a value from the first instant on, or late.
#[derive(Clone, Copy, Debug, PartialEq, Eq)]
pub enum Asked {
    Early,
    Late,
    /// Late where the variable or occurrence at this place is late.
    LateWhere(Pos),
    /// What no level meets.
    Never,
}

/// A constraint on levels. A variable or occurrence is named by its place.
#[derive(Clone, Copy, Debug, PartialEq, Eq)]
pub struct Requirement {
    /// The place of the construct that gives the constraint.
    pub at: Pos,
    /// The place of the variable or occurrence whose level it speaks of.
    pub node: Pos,
    pub asked: Asked,
}
