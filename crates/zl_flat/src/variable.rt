//! The variables of a copy.
use zl_value::Ty;

/// A variable of a declaration in one copy of its body.
#[derive(Clone, Copy, Debug, PartialEq, Eq)]
pub struct Variable {
    /// The number of its name.
    pub name: u32,
    pub ty: Ty,
    /// The number of its place in the flat form.
    pub place: u32,
}
