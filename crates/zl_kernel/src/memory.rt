use zl_value::{Pos, Ty, Value};

/// A memory: it holds a value from one instant to the next, or is empty. This project's own.
#[derive(Clone, Copy, Debug, PartialEq, Eq)]
pub struct KMem {
    pub ty: Ty,
    /// What it holds before the first instant.
    pub start: Option<Value>,
    /// The wire that it takes at each instant: where that one is empty, it is empty too.
    pub next: u32,
    /// The wire of its slope, if it moves in flows.
    pub slope: Option<u32>,
    /// The position that a fault of its move names.
    pub at: Pos,
}
