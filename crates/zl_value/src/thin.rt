use crate::{Frac, Pos, Text};

/// A program of one variable whose derivative is a constant: `der name = slope init start`.
#[derive(Debug, Drop)]
pub struct Thin {
    pub name: Text,
    /// Where the name stands behind `der`.
    pub at: Pos,
    pub slope: Frac,
    pub start: Frac,
}
