//! What defines a place.
use zl_meaning::Definer;

/// A definer, with the place that it defines.
#[derive(Debug, Drop)]
pub struct Given {
    /// The number of the place.
    pub place: u32,
    pub definer: Definer,
}
