use zl_value::{Frac, Sequence, Set};

/// A line at a time.
#[derive(Debug, Drop)]
pub(crate) struct AtLine {
    pub(crate) line: u32,
    pub(crate) time: Frac,
    /// What the line sets. `None` where a name or a value is at fault.
    pub(crate) sets: Option<Sequence<Set>>,
}
