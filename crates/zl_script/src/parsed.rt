use crate::at_line::AtLine;
use zl_value::{Frac, Sequence};

/// What the lines of a text say, before their order and their inputs are looked at.
#[derive(Debug, Drop)]
pub(crate) struct Parsed {
    /// The line of the horizon.
    pub(crate) line: u32,
    pub(crate) horizon: Frac,
    pub(crate) steps: u32,
    pub(crate) lines: Sequence<AtLine>,
}
