use crate::Frac;

/// A line: the value of a zero-crossing's argument at the begin of a flow, and how much it grows in a unit of time.
#[derive(Clone, Copy, Debug, PartialEq, Eq)]
pub struct Line {
    pub value: Frac,
    pub slope: Frac,
}
