//! Why a file is not accepted.
use zl_value::{Pos, Rule};

/// Why a file is not accepted.
#[derive(Clone, Copy, Debug, PartialEq, Eq)]
pub enum CompileAnswer {
    /// This is the first rule that the file breaks, and it breaks it at this place.
    Refused { rule: Rule, at: Pos },
    /// There is no memory.
    Memory,
}
