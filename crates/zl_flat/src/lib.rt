//! What a program expands to: the flat form of a program and its counts, as definitions, and what is proved of them.
#![tactic(auto)]

mod given;
mod here;
pub mod laws;
mod size;
mod variable;

pub use given::Given;
pub use here::{Here, Root};
pub use size::Size;
pub use variable::Variable;
