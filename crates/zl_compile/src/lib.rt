//! The rules of a file, from its bytes to the grades of its flat form, in the order in which they are tried.
#![tactic(auto)]

mod answer;
mod file;
pub mod laws;
mod stages;
mod text;

pub use answer::CompileAnswer;
pub use file::{Accepted, accept, check};
