//! The code of a program, and the meaning of the machine that runs it, as definitions.
#![tactic(auto)]

mod code;
pub mod laws;
mod stmt;
pub mod worked;

pub use code::{CMem, CSite, Code};
pub use stmt::{Found, OpFault, Stmt};
