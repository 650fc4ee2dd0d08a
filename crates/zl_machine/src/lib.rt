//! The machine that runs a code: its statements as instructions, and the loop over them.
#![tactic(auto)]

mod cells;
mod decoding;
mod execution;
mod instr;
mod lacking;
mod machine;
mod method;
mod mode;
mod moving;
mod operator;
mod outcome;

pub use machine::Machine;
pub use mode::Mode;
pub use outcome::{FlowOutcome, Outcome, SiteView};
