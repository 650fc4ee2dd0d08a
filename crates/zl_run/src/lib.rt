//! The run of a code with a script: the machine's calls in their order, and the lines of the trace, one put each.
#![tactic(auto)]

mod begin;
mod clock;
mod driving;
mod end;
mod firing;
mod flowing;
mod inputs;
pub mod laws;
mod put;
mod stop;
mod track;

pub use driving::run;
pub use end::{End, RunAnswer};
