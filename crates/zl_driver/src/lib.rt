//! The run of a program, instant by instant, with its lines.
#![tactic(auto)]

mod end;
mod horizon;
mod lines;
mod puts;
mod thin;

pub use end::{End, RunAnswer};
pub use horizon::read_horizon;
pub use puts::put_all;
pub use thin::run_thin;
