//! The code of a kernel: an order of its wires, and the statements that solve them in it.
#![tactic(auto)]

mod entry;
mod flow_wires;
mod generation;
mod guards;
pub mod laws;
mod marks;
mod needs;
mod order;
mod statements;
pub mod worked;

pub use generation::generate;
pub use order::{Order, schedule};
