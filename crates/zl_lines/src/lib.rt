//! The lines of a trace, written one after another into one room.
#![tactic(auto)]

mod names;
mod pieces;
mod room;

pub use room::LineRoom;
