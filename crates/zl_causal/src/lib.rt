//! Which places and blocks of a flat form depend on themselves, and ranks of them where none does.
#![tactic(auto)]

mod links;
mod node;
mod ranking;

pub use ranking::ranks;
