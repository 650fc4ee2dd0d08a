//! Graphs of numbered nodes: which nodes lead to themselves, and numbers that grow along every link where none does.
#![tactic(auto)]

mod circles;
mod counts;
mod graph;
mod marks;
mod parts;
mod walk;

pub use circles::Circles;
pub use graph::Link;
