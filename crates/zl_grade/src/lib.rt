//! How the numbers of a flat form move in flows: the grades of its occurrences and places, or the first occurrence that moves in
//! a way that its program's rule forbids.
#![tactic(auto)]

mod apart;
mod children;
mod equations;
mod first;
mod graded;
mod grading;
mod links;
mod needs;
mod node;
mod reached;
mod readers;
mod table;
pub mod worked;

pub use grading::grades;
pub use zl_meaning::Grades;
