//! How long a flow lasts: until the first of its lines reaches zero, or to a cap.
#![tactic(auto)]

mod answer;
mod crossing;
pub mod laws;

pub use answer::{By, First};
pub use crossing::first;
