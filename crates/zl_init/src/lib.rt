//! The rule of initialisation: whether each variable and each result has a value from the first instant on.
#![tactic(auto)]

mod anchored;
mod check;
mod eqn;
mod expr;
mod followers;
mod known;
mod marks;
mod name_set;
mod requirements;
mod solve;

pub use check::check_init;
