//! The rules of names, and the scopes of a program that keeps them.
#![tactic(auto)]

mod check;
mod defined;
mod first;
mod known;
mod main_rule;
mod outline;
mod repeats;
mod used;
mod used_eqn;
mod variables;

pub use check::check_names;
