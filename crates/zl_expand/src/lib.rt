//! The flat form of a program: each call is a copy of the called body.
#![tactic(auto)]

mod copy;
mod decls;
mod eqn_size;
mod eqns;
mod expansion;
mod expr_size;
mod flat;
mod instance;
mod known;
mod limits;
mod linked;
mod name_index;
mod numbering;
mod operators;
mod parts;
mod states;
mod tables;
mod tests_of;
mod texts;
mod walk;
mod walker;

pub use flat::expand;
