//! The tree of a file's tokens.
#![tactic(auto)]

mod answer;
mod cond;
mod decl;
mod eqn;
mod expr;
mod list;
mod moves;
mod names;
mod operator;
mod stop;
mod token;
mod tree;
mod variable;

pub use answer::ParseAnswer;
pub use tree::parse;
