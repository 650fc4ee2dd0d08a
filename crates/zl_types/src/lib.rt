//! The rules of types and kinds, and the types of the variables of a program that keeps them.
#![tactic(auto)]

mod check;
mod classes;
mod environment;
mod eqn_equalities;
mod equalities;
mod equality_list;
mod expr_equalities;
mod forest;
mod kind;
mod kind_context;
mod kind_declared;
mod kind_eqn;
mod kind_expr;
mod kind_first;
mod solve;

pub use check::check_types;
