//! The tree of a program, and the grammar: which lists of tokens have which tree.
#![tactic(auto)]

mod constraint;
mod eqn;
mod expr;
pub mod laws;
mod name;
mod name_set;
mod operator;
mod place;
mod program;
pub mod rules;
mod scope;

pub use constraint::{Asked, Equality, Requirement, Side};
pub use eqn::{Arm, Body, Cond, Eqn, Move, ResetArm, State, Up};
pub use expr::{Expr, Link};
pub use name::Name;
pub use name_set::NameSet;
pub use operator::{FlowOp, Infix, Prefix};
pub use place::place_of;
pub use program::{Decl, DeclKind, Param, Program};
pub use scope::{Scopes, Typing, VarClass, VarInfo};
