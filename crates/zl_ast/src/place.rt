//! The places of expressions.
#![tactic(auto, using(crate::proofs::PlaceLemmas::place_steps))]

ghost use Rattle.std.specs.Prelude.{◌≡◌, map};
ghost use Rattle.zl_ast.specs.NamesRules as rules;
ghost use Rattle.zl_ast.specs.declared.expr.Link.{out-Link};

use crate::{Expr, Link};
use zl_value::Pos;

/// The place of the last operator, or of what stands before the operators where there is none.
fn last_place(begin: Pos, links: &[Link]) -> Pos
    ensures { result ≡ rules.last_place begin (map (λ l. (out-Link l).at) links.now) }
{
    let mut at = begin;
    for link in links {
        at = link.at;
    }
    at
}

/// The place of an expression: that of its outermost operator, in a chain the last one, or else of its first token.
pub fn place_of(expr: &Expr) -> Pos
    ensures { result ≡ rules.place_of expr.now }
{
    match expr {
        Expr::Lit { at, .. } => *at,
        Expr::Var(name) => name.at,
        Expr::Last { at, .. } => *at,
        Expr::Call { name, .. } => name.at,
        Expr::Prefix { at, .. } => *at,
        Expr::Chain { first, rest } => last_place(place_of(first.get()), rest.as_slice()),
        Expr::Flow { at, .. } => *at,
        Expr::If { at, .. } => *at,
    }
}
