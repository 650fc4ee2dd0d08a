//! Chains of no operator.
ghost use Rattle.std.specs.Prelude.{◌≡◌, true};
ghost use Rattle.zl_expand.specs.Linked.{is_linked, AreSame};

use zl_ast::Expr;

/// What an expression is: a chain of no operator is its first operand.
#[tactic(auto, using(crate::proofs::LinkedLemmas::linking))]
pub(crate) fn unlinked(expr: &Expr) -> &Expr
    ensures same { AreSame expr.now result.now }
    ensures linked { is_linked result.now ≡ true }
{
    match expr {
        Expr::Chain { first, rest } => {
            if rest.as_slice().is_empty() {
                unlinked(first.get())
            } else {
                expr
            }
        }
        Expr::Lit { .. }
        | Expr::Var(_)
        | Expr::Last { .. }
        | Expr::Call { .. }
        | Expr::Prefix { .. }
        | Expr::Flow { .. }
        | Expr::If { .. } => expr,
    }
}
