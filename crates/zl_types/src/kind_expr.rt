//! The kinds of expressions.
#![tactic(auto, using(crate::proofs::KindExprLemmas::expr_steps))]

ghost use Rattle.std.specs.Prelude.{◌≡◌, map};
ghost use Rattle.zl_ast.specs.Kinds.{expr_misplaced, exprs_misplaced, link_misplaced, all_misplaced};
ghost use Rattle.zl_types.specs.Contexts.{context_of, declared_of};
ghost use Rattle.zl_types.specs.ContextsFirst.{earliest};

use crate::kind_context::Context;
use crate::kind_declared::Declared;
use crate::kind_first::First;
use zl_ast::{Expr, Link};

/// Takes note of the misplaced constructs in an expression.
#[cycle(misplaced)]
pub(crate) fn note_expr(declared: &Declared, context: Context, expr: &Expr, first: &mut First)
    ensures { first.new.found ≡ earliest first.old.found (expr_misplaced (declared_of declared.now) expr.now (context_of context)) }
{
    match expr {
        Expr::Lit { .. } => {}
        Expr::Var(_) => {}
        Expr::Last { at, .. } => first.note_unless(context.allows_last(), *at),
        Expr::Call { name, args } => {
            let callee = declared.kind(name.id);
            first.note_unless(context.allows_call(callee), name.at);
            note_exprs(
                declared,
                context.of_arguments(callee),
                args.as_slice(),
                first,
            );
        }
        Expr::Prefix { op, at, arg } => {
            first.note_unless(context.allows_prefix(*op), *at);
            note_expr(declared, context.of_operand(*op), arg.get(), first);
        }
        Expr::Chain { first: left, rest } => {
            note_expr(declared, context, left.get(), first);
            note_links(declared, context, rest.as_slice(), first);
        }
        Expr::Flow {
            at,
            left,
            right,
            ..
        } => {
            note_expr(declared, Context::Discrete, left.get(), first);
            first.note_unless(context.is_discrete(), *at);
            note_expr(declared, Context::Discrete, right.get(), first);
        }
        Expr::If { cond, yes, no, .. } => {
            note_expr(declared, context, cond.get(), first);
            note_expr(declared, context.of_branches(), yes.get(), first);
            note_expr(declared, context.of_branches(), no.get(), first);
        }
    }
}

/// Takes note of the misplaced constructs in several expressions.
#[cycle(misplaced)]
pub(crate) fn note_exprs(declared: &Declared, context: Context, exprs: &[Expr], first: &mut First)
    ensures { first.new.found ≡ earliest first.old.found (exprs_misplaced (declared_of declared.now) exprs.now (context_of context)) }
{
    for expr in exprs {
        note_expr(declared, context, expr, first);
    }
}

#[cycle(misplaced)]
fn note_links(declared: &Declared, context: Context, links: &[Link], first: &mut First)
    ensures { first.new.found ≡ earliest first.old.found (all_misplaced (map (link_misplaced (declared_of declared.now)) links.now) (context_of context)) }
{
    for link in links {
        note_expr(declared, context, &link.arg, first);
    }
}
