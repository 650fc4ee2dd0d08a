//! The rule on `main`.
#![tactic(auto, using(crate::proofs::ResultLemmas::result_steps))]

ghost use Rattle.std.specs.Prelude.{◌≡◌};
ghost use Rattle.zl_ast.specs.NamesRules as rules;
ghost use Rattle.zl_ast.specs.NamesRules.{results_broken, main_broken};
ghost use Rattle.zl_names.specs.Earliest.{earliest};

use crate::first::First;
use zl_ast::{Decl, DeclKind, Expr, NameSet, place_of};
use zl_value::Rule;

/// Whether the expression is one of these variables.
fn is_variable(visible: &NameSet, expr: &Expr) -> bool
    ensures { result ≡ rules.is_variable visible.now expr.now }
{
    match expr {
        Expr::Var(name) => visible.contains(name.id),
        Expr::Lit { .. } => false,
        Expr::Last { .. } => false,
        Expr::Call { .. } => false,
        Expr::Prefix { .. } => false,
        Expr::Chain { .. } => false,
        Expr::Flow { .. } => false,
        Expr::If { .. } => false,
    }
}

fn note_results(visible: &NameSet, results: &[Expr], first: &mut First)
    ensures { first.new.found ≡ earliest first.old.found (results_broken visible.now results.now) }
{
    for expr in results {
        first.note_if(!is_variable(visible, expr), Rule::Main, place_of(expr));
    }
}

fn is_hybrid(kind: DeclKind) -> bool
    ensures { result ≡ rules.is_hybrid kind }
{
    match kind {
        DeclKind::Hybrid => true,
        _ => false,
    }
}

/// Takes note of what a declaration of `main` breaks.
pub(crate) fn note_main(visible: &NameSet, decl: &Decl, first: &mut First)
    ensures { first.new.found ≡ earliest first.old.found (main_broken visible.now decl.now) }
{
    first.note_if(!is_hybrid(decl.kind), Rule::Main, decl.name.at);
    note_results(visible, decl.results.as_slice(), first);
}
