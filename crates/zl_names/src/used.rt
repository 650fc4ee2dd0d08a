//! The uses of names in expressions.
ghost use Rattle.std.specs.Prelude.{◌≡◌, length};
ghost use Rattle.zl_ast.specs.NamesUsed.{read_broken, last_broken, call_broken, expr_uses, values_uses, link_uses, all_uses};
ghost use Rattle.std.specs.Prelude.{map};
ghost use Rattle.zl_names.specs.Kept.{known_of};
ghost use Rattle.zl_names.specs.Earliest.{earliest};

use crate::first::First;
use crate::known::Known;
use zl_ast::{Expr, Link, Name, NameSet};
use zl_value::{Pos, Rule};

fn note_read(known: &Known, visible: &NameSet, name: Name, first: &mut First)
    ensures { first.new.found ≡ earliest first.old.found (read_broken visible.now known.now.constants name) }
{
    let is_known = visible.contains(name.id) || known.constants.contains(name.id);
    first.note_if(!is_known, Rule::NameUnknown, name.at);
}

#[tactic(auto, using(crate::proofs::EarliestLemmas::noting))]
fn note_last(known: &Known, visible: &NameSet, name: Name, at: Pos, first: &mut First)
    ensures { first.new.found ≡ earliest first.old.found (last_broken visible.now known.now.parameters name at) }
{
    first.note_if(!visible.contains(name.id), Rule::NameUnknown, name.at);
    first.note_if(known.parameters.contains(name.id), Rule::Last, at);
}

fn note_call(known: &Known, name: Name, arguments: usize, results: usize, first: &mut First)
    ensures { first.new.found ≡ earliest first.old.found (call_broken ((known_of known.now).signature name.id) name arguments results) }
{
    match known.signature(name.id) {
        Some((takes, gives)) => {
            let fits = arguments == takes && results == gives;
            first.note_if(!fits, Rule::Arity, name.at);
        }
        None => first.note(Rule::NameUnknown, name.at),
    }
}

/// Takes note of what an expression breaks of which so many results are wanted.
#[cycle(uses)]
#[tactic(auto, using(crate::proofs::UsesLemmas::uses))]
pub(crate) fn note_expr(
    known: &Known,
    visible: &NameSet,
    expr: &Expr,
    results: usize,
    first: &mut First,
)
    ensures { first.new.found ≡ earliest first.old.found (expr_uses (known_of known.now) expr.now results visible.now) }
{
    match expr {
        Expr::Lit { .. } => {}
        Expr::Var(name) => note_read(known, visible, *name, first),
        Expr::Last { name, at } => note_last(known, visible, *name, *at, first),
        Expr::Call { name, args } => {
            let args = args.as_slice();
            note_call(known, *name, args.len(), results, first);
            note_exprs(known, visible, args, first);
        }
        Expr::Prefix { arg, .. } => note_expr(known, visible, arg.get(), 1, first),
        Expr::Chain { first: left, rest } => {
            note_expr(known, visible, left.get(), 1, first);
            note_links(known, visible, rest.as_slice(), first);
        }
        Expr::Flow { left, right, .. } => {
            note_expr(known, visible, left.get(), 1, first);
            note_expr(known, visible, right.get(), 1, first);
        }
        Expr::If { cond, yes, no, .. } => {
            note_expr(known, visible, cond.get(), 1, first);
            note_expr(known, visible, yes.get(), 1, first);
            note_expr(known, visible, no.get(), 1, first);
        }
    }
}

#[cycle(uses)]
#[tactic(auto, using(crate::proofs::UsesLemmas::uses))]
pub(crate) fn note_exprs(known: &Known, visible: &NameSet, exprs: &[Expr], first: &mut First)
    ensures { first.new.found ≡ earliest first.old.found (values_uses (known_of known.now) exprs.now visible.now) }
{
    for expr in exprs {
        note_expr(known, visible, expr, 1, first);
    }
}

#[cycle(uses)]
#[tactic(auto, using(crate::proofs::UsesLemmas::uses))]
fn note_links(known: &Known, visible: &NameSet, links: &[Link], first: &mut First)
    ensures { first.new.found ≡ earliest first.old.found (all_uses (map (link_uses (known_of known.now)) links.now) visible.now) }
{
    for link in links {
        note_expr(known, visible, &link.arg, 1, first);
    }
}
