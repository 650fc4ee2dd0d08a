//! The constraints in expressions.
#![tactic(auto, using(crate::proofs::ConstraintLemmas::constraint_steps))]

ghost use Rattle.std.specs.Prelude.{◌≡◌, [], ◌∷◌, ◌++◌, map, OnOk};
ghost use Rattle.zl_ast.specs.NamesRules as rules;
ghost use Rattle.zl_ast.specs.Names as words;
ghost use Rattle.zl_ast.specs.Initialised as spec;
ghost use Rattle.zl_ast.specs.Initialised.{ask, ask_each, late_where_each, read_constraint, last_constraints, call_constraints, prefix_constraints, flow_constraints, expr_constraints, exprs_constraints, link_constraints, links_of};
ghost use Rattle.zl_init.specs.Kept.{known_of, free_of};

use crate::known::{Free, Known};
use std::alloc::AllocError;
use zl_ast::{Asked, Expr, FlowOp, Link, Name, Prefix, Requirement, place_of};
use zl_value::Pos;

/// Adds a constraint of the construct at the one place, on what stands at the other.
pub(crate) fn push(
    at: Pos,
    node: Pos,
    asked: Asked,
    out: &mut Vec<Requirement>,
) -> Result<(), AllocError>
    ensures { OnOk result (out.new.items ≡ out.old.items ++ ask at node asked ∷ []) }
{
    out.push(Requirement { at, node, asked })?;
    Ok(())
}

/// Adds that each of the expressions has to be early.
pub(crate) fn push_early_each(
    at: Pos,
    exprs: &[Expr],
    out: &mut Vec<Requirement>,
) -> Result<(), AllocError>
    ensures { OnOk result (out.new.items ≡ out.old.items ++ ask_each at Asked.Early (map rules.place_of exprs.now)) }
{
    for expr in exprs {
        push(at, place_of(expr), Asked::Early, out)?;
    }
    Ok(())
}

/// Adds that what stands at the place is late where one of the expressions is.
fn push_late_where_each(
    at: Pos,
    exprs: &[Expr],
    out: &mut Vec<Requirement>,
) -> Result<(), AllocError>
    ensures { OnOk result (out.new.items ≡ out.old.items ++ late_where_each at (map rules.place_of exprs.now)) }
{
    for expr in exprs {
        push(at, at, Asked::LateWhere(place_of(expr)), out)?;
    }
    Ok(())
}

fn push_read(known: &Known, name: Name, out: &mut Vec<Requirement>) -> Result<(), AllocError>
    ensures { OnOk result (out.new.items ≡ out.old.items ++ read_constraint ((known_of known.now).place name.id) name.at ∷ []) }
{
    match known.place(name.id) {
        Some(place) => push(name.at, name.at, Asked::LateWhere(place), out),
        None => push(name.at, name.at, Asked::Early, out),
    }
}

fn early_or_late(early: bool) -> Asked
    ensures { result ≡ spec.early_or_late early }
{
    if early { Asked::Early } else { Asked::Late }
}

fn push_last(
    known: &Known,
    free: &Free,
    name: Name,
    at: Pos,
    out: &mut Vec<Requirement>,
) -> Result<(), AllocError>
    ensures { OnOk result (out.new.items ≡ out.old.items ++ last_constraints (known_of known.now) name at (free_of free.now)) }
{
    if let Some(place) = known.place(name.id) {
        push(at, place, Asked::Early, out)?;
    }
    let early = known.anchored.contains(name.id) || free.has(name.id);
    push(at, at, early_or_late(early), out)
}

fn push_call(
    known: &Known,
    name: Name,
    args: &[Expr],
    out: &mut Vec<Requirement>,
) -> Result<(), AllocError>
    ensures { OnOk result (out.new.items ≡ out.old.items ++ call_constraints (words.is_built_in (known_of known.now).names name.id) name.at (map rules.place_of args.now)) }
{
    if known.is_built_in(name.id) {
        push_late_where_each(name.at, args, out)
    } else {
        push(name.at, name.at, Asked::Early, out)?;
        push_early_each(name.at, args, out)
    }
}

fn push_prefix(op: Prefix, at: Pos, arg: Pos, out: &mut Vec<Requirement>) -> Result<(), AllocError>
    ensures { OnOk result (out.new.items ≡ out.old.items ++ prefix_constraints op at arg) }
{
    match op {
        Prefix::Pre => {
            push(at, at, Asked::Late, out)?;
            push(at, arg, Asked::Early, out)
        }
        _ => push(at, at, Asked::LateWhere(arg), out),
    }
}

fn push_flow(
    op: FlowOp,
    at: Pos,
    left: Pos,
    right: Pos,
    out: &mut Vec<Requirement>,
) -> Result<(), AllocError>
    ensures { OnOk result (out.new.items ≡ out.old.items ++ flow_constraints op at left right) }
{
    push(at, at, Asked::LateWhere(left), out)?;
    match op {
        FlowOp::Arrow => Ok(()),
        FlowOp::Fby => push(at, right, Asked::Early, out),
    }
}

/// Adds the constraints in an expression.
#[cycle(constraints)]
pub(crate) fn push_expr(
    known: &Known,
    free: &Free,
    expr: &Expr,
    out: &mut Vec<Requirement>,
) -> Result<(), AllocError>
    ensures { OnOk result (out.new.items ≡ out.old.items ++ expr_constraints (known_of known.now) expr.now (free_of free.now)) }
{
    match expr {
        Expr::Lit { at, .. } => push(*at, *at, Asked::Early, out),
        Expr::Var(name) => push_read(known, *name, out),
        Expr::Last { name, at } => push_last(known, free, *name, *at, out),
        Expr::Call { name, args } => {
            push_call(known, *name, args.as_slice(), out)?;
            push_exprs(known, free, args.as_slice(), out)
        }
        Expr::Prefix { op, at, arg } => {
            push_prefix(*op, *at, place_of(arg.get()), out)?;
            push_expr(known, free, arg.get(), out)
        }
        Expr::Chain { first, rest } => {
            push_expr(known, free, first.get(), out)?;
            push_links(known, free, place_of(first.get()), rest.as_slice(), out)
        }
        Expr::Flow {
            op,
            at,
            left,
            right,
        } => {
            push_expr(known, free, left.get(), out)?;
            push_flow(*op, *at, place_of(left.get()), place_of(right.get()), out)?;
            push_expr(known, free, right.get(), out)
        }
        Expr::If { at, cond, yes, no } => {
            push(*at, *at, Asked::LateWhere(place_of(cond.get())), out)?;
            push(*at, *at, Asked::LateWhere(place_of(yes.get())), out)?;
            push(*at, *at, Asked::LateWhere(place_of(no.get())), out)?;
            push_expr(known, free, cond.get(), out)?;
            push_expr(known, free, yes.get(), out)?;
            push_expr(known, free, no.get(), out)
        }
    }
}

#[cycle(constraints)]
pub(crate) fn push_exprs(
    known: &Known,
    free: &Free,
    exprs: &[Expr],
    out: &mut Vec<Requirement>,
) -> Result<(), AllocError>
    ensures { OnOk result (out.new.items ≡ out.old.items ++ exprs_constraints (known_of known.now) exprs.now (free_of free.now)) }
{
    for expr in exprs {
        push_expr(known, free, expr, out)?;
    }
    Ok(())
}

/// Adds the constraints of an operator and in its right operand, by the place of its left one.
#[cycle(constraints)]
fn push_link(
    known: &Known,
    free: &Free,
    left: Pos,
    link: &Link,
    out: &mut Vec<Requirement>,
) -> Result<(), AllocError>
    ensures { OnOk result (out.new.items ≡ out.old.items ++ link_constraints (known_of known.now) link.now left (free_of free.now)) }
{
    push(link.at, link.at, Asked::LateWhere(left), out)?;
    push(link.at, link.at, Asked::LateWhere(place_of(&link.arg)), out)?;
    push_expr(known, free, &link.arg, out)
}

#[cycle(constraints)]
fn push_links(
    known: &Known,
    free: &Free,
    begin: Pos,
    links: &[Link],
    out: &mut Vec<Requirement>,
) -> Result<(), AllocError>
    ensures { OnOk result (out.new.items ≡ out.old.items ++ links_of (known_of known.now) begin links.now (free_of free.now)) }
{
    let mut left = begin;
    for link in links {
        push_link(known, free, left, link, out)?;
        left = link.at;
    }
    Ok(())
}
