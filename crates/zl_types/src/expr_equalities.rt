//! The equalities of types that an expression gives.
#![tactic(auto, using(crate::proofs::ExprLemmas::expr_steps))]

ghost use Rattle.std.specs.Prelude.{◌≡◌, ◌++◌, map, OnOk};
ghost use Rattle.zl_ast.specs.NamesRules as rules;
ghost use Rattle.zl_ast.specs.TypeEqualities as spec;
ghost use Rattle.zl_ast.specs.TypeEqualities.{same_pairs, from_to, built_in_call, call_equalities, prefix_equalities, infix_equalities, if_equalities, links_equalities, link_part, expr_equalities, exprs_equalities};
ghost use Rattle.zl_types.specs.Environments.{environment_of};

use crate::environment::Environment;
use crate::equality_list::EqualityList;
use std::alloc::AllocError;
use zl_ast::{Expr, Infix, Link, Name, Prefix, place_of};
use zl_value::{Pos, Ty, Value};

fn type_of(value: Value) -> Ty
    ensures { result ≡ spec.type_of value }
{
    match value {
        Value::B(_) => Ty::Bool,
        Value::I(_) => Ty::Int,
        Value::F(_) => Ty::Float,
    }
}

/// The one type of an operator's operands and result. A comparison has none.
fn type_of_all(op: Infix) -> Option<Ty>
    ensures { result ≡ spec.type_of_all op }
{
    match op {
        Infix::Or => Some(Ty::Bool),
        Infix::And => Some(Ty::Bool),
        Infix::Equal => None,
        Infix::Unequal => None,
        Infix::Less => None,
        Infix::AtMost => None,
        Infix::Greater => None,
        Infix::AtLeast => None,
        Infix::Plus => Some(Ty::Int),
        Infix::Minus => Some(Ty::Int),
        Infix::PlusDot => Some(Ty::Float),
        Infix::MinusDot => Some(Ty::Float),
        Infix::Star => Some(Ty::Int),
        Infix::Slash => Some(Ty::Int),
        Infix::Mod => Some(Ty::Int),
        Infix::StarDot => Some(Ty::Float),
        Infix::SlashDot => Some(Ty::Float),
    }
}

fn push_prefix(list: &mut EqualityList, op: Prefix, at: Pos, arg: Pos) -> Result<(), AllocError>
    ensures { OnOk result (list.new ≡ list.old ++ prefix_equalities op at arg) }
{
    match op {
        Prefix::Minus => list.fix_both(at, Ty::Int, arg, at),
        Prefix::MinusDot => list.fix_both(at, Ty::Float, arg, at),
        Prefix::Not => list.fix_both(at, Ty::Bool, arg, at),
        Prefix::Pre => list.tie(at, at, arg),
    }
}

fn push_infix(
    list: &mut EqualityList,
    ty: Option<Ty>,
    left: Pos,
    at: Pos,
    right: Pos,
) -> Result<(), AllocError>
    ensures { OnOk result (list.new ≡ list.old ++ infix_equalities ty left at right) }
{
    match ty {
        Some(ty) => {
            list.fix_both(at, ty, left, right)?;
            list.fix(at, ty, at)
        }
        None => {
            list.tie(at, left, right)?;
            list.fix(at, Ty::Bool, at)
        }
    }
}

fn push_if(
    list: &mut EqualityList,
    at: Pos,
    cond: Pos,
    yes: Pos,
    other: Pos,
) -> Result<(), AllocError>
    ensures { OnOk result (list.new ≡ list.old ++ if_equalities at cond yes other) }
{
    list.fix(at, Ty::Bool, cond)?;
    list.tie_both(at, yes, other)
}

/// Arguments as parameters.
fn push_arguments(
    list: &mut EqualityList,
    at: Pos,
    args: &[Expr],
    params: &[Pos],
) -> Result<(), AllocError>
    ensures { OnOk result (list.new ≡ list.old ++ same_pairs at (map rules.place_of args.now) params.now) }
{
    let mut index = 0;
    for arg in args {
        if index >= params.len() {
            break;
        }
        list.tie(at, place_of(arg), params[index])?;
        index += 1;
    }
    Ok(())
}

/// A call of a function from one type to another.
fn push_from_to(
    list: &mut EqualityList,
    from: Ty,
    to: Ty,
    at: Pos,
    args: &[Expr],
) -> Result<(), AllocError>
    ensures { OnOk result (list.new ≡ list.old ++ from_to from to at (map rules.place_of args.now)) }
{
    for arg in args {
        list.fix(at, from, place_of(arg))?;
    }
    list.fix(at, to, at)
}

fn push_built_in_call(
    list: &mut EqualityList,
    env: &Environment,
    name: Name,
    args: &[Expr],
) -> Result<(), AllocError>
    ensures { OnOk result (list.new ≡ list.old ++ built_in_call (environment_of env.now).names name (map rules.place_of args.now)) }
{
    if env.has_text(name.id, "float_of_int") {
        push_from_to(list, Ty::Int, Ty::Float, name.at, args)
    } else if env.has_text(name.id, "truncate") {
        push_from_to(list, Ty::Float, Ty::Int, name.at, args)
    } else {
        Ok(())
    }
}

fn push_call(
    list: &mut EqualityList,
    env: &Environment,
    name: Name,
    args: &[Expr],
) -> Result<(), AllocError>
    ensures { OnOk result (list.new ≡ list.old ++ call_equalities (environment_of env.now) name (map rules.place_of args.now) ((environment_of env.now).declared name.id)) }
{
    match env.signature(name.id) {
        Some(signature) => {
            push_arguments(list, name.at, args, signature.params())?;
            list.tie_found(name.at, name.at, signature.first_result())
        }
        None => push_built_in_call(list, env, name, args),
    }
}

/// Adds the equalities of an expression.
#[cycle(expr_equalities)]
pub(crate) fn push_expr(
    list: &mut EqualityList,
    env: &Environment,
    expr: &Expr,
) -> Result<(), AllocError>
    ensures { OnOk result (list.new ≡ list.old ++ expr_equalities (environment_of env.now) expr.now) }
{
    match expr {
        Expr::Lit { value, at } => list.fix(*at, type_of(*value), *at),
        Expr::Var(name) => list.tie_found(name.at, name.at, env.read(name.id)),
        Expr::Last { name, at } => list.tie_found(*at, *at, env.variable(name.id)),
        Expr::Call { name, args } => {
            let args = args.as_slice();
            push_call(list, env, *name, args)?;
            push_exprs(list, env, args)
        }
        Expr::Prefix { op, at, arg } => {
            push_prefix(list, *op, *at, place_of(arg.get()))?;
            push_expr(list, env, arg.get())
        }
        Expr::Chain { first, rest } => {
            push_expr(list, env, first.get())?;
            push_links(list, env, place_of(first.get()), rest.as_slice())
        }
        Expr::Flow {
            at,
            left,
            right,
            ..
        } => {
            push_expr(list, env, left.get())?;
            list.tie_both(*at, place_of(left.get()), place_of(right.get()))?;
            push_expr(list, env, right.get())
        }
        Expr::If { at, cond, yes, no } => {
            push_if(
                list,
                *at,
                place_of(cond.get()),
                place_of(yes.get()),
                place_of(no.get()),
            )?;
            push_expr(list, env, cond.get())?;
            push_expr(list, env, yes.get())?;
            push_expr(list, env, no.get())
        }
    }
}

/// Adds the equalities of expressions.
#[cycle(expr_equalities)]
pub(crate) fn push_exprs(
    list: &mut EqualityList,
    env: &Environment,
    exprs: &[Expr],
) -> Result<(), AllocError>
    ensures { OnOk result (list.new ≡ list.old ++ exprs_equalities (environment_of env.now) exprs.now) }
{
    for expr in exprs {
        push_expr(list, env, expr)?;
    }
    Ok(())
}

/// Adds the equalities of operators behind a left operand with this place.
#[cycle(expr_equalities)]
fn push_links(
    list: &mut EqualityList,
    env: &Environment,
    begin: Pos,
    links: &[Link],
) -> Result<(), AllocError>
    ensures { OnOk result (list.new ≡ list.old ++ links_equalities begin (map (link_part (environment_of env.now)) links.now)) }
{
    let mut left = begin;
    for link in links {
        push_infix(
            list,
            type_of_all(link.op),
            left,
            link.at,
            place_of(&link.arg),
        )?;
        push_expr(list, env, &link.arg)?;
        left = link.at;
    }
    Ok(())
}
