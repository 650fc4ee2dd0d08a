//! The equalities of types that equations give.
#![tactic(auto, using(crate::proofs::EqnLemmas::eqn_steps))]

ghost use Rattle.std.specs.Prelude.{◌≡◌, ◌++◌, map, OnOk};
ghost use Rattle.zl_value.specs.declared.value.Ty.TheVariants as ty;
ghost use Rattle.zl_ast.specs.Assignments.{joined};
ghost use Rattle.zl_ast.specs.NamesRules as rules;
ghost use Rattle.zl_ast.specs.TypeEqualities as spec;
ghost use Rattle.zl_ast.specs.TypeEqualities.{fixed, names_equalities, several_equalities, sides_equalities, der_places, start_places, reset_places, up_equalities, ups_equalities, test_equalities, cond_equalities, start_equalities, reset_arm_equalities, moves_equalities, eqn_equalities, arm_equalities, body_equalities, state_equalities, other_equalities, eqns_equalities};
ghost use Rattle.zl_types.specs.Environments.{environment_of};

use crate::environment::Environment;
use crate::equality_list::EqualityList;
use crate::expr_equalities::push_expr;
use std::alloc::AllocError;
use zl_ast::{Arm, Body, Cond, Eqn, Expr, Move, Name, ResetArm, State, Up, place_of};
use zl_value::{Pos, Ty};

/// The name that the expression calls, if it is a call.
fn called(expr: &Expr) -> Option<Name>
    ensures { result ≡ spec.called expr.now }
{
    match expr {
        Expr::Call { name, .. } => Some(*name),
        Expr::Lit { .. } => None,
        Expr::Var(_) => None,
        Expr::Last { .. } => None,
        Expr::Prefix { .. } => None,
        Expr::Chain { .. } => None,
        Expr::Flow { .. } => None,
        Expr::If { .. } => None,
    }
}

/// Names on the left of a call, each as the result that it stands for.
fn push_names(
    list: &mut EqualityList,
    env: &Environment,
    at: Pos,
    names: &[Name],
    results: &[Pos],
) -> Result<(), AllocError>
    ensures { OnOk result (list.new ≡ list.old ++ names_equalities (environment_of env.now) at names.now results.now) }
{
    let mut index = 0;
    for name in names {
        if index >= results.len() {
            break;
        }
        list.tie_found(at, results[index], env.variable(name.id))?;
        index += 1;
    }
    Ok(())
}

fn push_several(
    list: &mut EqualityList,
    env: &Environment,
    left: &[Name],
    callee: Option<Name>,
) -> Result<(), AllocError>
    ensures { OnOk result (list.new ≡ list.old ++ several_equalities (environment_of env.now) left.now callee) }
{
    match callee {
        Some(name) => match env.signature(name.id) {
            Some(signature) => push_names(list, env, name.at, left, signature.results()),
            None => Ok(()),
        },
        None => Ok(()),
    }
}

/// The two sides of a plain equation.
fn push_sides(
    list: &mut EqualityList,
    env: &Environment,
    left: &[Name],
    right: &Expr,
) -> Result<(), AllocError>
    ensures { OnOk result (list.new ≡ list.old ++ sides_equalities (environment_of env.now) left.now right.now) }
{
    if left.len() == 1 {
        let name = left[0];
        list.tie_found(name.at, place_of(right), env.variable(name.id))
    } else {
        push_several(list, env, left, called(right))
    }
}

fn push_start_type(list: &mut EqualityList, at: Pos, start: &Option<Expr>) -> Result<(), AllocError>
    ensures { OnOk result (list.new ≡ list.old ++ map (fixed at ty.Float) (start_places start.now)) }
{
    match start {
        Some(value) => list.fix(at, Ty::Float, place_of(value)),
        None => Ok(()),
    }
}

fn push_reset_types(list: &mut EqualityList, at: Pos, resets: &[ResetArm]) -> Result<(), AllocError>
    ensures { OnOk result (list.new ≡ list.old ++ map (fixed at ty.Float) (reset_places resets.now)) }
{
    for reset in resets {
        list.fix(at, Ty::Float, place_of(&reset.value))?;
    }
    Ok(())
}

/// The variable of a `der` and all its parts are float.
fn push_der_types(
    list: &mut EqualityList,
    at: Pos,
    variable: Option<Pos>,
    slope: &Expr,
    start: &Option<Expr>,
    resets: &[ResetArm],
) -> Result<(), AllocError>
    ensures { OnOk result (list.new ≡ list.old ++ map (fixed at ty.Float) (der_places variable slope.now start.now resets.now)) }
{
    if let Some(place) = variable {
        list.fix(at, Ty::Float, place)?;
    }
    list.fix(at, Ty::Float, place_of(slope))?;
    push_start_type(list, at, start)?;
    push_reset_types(list, at, resets)
}

fn push_ups(list: &mut EqualityList, env: &Environment, ups: &[Up]) -> Result<(), AllocError>
    ensures { OnOk result (list.new ≡ list.old ++ ups_equalities (environment_of env.now) ups.now) }
{
    for up in ups {
        list.fix(up.at, Ty::Float, place_of(&up.arg))?;
        push_expr(list, env, &up.arg)?;
    }
    Ok(())
}

fn push_test(
    list: &mut EqualityList,
    env: &Environment,
    at: Pos,
    test: &Expr,
) -> Result<(), AllocError>
    ensures { OnOk result (list.new ≡ list.old ++ test_equalities (environment_of env.now) at test.now) }
{
    list.fix(at, Ty::Bool, place_of(test))?;
    push_expr(list, env, test)
}

fn push_cond(list: &mut EqualityList, env: &Environment, cond: &Cond) -> Result<(), AllocError>
    ensures { OnOk result (list.new ≡ list.old ++ cond_equalities (environment_of env.now) cond.now) }
{
    match cond {
        Cond::Event(ups) => push_ups(list, env, ups.as_slice()),
        Cond::Test { at, arg } => push_test(list, env, *at, arg),
    }
}

fn push_start(
    list: &mut EqualityList,
    env: &Environment,
    start: &Option<Expr>,
) -> Result<(), AllocError>
    ensures { OnOk result (list.new ≡ list.old ++ start_equalities (environment_of env.now) start.now) }
{
    match start {
        Some(value) => push_expr(list, env, value),
        None => Ok(()),
    }
}

fn push_resets(
    list: &mut EqualityList,
    env: &Environment,
    resets: &[ResetArm],
) -> Result<(), AllocError>
    ensures { OnOk result (list.new ≡ list.old ++ joined (map (reset_arm_equalities (environment_of env.now)) resets.now)) }
{
    for reset in resets {
        push_ups(list, env, reset.event.as_slice())?;
        push_expr(list, env, &reset.value)?;
    }
    Ok(())
}

fn push_moves(list: &mut EqualityList, env: &Environment, moves: &[Move]) -> Result<(), AllocError>
    ensures { OnOk result (list.new ≡ list.old ++ moves_equalities (environment_of env.now) moves.now) }
{
    for one in moves {
        push_cond(list, env, &one.cond)?;
    }
    Ok(())
}

#[cycle(eqn_equalities)]
fn push_eqn(list: &mut EqualityList, env: &Environment, eqn: &Eqn) -> Result<(), AllocError>
    ensures { OnOk result (list.new ≡ list.old ++ eqn_equalities (environment_of env.now) eqn.now) }
{
    match eqn {
        Eqn::Plain { left, right } => {
            push_sides(list, env, left.as_slice(), right)?;
            push_expr(list, env, right)
        }
        Eqn::Der {
            at,
            name,
            slope,
            start,
            resets,
        } => {
            let resets = resets.as_slice();
            push_der_types(list, *at, env.variable(name.id), slope, start, resets)?;
            push_expr(list, env, slope)?;
            push_start(list, env, start)?;
            push_resets(list, env, resets)
        }
        Eqn::Start { at, name, value } => {
            list.tie_found(*at, place_of(value), env.variable(name.id))?;
            push_expr(list, env, value)
        }
        Eqn::Present { arms, other, .. } => {
            push_arms(list, env, arms.as_slice())?;
            push_other(list, env, other)
        }
        Eqn::Automaton { states, .. } => push_states(list, env, states.as_slice()),
        Eqn::Reset { eqs, cond, .. } => {
            push_eqns(list, env, eqs.as_slice())?;
            push_cond(list, env, cond)
        }
    }
}

/// Adds the equalities of equations.
#[cycle(eqn_equalities)]
pub(crate) fn push_eqns(
    list: &mut EqualityList,
    env: &Environment,
    eqns: &[Eqn],
) -> Result<(), AllocError>
    ensures { OnOk result (list.new ≡ list.old ++ eqns_equalities (environment_of env.now) eqns.now) }
{
    for eqn in eqns {
        push_eqn(list, env, eqn)?;
    }
    Ok(())
}

#[cycle(eqn_equalities)]
fn push_arms(list: &mut EqualityList, env: &Environment, arms: &[Arm]) -> Result<(), AllocError>
    ensures { OnOk result (list.new ≡ list.old ++ joined (map (arm_equalities (environment_of env.now)) arms.now)) }
{
    for arm in arms {
        push_cond(list, env, &arm.cond)?;
        push_body(list, env, &arm.body)?;
    }
    Ok(())
}

#[cycle(eqn_equalities)]
fn push_other(
    list: &mut EqualityList,
    env: &Environment,
    other: &Option<Body>,
) -> Result<(), AllocError>
    ensures { OnOk result (list.new ≡ list.old ++ other_equalities (environment_of env.now) other.now) }
{
    match other {
        Some(body) => push_body(list, env, body),
        None => Ok(()),
    }
}

#[cycle(eqn_equalities)]
fn push_body(list: &mut EqualityList, env: &Environment, body: &Body) -> Result<(), AllocError>
    ensures { OnOk result (list.new ≡ list.old ++ body_equalities (environment_of env.now) body.now) }
{
    push_eqns(list, env, body.eqs.as_slice())
}

#[cycle(eqn_equalities)]
fn push_states(
    list: &mut EqualityList,
    env: &Environment,
    states: &[State],
) -> Result<(), AllocError>
    ensures { OnOk result (list.new ≡ list.old ++ joined (map (state_equalities (environment_of env.now)) states.now)) }
{
    for state in states {
        push_body(list, env, &state.body)?;
        push_moves(list, env, state.moves.as_slice())?;
    }
    Ok(())
}
