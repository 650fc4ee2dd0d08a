//! The constraints in equations.
#![tactic(auto, using(crate::proofs::NeedLemmas::need_steps))]

ghost use Rattle.std.specs.Prelude.{◌≡◌, ◌∷◌, ◌++◌, map, OnOk};
ghost use Rattle.zl_ast.specs.Initialised as spec;
ghost use Rattle.zl_ast.specs.Initialised.{ask_each, all_needs, within, in_arm, expr_constraints, ups_constraints, cond_constraints, start_places, start_constraints, reset_places, resets_constraints, moves_constraints, left_needs, each_defined, unsettled, all_unsettled, free_at, eqn_needs, arm_needs, state_needs, eqns_needs, in_body, in_other};
ghost use Rattle.zl_ast.specs.NamesRules as rules;
ghost use Rattle.zl_init.specs.Kept.{known_of, setting_of, body_and_moves};

use crate::expr::{push, push_expr};
use crate::known::{Free, Known, Setting};
use crate::name_set::{insert_names, set_of_names};
use std::alloc::{AllocError, Global};
use zl_ast::{
    Arm, Asked, Body, Cond, Eqn, Expr, Move, Name, NameSet, Requirement, ResetArm, State, Up,
    place_of,
};
use zl_value::Pos;

/// The place of a variable that is neither anchored nor surely defined: no levels will do.
fn push_unsettled(known: &Known, name: Name, out: &mut Vec<Requirement>) -> Result<(), AllocError>
    ensures { OnOk result (out.new.items ≡ out.old.items ++ unsettled (known_of known.now) name) }
{
    if known.is_place(name) && !known.settled.contains(name.id) {
        push(name.at, name.at, Asked::Never, out)?;
    }
    Ok(())
}

fn push_all_unsettled(
    known: &Known,
    names: &[Name],
    out: &mut Vec<Requirement>,
) -> Result<(), AllocError>
    ensures { OnOk result (out.new.items ≡ out.old.items ++ all_unsettled (known_of known.now) names.now) }
{
    for name in names {
        push_unsettled(known, *name, out)?;
    }
    Ok(())
}

/// A name on the left of a plain equation: in the list of the body that declares it, it is late where the right side is.
fn push_defined(
    place: Option<Pos>,
    is_own: bool,
    at: Pos,
    right: Pos,
    out: &mut Vec<Requirement>,
) -> Result<(), AllocError>
    ensures { OnOk result (out.new.items ≡ out.old.items ++ spec.defined_needs place is_own at right) }
{
    if !is_own {
        return push(at, right, Asked::Early, out);
    }
    match place {
        Some(variable) => push(at, variable, Asked::LateWhere(right), out),
        None => Ok(()),
    }
}

fn push_each_defined(
    known: &Known,
    own: &NameSet,
    at: Pos,
    right: Pos,
    left: &[Name],
    out: &mut Vec<Requirement>,
) -> Result<(), AllocError>
    ensures { OnOk result (out.new.items ≡ out.old.items ++ each_defined (known_of known.now) own.now at right left.now) }
{
    for name in left {
        let place = known.place(name.id);
        push_defined(place, own.contains(name.id), at, right, out)?;
    }
    Ok(())
}

/// The left side of a plain equation, by the place of its right side.
fn push_left(
    known: &Known,
    own: &NameSet,
    left: &[Name],
    right: Pos,
    out: &mut Vec<Requirement>,
) -> Result<(), AllocError>
    ensures { OnOk result (out.new.items ≡ out.old.items ++ left_needs (known_of known.now) left.now right own.now) }
{
    if let Some(first) = left.first() {
        push_each_defined(known, own, first.at, right, left, out)?;
        push_all_unsettled(known, left, out)?;
    }
    Ok(())
}

/// Adds the constraints in an expression that stands in the setting, with these locals around it.
fn push_in(
    known: &Known,
    setting: Setting,
    inside: &NameSet,
    expr: &Expr,
    out: &mut Vec<Requirement>,
) -> Result<(), AllocError>
    ensures { OnOk result (out.new.items ≡ out.old.items ++ expr_constraints (known_of known.now) expr.now (free_at setting.handler inside.now)) }
{
    let free = Free {
        all: false,
        handler: setting.handler,
        inside,
    };
    push_expr(known, &free, expr, out)
}

/// Adds the constraints in a reset value, where `last` is always early.
fn push_value(
    known: &Known,
    inside: &NameSet,
    expr: &Expr,
    out: &mut Vec<Requirement>,
) -> Result<(), AllocError>
    ensures { OnOk result (out.new.items ≡ out.old.items ++ expr_constraints (known_of known.now) expr.now spec.all_free) }
{
    let free = Free {
        all: true,
        handler: false,
        inside,
    };
    push_expr(known, &free, expr, out)
}

fn push_ups(
    known: &Known,
    setting: Setting,
    inside: &NameSet,
    ups: &[Up],
    out: &mut Vec<Requirement>,
) -> Result<(), AllocError>
    ensures { OnOk result (out.new.items ≡ out.old.items ++ ups_constraints (known_of known.now) ups.now (free_at setting.handler inside.now)) }
{
    for up in ups {
        push(up.at, place_of(&up.arg), Asked::Early, out)?;
        push_in(known, setting, inside, &up.arg, out)?;
    }
    Ok(())
}

fn push_cond(
    known: &Known,
    setting: Setting,
    inside: &NameSet,
    cond: &Cond,
    out: &mut Vec<Requirement>,
) -> Result<(), AllocError>
    ensures { OnOk result (out.new.items ≡ out.old.items ++ cond_constraints (known_of known.now) cond.now (free_at setting.handler inside.now)) }
{
    match cond {
        Cond::Event(ups) => push_ups(known, setting, inside, ups.as_slice(), out),
        Cond::Test { at, arg } => {
            push(*at, place_of(arg), Asked::Early, out)?;
            push_in(known, setting, inside, arg, out)
        }
    }
}

fn push_start(
    known: &Known,
    setting: Setting,
    inside: &NameSet,
    start: &Option<Expr>,
    out: &mut Vec<Requirement>,
) -> Result<(), AllocError>
    ensures { OnOk result (out.new.items ≡ out.old.items ++ start_constraints (known_of known.now) start.now (free_at setting.handler inside.now)) }
{
    match start {
        Some(value) => push_in(known, setting, inside, value, out),
        None => Ok(()),
    }
}

fn push_resets(
    known: &Known,
    setting: Setting,
    inside: &NameSet,
    resets: &[ResetArm],
    out: &mut Vec<Requirement>,
) -> Result<(), AllocError>
    ensures { OnOk result (out.new.items ≡ out.old.items ++ resets_constraints (known_of known.now) resets.now (free_at setting.handler inside.now)) }
{
    for reset in resets {
        push_ups(known, setting, inside, reset.event.as_slice(), out)?;
        push_value(known, inside, &reset.value, out)?;
    }
    Ok(())
}

fn push_moves(
    known: &Known,
    setting: Setting,
    inside: &NameSet,
    moves: &[Move],
    out: &mut Vec<Requirement>,
) -> Result<(), AllocError>
    ensures { OnOk result (out.new.items ≡ out.old.items ++ moves_constraints (known_of known.now) moves.now (free_at setting.handler inside.now)) }
{
    for one in moves {
        push_cond(known, setting, inside, &one.cond, out)?;
    }
    Ok(())
}

/// Adds that each reset value of the `der` at this place has to be early.
fn push_early_resets(
    at: Pos,
    resets: &[ResetArm],
    out: &mut Vec<Requirement>,
) -> Result<(), AllocError>
    ensures { OnOk result (out.new.items ≡ out.old.items ++ ask_each at Asked.Early (reset_places resets.now)) }
{
    for reset in resets {
        push(at, place_of(&reset.value), Asked::Early, out)?;
    }
    Ok(())
}

/// Adds that the derivative, the `init` value and the reset values of the `der` at this place have to be early.
fn push_early_parts(
    at: Pos,
    slope: &Expr,
    start: &Option<Expr>,
    resets: &[ResetArm],
    out: &mut Vec<Requirement>,
) -> Result<(), AllocError>
    ensures { OnOk result (out.new.items ≡ out.old.items ++ ask_each at Asked.Early (rules.place_of slope.now ∷ (start_places start.now ++ reset_places resets.now))) }
{
    push(at, place_of(slope), Asked::Early, out)?;
    if let Some(value) = start {
        push(at, place_of(value), Asked::Early, out)?;
    }
    push_early_resets(at, resets, out)
}

#[cycle(needs)]
fn push_eqn(
    alloc: Global,
    known: &Known,
    setting: Setting,
    inside: &mut NameSet,
    own: &NameSet,
    eqn: &Eqn,
    out: &mut Vec<Requirement>,
) -> Result<(), AllocError>
    ensures pushed { OnOk result (out.new.items ≡ out.old.items ++ eqn_needs (known_of known.now) eqn.now (setting_of setting inside.old own.now)) }
    ensures left { OnOk result (inside.new ≡ inside.old) }
{
    match eqn {
        Eqn::Plain { left, right } => {
            push_left(known, own, left.as_slice(), place_of(right), out)?;
            push_in(known, setting, inside, right, out)?;
        }
        Eqn::Der {
            at,
            name,
            slope,
            start,
            resets,
        } => {
            push_early_parts(*at, slope, start, resets.as_slice(), out)?;
            push_unsettled(known, *name, out)?;
            push_in(known, setting, inside, slope, out)?;
            push_start(known, setting, inside, start, out)?;
            push_resets(known, setting, inside, resets.as_slice(), out)?;
        }
        Eqn::Start { at, name, value } => {
            push(*at, place_of(value), Asked::Early, out)?;
            push_unsettled(known, *name, out)?;
            push_in(known, setting, inside, value, out)?;
        }
        Eqn::Present { arms, other, .. } => {
            push_arms(alloc, known, setting, inside, own, arms.as_slice(), out)?;
            if let Some(body) = other {
                push_arm_body(alloc, known, setting, inside, own, body, out)?;
            }
        }
        Eqn::Automaton { states, .. } => {
            push_states(alloc, known, setting, inside, own, states.as_slice(), out)?;
        }
        Eqn::Reset { eqs, cond, .. } => {
            let none = NameSet::new(alloc);
            push_eqns(alloc, known, setting, inside, &none, eqs.as_slice(), out)?;
            push_cond(known, setting, inside, cond, out)?;
        }
    }
    Ok(())
}

/// Adds the constraints in a list of equations, with these locals around it and these variables of its own.
#[cycle(needs)]
pub(crate) fn push_eqns(
    alloc: Global,
    known: &Known,
    setting: Setting,
    inside: &mut NameSet,
    own: &NameSet,
    eqns: &[Eqn],
    out: &mut Vec<Requirement>,
) -> Result<(), AllocError>
    ensures pushed { OnOk result (out.new.items ≡ out.old.items ++ eqns_needs (known_of known.now) eqns.now (setting_of setting inside.old own.now)) }
    ensures left { OnOk result (inside.new ≡ inside.old) }
{
    for eqn in eqns {
        push_eqn(alloc, known, setting, inside, own, eqn, out)?;
    }
    Ok(())
}

#[cycle(needs)]
fn push_arms(
    alloc: Global,
    known: &Known,
    setting: Setting,
    inside: &mut NameSet,
    own: &NameSet,
    arms: &[Arm],
    out: &mut Vec<Requirement>,
) -> Result<(), AllocError>
    ensures pushed { OnOk result (out.new.items ≡ out.old.items ++ all_needs (map (arm_needs (known_of known.now)) arms.now) (setting_of setting inside.old own.now)) }
    ensures left { OnOk result (inside.new ≡ inside.old) }
{
    for arm in arms {
        push_cond(known, setting, inside, &arm.cond, out)?;
        push_arm_body(alloc, known, setting, inside, own, &arm.body, out)?;
    }
    Ok(())
}

/// The body of an arm, or behind `else`.
#[cycle(needs)]
fn push_arm_body(
    alloc: Global,
    known: &Known,
    setting: Setting,
    inside: &mut NameSet,
    own: &NameSet,
    body: &Body,
    out: &mut Vec<Requirement>,
) -> Result<(), AllocError>
    ensures pushed { OnOk result (out.new.items ≡ out.old.items ++ in_body (known_of known.now) body.now (in_arm (setting_of setting inside.old own.now))) }
    ensures left { OnOk result (inside.new ≡ inside.old) }
{
    if !setting.hybrid {
        return push_body(alloc, known, setting, inside, body, &[], out);
    }
    let arm = Setting {
        hybrid: false,
        handler: true,
    };
    let mut declared = NameSet::new(alloc);
    push_body(alloc, known, arm, &mut declared, body, &[], out)
}

/// A body, and the conditions of moves that stand inside it.
#[cycle(needs)]
fn push_body(
    alloc: Global,
    known: &Known,
    setting: Setting,
    inside: &mut NameSet,
    body: &Body,
    moves: &[Move],
    out: &mut Vec<Requirement>,
) -> Result<(), AllocError>
    ensures pushed { OnOk result (out.new.items ≡ out.old.items ++ body_and_moves (known_of known.now) body.now moves.now setting inside.old) }
    ensures left { OnOk result (inside.new ≡ inside.old) }
{
    let outer = inside.len();
    let locals = body.locals.as_slice();
    insert_names(inside, locals)?;
    let own = set_of_names(alloc, locals)?;
    push_all_unsettled(known, locals, out)?;
    push_eqns(
        alloc,
        known,
        setting,
        inside,
        &own,
        body.eqs.as_slice(),
        out,
    )?;
    push_moves(known, setting, inside, moves, out)?;
    inside.truncate(outer);
    Ok(())
}

#[cycle(needs)]
fn push_states(
    alloc: Global,
    known: &Known,
    setting: Setting,
    inside: &mut NameSet,
    own: &NameSet,
    states: &[State],
    out: &mut Vec<Requirement>,
) -> Result<(), AllocError>
    ensures pushed { OnOk result (out.new.items ≡ out.old.items ++ all_needs (map (state_needs (known_of known.now)) states.now) (setting_of setting inside.old own.now)) }
    ensures left { OnOk result (inside.new ≡ inside.old) }
{
    for state in states {
        push_body(
            alloc,
            known,
            setting,
            inside,
            &state.body,
            state.moves.as_slice(),
            out,
        )?;
    }
    Ok(())
}
