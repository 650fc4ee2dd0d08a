//! The uses of names in equations.
#![tactic(auto, using(crate::proofs::EqnUsesLemmas::eqn_steps))]

ghost use Rattle.std.specs.Prelude.{◌≡◌, map, OnOk};
ghost use Rattle.zl_ast.specs.NamesUsed.{all_uses, ups_uses, cond_uses, start_uses, reset_arm_uses, moves_uses, eqn_uses, arm_uses, state_uses, eqns_uses, in_body};
ghost use Rattle.zl_names.specs.Kept.{known_of};
ghost use Rattle.zl_names.specs.Earliest.{earliest};

use crate::first::First;
use crate::known::Known;
use crate::repeats::insert_all;
use crate::used::note_expr;
use std::alloc::AllocError;
use zl_ast::{Arm, Body, Cond, Eqn, Expr, Move, NameSet, ResetArm, State, Up};

fn note_ups(known: &Known, visible: &NameSet, ups: &[Up], first: &mut First)
    ensures { first.new.found ≡ earliest first.old.found (ups_uses (known_of known.now) ups.now visible.now) }
{
    for up in ups {
        note_expr(known, visible, &up.arg, 1, first);
    }
}

fn note_cond(known: &Known, visible: &NameSet, cond: &Cond, first: &mut First)
    ensures { first.new.found ≡ earliest first.old.found (cond_uses (known_of known.now) cond.now visible.now) }
{
    match cond {
        Cond::Event(ups) => note_ups(known, visible, ups.as_slice(), first),
        Cond::Test { arg, .. } => note_expr(known, visible, arg, 1, first),
    }
}

fn note_start(known: &Known, visible: &NameSet, start: &Option<Expr>, first: &mut First)
    ensures { first.new.found ≡ earliest first.old.found (start_uses (known_of known.now) start.now visible.now) }
{
    if let Some(value) = start {
        note_expr(known, visible, value, 1, first);
    }
}

fn note_resets(known: &Known, visible: &NameSet, resets: &[ResetArm], first: &mut First)
    ensures { first.new.found ≡ earliest first.old.found (all_uses (map (reset_arm_uses (known_of known.now)) resets.now) visible.now) }
{
    for reset in resets {
        note_ups(known, visible, reset.event.as_slice(), first);
        note_expr(known, visible, &reset.value, 1, first);
    }
}

/// Takes note of what the conditions of the moves by `unless` break, or those of the moves by `until`.
fn note_moves(known: &Known, visible: &NameSet, strong: bool, moves: &[Move], first: &mut First)
    ensures { first.new.found ≡ earliest first.old.found (moves_uses (known_of known.now) strong moves.now visible.now) }
{
    for one in moves {
        if one.strong == strong {
            note_cond(known, visible, &one.cond, first);
        }
    }
}

#[cycle(equation_uses)]
fn note_eqn(
    known: &Known,
    visible: &mut NameSet,
    eqn: &Eqn,
    first: &mut First,
) -> Result<(), AllocError>
    ensures noted { OnOk result (first.new.found ≡ earliest first.old.found (eqn_uses (known_of known.now) eqn.now visible.old)) }
    ensures left { OnOk result (visible.new ≡ visible.old) }
{
    match eqn {
        Eqn::Plain { left, right } => note_expr(known, visible, right, left.len(), first),
        Eqn::Der {
            slope,
            start,
            resets,
            ..
        } => {
            note_expr(known, visible, slope, 1, first);
            note_start(known, visible, start, first);
            note_resets(known, visible, resets.as_slice(), first);
        }
        Eqn::Start { value, .. } => note_expr(known, visible, value, 1, first),
        Eqn::Present { arms, other, .. } => {
            note_arms(known, visible, arms.as_slice(), first)?;
            if let Some(body) = other {
                note_body(known, visible, body, first)?;
            }
        }
        Eqn::Automaton { states, .. } => note_states(known, visible, states.as_slice(), first)?,
        Eqn::Reset { eqs, cond, .. } => {
            note_eqns(known, visible, eqs.as_slice(), first)?;
            note_cond(known, visible, cond, first);
        }
    }
    Ok(())
}

/// Takes note of what the uses of names in a list of equations break.
#[cycle(equation_uses)]
pub(crate) fn note_eqns(
    known: &Known,
    visible: &mut NameSet,
    eqns: &[Eqn],
    first: &mut First,
) -> Result<(), AllocError>
    ensures noted { OnOk result (first.new.found ≡ earliest first.old.found (eqns_uses (known_of known.now) eqns.now visible.old)) }
    ensures left { OnOk result (visible.new ≡ visible.old) }
{
    for eqn in eqns {
        note_eqn(known, visible, eqn, first)?;
    }
    Ok(())
}

#[cycle(equation_uses)]
fn note_arms(
    known: &Known,
    visible: &mut NameSet,
    arms: &[Arm],
    first: &mut First,
) -> Result<(), AllocError>
    ensures noted { OnOk result (first.new.found ≡ earliest first.old.found (all_uses (map (arm_uses (known_of known.now)) arms.now) visible.old)) }
    ensures left { OnOk result (visible.new ≡ visible.old) }
{
    for arm in arms {
        note_cond(known, visible, &arm.cond, first);
        note_body(known, visible, &arm.body, first)?;
    }
    Ok(())
}

#[cycle(equation_uses)]
fn note_body(
    known: &Known,
    visible: &mut NameSet,
    body: &Body,
    first: &mut First,
) -> Result<(), AllocError>
    ensures noted { OnOk result (first.new.found ≡ earliest first.old.found (in_body (known_of known.now) body.now visible.old)) }
    ensures left { OnOk result (visible.new ≡ visible.old) }
{
    let outer = visible.len();
    insert_all(visible, body.locals.as_slice())?;
    note_eqns(known, visible, body.eqs.as_slice(), first)?;
    visible.truncate(outer);
    Ok(())
}

#[cycle(equation_uses)]
fn note_state(
    known: &Known,
    visible: &mut NameSet,
    state: &State,
    first: &mut First,
) -> Result<(), AllocError>
    ensures noted { OnOk result (first.new.found ≡ earliest first.old.found (state_uses (known_of known.now) state.now visible.old)) }
    ensures left { OnOk result (visible.new ≡ visible.old) }
{
    let outside = visible.len();
    insert_all(visible, state.body.locals.as_slice())?;
    note_eqns(known, visible, state.body.eqs.as_slice(), first)?;
    note_moves(known, visible, false, state.moves.as_slice(), first);
    visible.truncate(outside);
    note_moves(known, visible, true, state.moves.as_slice(), first);
    Ok(())
}

#[cycle(equation_uses)]
fn note_states(
    known: &Known,
    visible: &mut NameSet,
    states: &[State],
    first: &mut First,
) -> Result<(), AllocError>
    ensures noted { OnOk result (first.new.found ≡ earliest first.old.found (all_uses (map (state_uses (known_of known.now)) states.now) visible.old)) }
    ensures left { OnOk result (visible.new ≡ visible.old) }
{
    for state in states {
        note_state(known, visible, state, first)?;
    }
    Ok(())
}
