//! The kinds of equations.
#![tactic(auto, using(crate::proofs::KindEqnLemmas::eqn_steps))]

ghost use Rattle.std.specs.Prelude.{◌≡◌, map, is_some, if◌then◌else◌, []};
ghost use Rattle.zl_ast.specs.Kinds as kinds;
ghost use Rattle.zl_ast.specs.Kinds.{unless_allowed, allows_present, all_misplaced, event_place, ups_misplaced, cond_misplaced, start_misplaced, resets_misplaced, eqn_misplaced, arm_misplaced, state_misplaced, eqns_misplaced, body_misplaced, in_other};
ghost use Rattle.zl_types.specs.Contexts.{context_of, declared_of};
ghost use Rattle.zl_types.specs.ContextsFirst.{earliest};

use crate::kind_context::Context;
use crate::kind_declared::Declared;
use crate::kind_expr::note_expr;
use crate::kind_first::First;
use zl_ast::{Arm, Body, Cond, Eqn, Expr, Move, ResetArm, State, Up};
use zl_value::Pos;

/// Takes note of an event where a test has to stand.
fn note_event(context: Context, ups: &[Up], first: &mut First)
    ensures { first.new.found ≡ earliest first.old.found (if kinds.is_discrete (context_of context) then event_place ups.now else []) }
{
    if context.is_discrete() {
        if let Some(up) = ups.first() {
            first.note(up.at);
        }
    }
}

fn note_ups(declared: &Declared, ups: &[Up], first: &mut First)
    ensures { first.new.found ≡ earliest first.old.found (ups_misplaced (declared_of declared.now) ups.now) }
{
    for up in ups {
        note_expr(declared, Context::Combinatorial, &up.arg, first);
    }
}

fn note_cond(declared: &Declared, context: Context, cond: &Cond, first: &mut First)
    ensures { first.new.found ≡ earliest first.old.found (cond_misplaced (declared_of declared.now) cond.now (context_of context)) }
{
    match cond {
        Cond::Event(ups) => {
            note_event(context, ups.as_slice(), first);
            note_ups(declared, ups.as_slice(), first);
        }
        Cond::Test { at, arg } => {
            first.note_unless(!context.is_hybrid(), *at);
            note_expr(declared, Context::Recalling, arg, first);
        }
    }
}

fn note_start(declared: &Declared, start: &Option<Expr>, first: &mut First)
    ensures { first.new.found ≡ earliest first.old.found (start_misplaced (declared_of declared.now) start.now) }
{
    if let Some(value) = start {
        note_expr(declared, Context::Recalling, value, first);
    }
}

fn note_resets(declared: &Declared, resets: &[ResetArm], first: &mut First)
    ensures { first.new.found ≡ earliest first.old.found (resets_misplaced (declared_of declared.now) resets.now) }
{
    for reset in resets {
        note_ups(declared, reset.event.as_slice(), first);
        note_expr(declared, Context::Recalling, &reset.value, first);
    }
}

fn note_moves(declared: &Declared, context: Context, moves: &[Move], first: &mut First)
    ensures { first.new.found ≡ earliest first.old.found (all_misplaced (map (λ m. cond_misplaced (declared_of declared.now) m.cond) moves.now) (context_of context)) }
{
    for one in moves {
        note_cond(declared, context, &one.cond, first);
    }
}

/// Takes note of a `present` itself, unless it is allowed here.
fn note_present(context: Context, at: Pos, other: &Option<Body>, first: &mut First)
    ensures { first.new.found ≡ earliest first.old.found (unless_allowed (allows_present (is_some other.now) (context_of context)) at) }
{
    first.note_unless(context.allows_present(other.is_some()), at);
}

#[cycle(misplaced_equations)]
fn note_eqn(declared: &Declared, context: Context, eqn: &Eqn, first: &mut First)
    ensures { first.new.found ≡ earliest first.old.found (eqn_misplaced (declared_of declared.now) eqn.now (context_of context)) }
{
    match eqn {
        Eqn::Plain { right, .. } => note_expr(declared, context, right, first),
        Eqn::Der {
            at,
            slope,
            start,
            resets,
            ..
        } => {
            first.note_unless(context.is_hybrid(), *at);
            note_expr(declared, Context::Hybrid, slope, first);
            note_start(declared, start, first);
            note_resets(declared, resets.as_slice(), first);
        }
        Eqn::Start { at, value, .. } => {
            first.note_unless(context.allows_state(), *at);
            note_expr(declared, Context::Recalling, value, first);
        }
        Eqn::Present { at, arms, other } => {
            note_present(context, *at, other, first);
            note_arms(declared, context, arms.as_slice(), first);
            note_other(declared, other, first);
        }
        Eqn::Automaton { at, states } => {
            first.note_unless(context.allows_state(), *at);
            note_states(declared, context, states.as_slice(), first);
        }
        Eqn::Reset { at, eqs, cond } => {
            first.note_unless(context.allows_state(), *at);
            note_eqns(declared, context, eqs.as_slice(), first);
            note_cond(declared, context, cond, first);
        }
    }
}

/// Takes note of the misplaced constructs in a list of equations.
#[cycle(misplaced_equations)]
pub(crate) fn note_eqns(declared: &Declared, context: Context, eqns: &[Eqn], first: &mut First)
    ensures { first.new.found ≡ earliest first.old.found (eqns_misplaced (declared_of declared.now) eqns.now (context_of context)) }
{
    for eqn in eqns {
        note_eqn(declared, context, eqn, first);
    }
}

#[cycle(misplaced_equations)]
fn note_arms(declared: &Declared, context: Context, arms: &[Arm], first: &mut First)
    ensures { first.new.found ≡ earliest first.old.found (all_misplaced (map (arm_misplaced (declared_of declared.now)) arms.now) (context_of context)) }
{
    for arm in arms {
        note_cond(declared, context, &arm.cond, first);
        note_body(declared, Context::Discrete, &arm.body, first);
    }
}

#[cycle(misplaced_equations)]
fn note_body(declared: &Declared, context: Context, body: &Body, first: &mut First)
    ensures { first.new.found ≡ earliest first.old.found (body_misplaced (declared_of declared.now) body.now (context_of context)) }
{
    note_eqns(declared, context, body.eqs.as_slice(), first);
}

#[cycle(misplaced_equations)]
fn note_other(declared: &Declared, other: &Option<Body>, first: &mut First)
    ensures { first.new.found ≡ earliest first.old.found (in_other (declared_of declared.now) other.now) }
{
    if let Some(body) = other {
        note_body(declared, Context::Discrete, body, first);
    }
}

#[cycle(misplaced_equations)]
fn note_states(declared: &Declared, context: Context, states: &[State], first: &mut First)
    ensures { first.new.found ≡ earliest first.old.found (all_misplaced (map (state_misplaced (declared_of declared.now)) states.now) (context_of context)) }
{
    for state in states {
        note_body(declared, context, &state.body, first);
        note_moves(declared, context, state.moves.as_slice(), first);
    }
}
