//! How much equations and declarations expand to.
#![tactic(auto, using(crate::proofs::SizeSums::sizes))]

ghost use Rattle.std.specs.Prelude.{◌≡◌, map};
ghost use Rattle.zl_flat.specs.Sizes as spec;
ghost use Rattle.zl_flat.specs.Capped.{capped};
ghost use Rattle.zl_expand.specs.KeptDecls.{infos_in, known_in};

use crate::decls::Known;
use crate::expr_size::{expr_size, exprs_size};
use zl_ast::{Arm, Body, Cond, Decl, Eqn, Expr, Move, Name, Param, ResetArm, State, Up};
use zl_flat::Size;

fn up_size(known: &Known, up: &Up) -> Size
    ensures { result ≡ capped (spec.up_size (infos_in known.now) (known_in known.now) up.now) }
{
    Size::crossing().plus(expr_size(known, &up.arg))
}

fn ups_size(known: &Known, ups: &[Up]) -> Size
    ensures { result ≡ capped (spec.ups_size (infos_in known.now) (known_in known.now) ups.now) }
{
    let mut size = Size::none();
    for up in ups {
        size = size.plus(up_size(known, up));
    }
    size
}

pub(crate) fn cond_size(known: &Known, cond: &Cond) -> Size
    ensures { result ≡ capped (spec.cond_size (infos_in known.now) (known_in known.now) cond.now) }
{
    match cond {
        Cond::Event(ups) => ups_size(known, ups.as_slice()),
        Cond::Test { arg, .. } => expr_size(known, arg),
    }
}

pub(crate) fn start_size(known: &Known, start: &Option<Expr>) -> Size
    ensures { result ≡ capped (spec.start_size (infos_in known.now) (known_in known.now) start.now) }
{
    match start {
        Some(value) => expr_size(known, value),
        None => Size::none(),
    }
}

fn reset_size(known: &Known, reset: &ResetArm) -> Size
    ensures { result ≡ capped (spec.reset_arm_size (infos_in known.now) (known_in known.now) reset.now) }
{
    ups_size(known, reset.event.as_slice()).plus(expr_size(known, &reset.value))
}

pub(crate) fn resets_size(known: &Known, resets: &[ResetArm]) -> Size
    ensures { result ≡ capped (spec.total (map (spec.reset_arm_size (infos_in known.now) (known_in known.now)) resets.now)) }
{
    let mut size = Size::none();
    for reset in resets {
        size = size.plus(reset_size(known, reset));
    }
    size
}

pub(crate) fn moves_size(known: &Known, moves: &[Move]) -> Size
    ensures { result ≡ capped (spec.total (map (spec.move_size (infos_in known.now) (known_in known.now)) moves.now)) }
{
    let mut size = Size::none();
    for one in moves {
        size = size.plus(cond_size(known, &one.cond));
    }
    size
}

fn name_size(known: &Known, name: Name) -> Size
    ensures { result ≡ capped (spec.name_size (infos_in known.now) (known_in known.now) name) }
{
    if known.is_first(name) {
        Size::place()
    } else {
        Size::none()
    }
}

fn names_size(known: &Known, names: &[Name]) -> Size
    ensures { result ≡ capped (spec.names_size (infos_in known.now) (known_in known.now) names.now) }
{
    let mut size = Size::none();
    for name in names {
        size = size.plus(name_size(known, *name));
    }
    size
}

#[cycle(eqn_sizes)]
fn eqn_size(known: &Known, eqn: &Eqn) -> Size
    ensures { result ≡ capped (spec.eqn_size (infos_in known.now) (known_in known.now) eqn.now) }
{
    match eqn {
        Eqn::Plain { left, right } => {
            names_size(known, left.as_slice()).plus(expr_size(known, right))
        }
        Eqn::Der {
            name,
            slope,
            start,
            resets,
            ..
        } => {
            let start = start_size(known, start);
            let inside = start.plus(resets_size(known, resets.as_slice()));
            name_size(known, *name).plus(expr_size(known, slope).plus(inside))
        }
        Eqn::Start { name, value, .. } => name_size(known, *name).plus(expr_size(known, value)),
        Eqn::Present { arms, other, .. } => {
            let arms = arms_size(known, arms.as_slice());
            match other {
                Some(body) => arms.plus(Size::block().plus(body_size(known, body))),
                None => arms.plus(Size::none()),
            }
        }
        Eqn::Automaton { states, .. } => states_size(known, states.as_slice()),
        Eqn::Reset { eqs, cond, .. } => {
            let inside = eqns_size(known, eqs.as_slice());
            Size::block().plus(inside.plus(cond_size(known, cond)))
        }
    }
}

#[cycle(eqn_sizes)]
fn eqns_size(known: &Known, eqns: &[Eqn]) -> Size
    ensures { result ≡ capped (spec.eqns_size (infos_in known.now) (known_in known.now) eqns.now) }
{
    let mut size = Size::none();
    for eqn in eqns {
        size = size.plus(eqn_size(known, eqn));
    }
    size
}

#[cycle(eqn_sizes)]
fn arms_size(known: &Known, arms: &[Arm]) -> Size
    ensures { result ≡ capped (spec.total (map (spec.arm_size (infos_in known.now) (known_in known.now)) arms.now)) }
{
    let mut size = Size::none();
    for arm in arms {
        let body = Size::block().plus(body_size(known, &arm.body));
        size = size.plus(cond_size(known, &arm.cond).plus(body));
    }
    size
}

#[cycle(eqn_sizes)]
fn body_size(known: &Known, body: &Body) -> Size
    ensures { result ≡ capped (spec.body_size (infos_in known.now) (known_in known.now) body.now) }
{
    names_size(known, body.locals.as_slice()).plus(eqns_size(known, body.eqs.as_slice()))
}

#[cycle(eqn_sizes)]
fn states_size(known: &Known, states: &[State]) -> Size
    ensures { result ≡ capped (spec.total (map (spec.state_size (infos_in known.now) (known_in known.now)) states.now)) }
{
    let mut size = Size::none();
    for state in states {
        let moves = moves_size(known, state.moves.as_slice());
        let inside = body_size(known, &state.body).plus(moves);
        size = size.plus(Size::block().plus(Size::block().plus(inside)));
    }
    size
}

fn params_size(params: &[Param]) -> Size
    ensures { result ≡ capped (spec.total (map (λ p. spec.a_place) params.now)) }
{
    let mut size = Size::none();
    for _param in params {
        size = size.plus(Size::place());
    }
    size
}

/// How much a copy of the declaration's body expands to.
#[tactic(auto, using(crate::proofs::SizeSums::sizes), unfolding(zl_flat::specs::Sizes::decl_size))]
pub(crate) fn decl_size(known: &Known, decl: &Decl) -> Size
    ensures { result ≡ capped (spec.decl_size (infos_in known.now) (known_in known.now) decl.now) }
{
    let results = exprs_size(known, decl.results.as_slice());
    let eqs = eqns_size(known, decl.eqs.as_slice());
    params_size(decl.params.as_slice()).plus(results.plus(eqs))
}
