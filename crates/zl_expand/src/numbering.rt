//! The places of the variables in a copy of a declaration's body.
#![tactic(auto, using(crate::proofs::NumberingSums::numbering))]

ghost use Rattle.std.specs.Prelude.{◌≡◌, ◌-◌, ◌^◌, ◌<◌, min, map, OnOk, IfOk};
ghost use Rattle.zl_flat.specs.Numbering as spec;
ghost use Rattle.zl_flat.specs.Sizes as sizes;
ghost use Rattle.zl_expand.specs.Kept.{infos_in, known_in, NumbersWithin};

use crate::decls::Known;
use crate::eqn_size::{cond_size, moves_size, resets_size, start_size};
use crate::expr_size::{expr_size, exprs_size};
use std::alloc::{AllocError, Global};
use zl_ast::{Arm, Body, Cond, Decl, Eqn, Expr, Move, Name, Param, ResetArm, State};
use zl_flat::Size;

/// A count as a number of a place. One past 32 bits, which no program has that keeps the limits, becomes the greatest.
fn number(count: usize) -> u32
    ensures { result ≡ min count (2 ^ 32 - 1) }
{
    match u32::try_from(count) {
        Ok(n) => n,
        Err(_) => u32::MAX,
    }
}

/// The places of variables so far, and the next place. It stays at the greatest number, as sizes do.
#[derive(Drop)]
pub(crate) struct Places {
    pub(crate) own: Vec<u32>,
    pub(crate) next: u32,
}

impl Places {
    /// The next place is a variable's.
    fn take(&mut self) -> Result<(), AllocError>
        ensures { OnOk result (NumbersWithin self.old self.new spec.a_variable) }
    {
        self.own.push(self.next)?;
        self.next = self.next.saturating_add(1);
        Ok(())
    }

    /// The next places are those of calls in what has this size.
    fn pass(&mut self, size: Size)
        ensures { NumbersWithin self.old self.new (spec.of_calls size) }
    {
        let places = number(size.places as usize);
        self.next = self.next.saturating_add(places);
    }
}

// The places of calls in parts of a body.

#[tactic(auto, using(crate::proofs::NumberingSums::exact_sizes))]
fn pass_expr(known: &Known, expr: &Expr, places: &mut Places)
    ensures { NumbersWithin places.old places.new (spec.of_calls (sizes.expr_size (infos_in known.now) (known_in known.now) expr.now)) }
{
    places.pass(expr_size(known, expr));
}

#[tactic(auto, using(crate::proofs::NumberingSums::exact_sizes))]
fn pass_exprs(known: &Known, exprs: &[Expr], places: &mut Places)
    ensures { NumbersWithin places.old places.new (spec.of_calls (sizes.exprs_size (infos_in known.now) (known_in known.now) exprs.now)) }
{
    places.pass(exprs_size(known, exprs));
}

#[tactic(auto, using(crate::proofs::NumberingSums::exact_sizes))]
fn pass_start(known: &Known, start: &Option<Expr>, places: &mut Places)
    ensures { NumbersWithin places.old places.new (spec.of_calls (sizes.start_size (infos_in known.now) (known_in known.now) start.now)) }
{
    places.pass(start_size(known, start));
}

#[tactic(auto, using(crate::proofs::NumberingSums::exact_sizes))]
fn pass_resets(known: &Known, resets: &[ResetArm], places: &mut Places)
    ensures { NumbersWithin places.old places.new (spec.of_calls (sizes.total (map (sizes.reset_arm_size (infos_in known.now) (known_in known.now)) resets.now))) }
{
    places.pass(resets_size(known, resets));
}

#[tactic(auto, using(crate::proofs::NumberingSums::exact_sizes))]
fn pass_cond(known: &Known, cond: &Cond, places: &mut Places)
    ensures { NumbersWithin places.old places.new (spec.of_calls (sizes.cond_size (infos_in known.now) (known_in known.now) cond.now)) }
{
    places.pass(cond_size(known, cond));
}

#[tactic(auto, using(crate::proofs::NumberingSums::exact_sizes))]
fn pass_moves(known: &Known, moves: &[Move], places: &mut Places)
    ensures { NumbersWithin places.old places.new (spec.of_calls (sizes.total (map (sizes.move_size (infos_in known.now) (known_in known.now)) moves.now))) }
{
    places.pass(moves_size(known, moves));
}

fn number_name(known: &Known, name: Name, places: &mut Places) -> Result<(), AllocError>
    ensures { OnOk result (NumbersWithin places.old places.new (spec.of_name (infos_in known.now) (known_in known.now) name)) }
{
    if known.is_first(name) {
        places.take()
    } else {
        Ok(())
    }
}

fn number_names(known: &Known, names: &[Name], places: &mut Places) -> Result<(), AllocError>
    ensures { OnOk result (NumbersWithin places.old places.new (spec.of_names (infos_in known.now) (known_in known.now) names.now)) }
{
    for name in names {
        number_name(known, *name, places)?;
    }
    Ok(())
}

#[cycle(numbering)]
fn number_eqn(known: &Known, eqn: &Eqn, places: &mut Places) -> Result<(), AllocError>
    ensures { OnOk result (NumbersWithin places.old places.new (spec.eqn_numbering (infos_in known.now) (known_in known.now) eqn.now)) }
{
    match eqn {
        Eqn::Plain { left, right } => {
            number_names(known, left.as_slice(), places)?;
            pass_expr(known, right, places);
            Ok(())
        }
        Eqn::Der {
            name,
            slope,
            start,
            resets,
            ..
        } => {
            number_name(known, *name, places)?;
            pass_expr(known, slope, places);
            pass_start(known, start, places);
            pass_resets(known, resets.as_slice(), places);
            Ok(())
        }
        Eqn::Start { name, value, .. } => {
            number_name(known, *name, places)?;
            pass_expr(known, value, places);
            Ok(())
        }
        Eqn::Present { arms, other, .. } => {
            number_arms(known, arms.as_slice(), places)?;
            match other {
                Some(body) => number_body(known, body, places),
                None => Ok(()),
            }
        }
        Eqn::Automaton { states, .. } => number_states(known, states.as_slice(), places),
        Eqn::Reset { eqs, cond, .. } => {
            number_eqns(known, eqs.as_slice(), places)?;
            pass_cond(known, cond, places);
            Ok(())
        }
    }
}

#[cycle(numbering)]
fn number_eqns(known: &Known, eqns: &[Eqn], places: &mut Places) -> Result<(), AllocError>
    ensures { OnOk result (NumbersWithin places.old places.new (spec.in_turn (map (spec.eqn_numbering (infos_in known.now) (known_in known.now)) eqns.now))) }
{
    for eqn in eqns {
        number_eqn(known, eqn, places)?;
    }
    Ok(())
}

#[cycle(numbering)]
fn number_arms(known: &Known, arms: &[Arm], places: &mut Places) -> Result<(), AllocError>
    ensures { OnOk result (NumbersWithin places.old places.new (spec.in_turn (map (spec.arm_numbering (infos_in known.now) (known_in known.now)) arms.now))) }
{
    for arm in arms {
        pass_cond(known, &arm.cond, places);
        number_body(known, &arm.body, places)?;
    }
    Ok(())
}

#[cycle(numbering)]
fn number_body(known: &Known, body: &Body, places: &mut Places) -> Result<(), AllocError>
    ensures { OnOk result (NumbersWithin places.old places.new (spec.body_numbering (infos_in known.now) (known_in known.now) body.now)) }
{
    number_names(known, body.locals.as_slice(), places)?;
    number_eqns(known, body.eqs.as_slice(), places)
}

#[cycle(numbering)]
fn number_states(known: &Known, states: &[State], places: &mut Places) -> Result<(), AllocError>
    ensures { OnOk result (NumbersWithin places.old places.new (spec.in_turn (map (spec.state_numbering (infos_in known.now) (known_in known.now)) states.now))) }
{
    for state in states {
        number_body(known, &state.body, places)?;
        pass_moves(known, state.moves.as_slice(), places);
    }
    Ok(())
}

fn number_params(params: &[Param], places: &mut Places) -> Result<(), AllocError>
    ensures { OnOk result (NumbersWithin places.old places.new (spec.in_turn (map (λ p. spec.a_variable) params.now))) }
{
    for _param in params {
        places.take()?;
    }
    Ok(())
}

/// The places of a declaration's variables in a copy whose first place this is.
#[tactic(auto, using(crate::proofs::NumberingSums::numbering), unfolding(zl_flat::specs::Numbering::decl_numbering))]
pub(crate) fn own_places(
    alloc: Global,
    known: &Known,
    decl: &Decl,
    next: u32,
) -> Result<Vec<u32>, AllocError>
    requires { (spec.decl_numbering (infos_in known.now) (known_in known.now) decl.now next).next < 2 ^ 32 }
    ensures { IfOk result (λ own. own.items ≡ (spec.decl_numbering (infos_in known.now) (known_in known.now) decl.now next).own) }
{
    let mut places = Places {
        own: Vec::new(alloc),
        next,
    };
    number_params(decl.params.as_slice(), &mut places)?;
    pass_exprs(known, decl.results.as_slice(), &mut places);
    number_eqns(known, decl.eqs.as_slice(), &mut places)?;
    Ok(places.own)
}
