//! What equations declare and define.
#![tactic(auto, using(crate::proofs::OutlineLemmas::outline_steps))]

ghost use Rattle.std.specs.Prelude.{◌≡◌, map, IfOk, OnOk};
ghost use Rattle.zl_ast.specs.Names.{strangers};
ghost use Rattle.zl_ast.specs.NamesDefined.{together, states_among, body_or_none, automaton_outline, left_outline, eqn_outline, arm_outline, body_outline, state_outline, eqns_outline};
ghost use Rattle.zl_ast.specs.declared.eqn.State.{out-State};
ghost use Rattle.zl_names.specs.Earliest.{earliest};
ghost use Rattle.zl_names.specs.Kept.{kept};

use crate::first::First;
use crate::outline::{Outline, entries_of, ids_of, insert_ids, note_clash, under};
use crate::repeats::{note_repeats, note_strangers};
use sqlite_items::Items;
use std::alloc::{AllocError, Global};
use zl_ast::{Arm, Body, Eqn, Move, Name, NameSet, State, VarClass};
use zl_value::Rule;

/// The left side of a plain equation. A name that it has twice breaks a rule.
fn outline_left(alloc: Global, left: &[Name], first: &mut First) -> Result<Outline, AllocError>
    ensures outline { IfOk result (λ o. o ≡ kept (left_outline left.now)) }
    ensures noted { OnOk result (first.new.found ≡ earliest first.old.found (left_outline left.now).broken) }
{
    let _ids = note_repeats(alloc, Rule::DefinedTwice, left, first)?;
    Ok(Outline {
        entries: entries_of(alloc, VarClass::Top, left)?,
        valued: ids_of(alloc, left)?,
        started: Items::new(alloc),
    })
}

fn names_of(alloc: Global, states: &[State]) -> Result<Vec<Name>, AllocError>
    ensures { IfOk result (λ names. names.items ≡ map (λ s. (out-State s).name) states.now) }
{
    let mut names = Vec::new(alloc);
    for state in states {
        names.push(state.name)?;
    }
    Ok(names)
}

fn targets_of(alloc: Global, moves: &[Move]) -> Result<Vec<Name>, AllocError>
    ensures { IfOk result (λ names. names.items ≡ map (λ m. m.target) moves.now) }
{
    let mut targets = Vec::new(alloc);
    for one in moves {
        targets.push(one.target)?;
    }
    Ok(targets)
}

/// Takes note of moves to states that the automaton hasn't.
fn note_targets(
    alloc: Global,
    ids: &NameSet,
    moves: &[Move],
    first: &mut First,
) -> Result<(), AllocError>
    ensures { OnOk result (first.new.found ≡ earliest first.old.found (strangers Rule.Branch ids.now (map (λ m. m.target) moves.now))) }
{
    let targets = targets_of(alloc, moves)?;
    note_strangers(Rule::Branch, ids, targets.as_slice(), first);
    Ok(())
}

#[cycle(outlines)]
fn outline_eqn(alloc: Global, eqn: &Eqn, first: &mut First) -> Result<Outline, AllocError>
    ensures outline { IfOk result (λ o. o ≡ kept (eqn_outline eqn.now)) }
    ensures noted { OnOk result (first.new.found ≡ earliest first.old.found (eqn_outline eqn.now).broken) }
{
    match eqn {
        Eqn::Plain { left, .. } => outline_left(alloc, left.as_slice(), first),
        Eqn::Der { name, start, .. } => Outline::of_name(alloc, *name, true, start.is_some()),
        Eqn::Start { name, .. } => Outline::of_name(alloc, *name, false, true),
        Eqn::Present { arms, other, .. } => {
            let mut all = outline_arms(alloc, arms.as_slice(), first)?;
            let last = outline_other(alloc, other, first)?;
            all.append(last)?;
            Ok(all)
        }
        Eqn::Automaton { states, .. } => outline_automaton(alloc, states.as_slice(), first),
        Eqn::Reset { eqs, .. } => outline_eqns(alloc, eqs.as_slice(), first),
    }
}

/// The outline of a list of equations, and what they break by what they define.
#[cycle(outlines)]
pub(crate) fn outline_eqns(
    alloc: Global,
    eqns: &[Eqn],
    first: &mut First,
) -> Result<Outline, AllocError>
    ensures outline { IfOk result (λ o. o ≡ kept (eqns_outline eqns.now)) }
    ensures noted { OnOk result (first.new.found ≡ earliest first.old.found (eqns_outline eqns.now).broken) }
{
    let mut all = Outline::empty(alloc);
    let mut valued = NameSet::new(alloc);
    let mut started = NameSet::new(alloc);
    for eqn in eqns {
        let one = outline_eqn(alloc, eqn, first)?;
        note_clash(alloc, &valued, &started, &one, first)?;
        insert_ids(&mut valued, one.valued.as_slice())?;
        insert_ids(&mut started, one.started.as_slice())?;
        all.append(one)?;
    }
    Ok(all)
}

#[cycle(outlines)]
fn outline_arms(alloc: Global, arms: &[Arm], first: &mut First) -> Result<Outline, AllocError>
    ensures outline { IfOk result (λ o. o ≡ kept (together (map arm_outline arms.now))) }
    ensures noted { OnOk result (first.new.found ≡ earliest first.old.found (together (map arm_outline arms.now)).broken) }
{
    let mut all = Outline::empty(alloc);
    for arm in arms {
        let one = outline_body(alloc, &arm.body, first)?;
        all.append(one)?;
    }
    Ok(all)
}

#[cycle(outlines)]
fn outline_other(
    alloc: Global,
    other: &Option<Body>,
    first: &mut First,
) -> Result<Outline, AllocError>
    ensures outline { IfOk result (λ o. o ≡ kept (body_or_none other.now)) }
    ensures noted { OnOk result (first.new.found ≡ earliest first.old.found (body_or_none other.now).broken) }
{
    match other {
        Some(body) => outline_body(alloc, body, first),
        None => Ok(Outline::empty(alloc)),
    }
}

#[cycle(outlines)]
fn outline_body(alloc: Global, body: &Body, first: &mut First) -> Result<Outline, AllocError>
    ensures outline { IfOk result (λ o. o ≡ kept (body_outline body.now)) }
    ensures noted { OnOk result (first.new.found ≡ earliest first.old.found (body_outline body.now).broken) }
{
    let inside = outline_eqns(alloc, body.eqs.as_slice(), first)?;
    under(alloc, body.locals.as_slice(), inside, first)
}

/// Two states of one name break a rule.
#[cycle(outlines)]
fn outline_automaton(
    alloc: Global,
    states: &[State],
    first: &mut First,
) -> Result<Outline, AllocError>
    ensures outline { IfOk result (λ o. o ≡ kept (automaton_outline (map state_outline states.now))) }
    ensures noted { OnOk result (first.new.found ≡ earliest first.old.found (automaton_outline (map state_outline states.now)).broken) }
{
    let names = names_of(alloc, states)?;
    let ids = note_repeats(alloc, Rule::Branch, names.as_slice(), first)?;
    outline_states(alloc, &ids, states, first)
}

#[cycle(outlines)]
fn outline_states(
    alloc: Global,
    ids: &NameSet,
    states: &[State],
    first: &mut First,
) -> Result<Outline, AllocError>
    ensures outline { IfOk result (λ o. o ≡ kept (states_among ids.now (map state_outline states.now))) }
    ensures noted { OnOk result (first.new.found ≡ earliest first.old.found (states_among ids.now (map state_outline states.now)).broken) }
{
    let mut all = Outline::empty(alloc);
    for state in states {
        note_targets(alloc, ids, state.moves.as_slice(), first)?;
        let one = outline_body(alloc, &state.body, first)?;
        all.append(one)?;
    }
    Ok(all)
}
