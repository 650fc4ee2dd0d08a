//! The variables that have a value from the first instant on by the form of the equations.
#![tactic(auto, using(crate::proofs::GivenLemmas::given_steps))]

ghost use Rattle.std.specs.Prelude.{◌≡◌, None, [], ◌∷◌, ◌++◌, if◌then◌else◌, map, IfOk, OnOk};
ghost use Rattle.zl_ast.specs.Anchored as spec;
ghost use Rattle.zl_ast.specs.Anchored.{defined_ids, together, eqn_given, arm_given, body_given, state_given, eqns_given, other_body_given};
ghost use Rattle.zl_ast.specs.Names.{with_ids, ids_of};
ghost use Rattle.zl_init.specs.Kept.{with_defined, with_locals, narrowed_by, shared_with, shared_with_each, common_after};

use crate::name_set::{insert_ids, set_of_ids};
use sqlite_items::Items;
use std::alloc::{AllocError, Global};
use zl_ast::{Arm, Body, Eqn, Name, NameSet, State};

/// What a list of equations gives names, by their numbers.
#[derive(Drop)]
pub(crate) struct Defined {
    /// The names that it surely defines.
    pub(crate) defined: Items<u32>,
    /// The names to which it gives an `init`, in `reset` blocks at most.
    pub(crate) started: Items<u32>,
}

/// Locals of the bodies of a declaration.
#[derive(Drop)]
pub(crate) struct Locals {
    /// Those that are anchored.
    pub(crate) anchored: Items<u32>,
    /// Those that are anchored or surely defined.
    pub(crate) settled: Items<u32>,
}

/// The variables of a declaration that have a value from the first instant on by the form of its equations.
#[derive(Drop)]
pub(crate) struct Settled {
    pub(crate) anchored: NameSet,
    /// Those that are anchored or surely defined.
    pub(crate) settled: NameSet,
}

impl Defined {
    fn new(alloc: Global) -> Defined
        ensures defined { result.defined ≡ [] }
        ensures started { result.started ≡ [] }
    {
        Defined {
            defined: Items::new(alloc),
            started: Items::new(alloc),
        }
    }
}

fn push_names(ids: &mut Items<u32>, names: &[Name]) -> Result<(), AllocError>
    ensures { OnOk result (ids.new ≡ ids.old ++ ids_of names.now) }
{
    for name in names {
        ids.push(name.id)?;
    }
    Ok(())
}

/// Those of the numbers that are in the other list too.
fn shared(alloc: Global, ids: &[u32], other: &[u32]) -> Result<Items<u32>, AllocError>
    ensures { IfOk result (λ shared. shared ≡ shared_with other.now ids.now) }
{
    let others = set_of_ids(alloc, other)?;
    let mut shared = Items::new(alloc);
    push_shared(&mut shared, &others, ids)?;
    Ok(shared)
}

#[tactic(auto, using(crate::proofs::GivenLemmas::given_steps), unfolding(crate::specs::Kept::shared_with))]
fn push_shared(shared: &mut Items<u32>, others: &NameSet, ids: &[u32]) -> Result<(), AllocError>
    ensures { OnOk result (shared.new ≡ shared.old ++ shared_with others.now ids.now) }
{
    for id in ids {
        push_id_if(shared, others.contains(*id), *id)?;
    }
    Ok(())
}

fn push_id_if(ids: &mut Items<u32>, wanted: bool, id: u32) -> Result<(), AllocError>
    ensures { OnOk result (ids.new ≡ ids.old ++ (if wanted then id ∷ [] else [])) }
{
    if wanted {
        ids.push(id)?;
    }
    Ok(())
}

/// Those of the numbers found that are in the list too, or the whole list where none was found yet.
fn narrowed(
    alloc: Global,
    found: &Option<Items<u32>>,
    ids: Items<u32>,
) -> Result<Items<u32>, AllocError>
    ensures { IfOk result (λ narrowed. narrowed ≡ narrowed_by found.now ids) }
{
    match found {
        Some(found) => shared(alloc, found.as_slice(), ids.as_slice()),
        None => Ok(ids),
    }
}

/// Adds the locals among these numbers.
fn push_held(
    alloc: Global,
    held: &mut Items<u32>,
    locals: &[Name],
    ids: &[u32],
    more: &[u32],
) -> Result<(), AllocError>
    ensures { OnOk result (held.new ≡ held.old ++ shared_with (ids.now ++ more.now) (ids_of locals.now)) }
{
    let mut set = set_of_ids(alloc, ids)?;
    insert_ids(&mut set, more)?;
    push_held_in(held, locals, &set)
}

#[tactic(auto, using(crate::proofs::GivenLemmas::given_steps), unfolding(crate::specs::Kept::shared_with))]
fn push_held_in(held: &mut Items<u32>, locals: &[Name], set: &NameSet) -> Result<(), AllocError>
    ensures { OnOk result (held.new ≡ held.old ++ shared_with set.now (ids_of locals.now)) }
{
    for local in locals {
        push_id_if(held, set.contains(local.id), local.id)?;
    }
    Ok(())
}

fn give_der(list: &mut Defined, name: Name, has_start: bool) -> Result<(), AllocError>
    ensures { OnOk result (list.new ≡ with_defined list.old (spec.der_given name has_start)) }
{
    if has_start {
        list.defined.push(name.id)?;
        list.started.push(name.id)?;
    }
    Ok(())
}

#[cycle(given)]
fn give_eqn(
    alloc: Global,
    eqn: &Eqn,
    list: &mut Defined,
    locals: &mut Locals,
) -> Result<(), AllocError>
    ensures list { OnOk result (list.new ≡ with_defined list.old (eqn_given eqn.now)) }
    ensures locals { OnOk result (locals.new ≡ with_locals locals.old (eqn_given eqn.now)) }
{
    match eqn {
        Eqn::Plain { left, .. } => push_names(&mut list.defined, left.as_slice())?,
        Eqn::Der { name, start, .. } => give_der(list, *name, start.is_some())?,
        Eqn::Start { name, .. } => list.started.push(name.id)?,
        Eqn::Present { arms, other, .. } => {
            let ids = give_other(alloc, other, locals)?;
            let ids = give_arms(alloc, arms.as_slice(), ids, locals)?;
            list.defined.append(ids)?;
        }
        Eqn::Automaton { states, .. } => {
            let ids = give_states(alloc, states.as_slice(), locals)?;
            list.defined.append(ids)?;
        }
        Eqn::Reset { eqs, .. } => give_eqns(alloc, eqs.as_slice(), list, locals)?,
    }
    Ok(())
}

#[cycle(given)]
fn give_eqns(
    alloc: Global,
    eqns: &[Eqn],
    list: &mut Defined,
    locals: &mut Locals,
) -> Result<(), AllocError>
    ensures list { OnOk result (list.new ≡ with_defined list.old (eqns_given eqns.now)) }
    ensures locals { OnOk result (locals.new ≡ with_locals locals.old (eqns_given eqns.now)) }
{
    for eqn in eqns {
        give_eqn(alloc, eqn, list, locals)?;
    }
    Ok(())
}

/// The names that the body surely defines.
#[cycle(given)]
fn give_body(alloc: Global, body: &Body, locals: &mut Locals) -> Result<Items<u32>, AllocError>
    ensures ids { IfOk result (λ ids. ids ≡ (body_given body.now).defined) }
    ensures locals { OnOk result (locals.new ≡ with_locals locals.old (body_given body.now)) }
{
    let mut list = Defined::new(alloc);
    give_eqns(alloc, body.eqs.as_slice(), &mut list, locals)?;
    let names = body.locals.as_slice();
    push_held(
        alloc,
        &mut locals.anchored,
        names,
        list.started.as_slice(),
        &[],
    )?;
    push_held(
        alloc,
        &mut locals.settled,
        names,
        list.started.as_slice(),
        list.defined.as_slice(),
    )?;
    Ok(list.defined)
}

/// The names that the `else` body surely defines: none without it.
#[cycle(given)]
fn give_other(
    alloc: Global,
    other: &Option<Body>,
    locals: &mut Locals,
) -> Result<Items<u32>, AllocError>
    ensures ids { IfOk result (λ ids. ids ≡ (other_body_given other.now).defined) }
    ensures locals { OnOk result (locals.new ≡ with_locals locals.old (other_body_given other.now)) }
{
    match other {
        Some(body) => give_body(alloc, body, locals),
        None => Ok(Items::new(alloc)),
    }
}

/// Those of the numbers that each arm surely defines.
#[cycle(given)]
fn give_arms(
    alloc: Global,
    arms: &[Arm],
    mut ids: Items<u32>,
    locals: &mut Locals,
) -> Result<Items<u32>, AllocError>
    ensures ids { IfOk result (λ left. left ≡ shared_with_each (defined_ids (map arm_given arms.now)) ids) }
    ensures locals { OnOk result (locals.new ≡ with_locals locals.old (together (map arm_given arms.now))) }
{
    for arm in arms {
        let one = give_body(alloc, &arm.body, locals)?;
        ids = shared(alloc, ids.as_slice(), one.as_slice())?;
    }
    Ok(ids)
}

/// The names that each state surely defines.
#[cycle(given)]
fn give_states(
    alloc: Global,
    states: &[State],
    locals: &mut Locals,
) -> Result<Items<u32>, AllocError>
    ensures ids { IfOk result (λ ids. ids ≡ common_after None (defined_ids (map state_given states.now))) }
    ensures locals { OnOk result (locals.new ≡ with_locals locals.old (together (map state_given states.now))) }
{
    let mut found = None;
    for state in states {
        let ids = give_body(alloc, &state.body, locals)?;
        found = Some(narrowed(alloc, &found, ids)?);
    }
    match found {
        Some(ids) => Ok(ids),
        None => Ok(Items::new(alloc)),
    }
}

/// The variables of a declaration with these equations that have a value from the first instant on by their form.
pub(crate) fn settled_by(alloc: Global, eqns: &[Eqn]) -> Result<Settled, AllocError>
    ensures anchored { IfOk result (λ s. s.anchored ≡ with_ids [] (spec.anchored eqns.now)) }
    ensures settled { IfOk result (λ s. s.settled ≡ with_ids [] (spec.settled eqns.now)) }
{
    let mut list = Defined::new(alloc);
    let mut locals = Locals {
        anchored: Items::new(alloc),
        settled: Items::new(alloc),
    };
    give_eqns(alloc, eqns, &mut list, &mut locals)?;
    let mut anchored = set_of_ids(alloc, locals.anchored.as_slice())?;
    insert_ids(&mut anchored, list.started.as_slice())?;
    let mut settled = set_of_ids(alloc, locals.settled.as_slice())?;
    insert_ids(&mut settled, list.started.as_slice())?;
    insert_ids(&mut settled, list.defined.as_slice())?;
    Ok(Settled { anchored, settled })
}
