//! The occurrences from which others have their guards, and what is always evaluated.
ghost use Rattle.std.specs.Prelude.{◌≡◌, length, slice_get, slice_set, get_or, true, IfOk};
ghost use Rattle.zl_meaning.specs.FlatForm as form;
ghost use Rattle.zl_normal.specs.Table.{IsTable};
ghost use Rattle.zl_normal.specs.GuardRoots.{AreGuardRoots, AreLasts};
ghost use Rattle.zl_normal.specs.GuardRoots as spec;

use crate::role::Role;
use crate::roots::roots;
use std::alloc::{AllocError, Global};
use zl_meaning::{Flat, Form, narrow};

fn call_of(flat: &Flat, j: u32) -> Option<u32>
    ensures { result ≡ form.call_of flat.now j }
{
    match flat.occs.as_slice().get(j as usize) {
        Some(occ) => occ.call,
        None => None,
    }
}

/// The call in whose copy a place stands.
pub(crate) fn place_call(flat: &Flat, p: u32) -> Option<u32>
    ensures { result ≡ form.place_call flat.now p }
{
    match flat.places.as_slice().get(p as usize) {
        Some(place) => place.call,
        None => None,
    }
}

/// The occurrence from which one that is used so has its guard.
fn guard_link(flat: &Flat, j: u32, role: Role) -> Option<u32>
    ensures { result ≡ spec.guard_link flat.now j role }
{
    match role {
        Role::Unused => call_of(flat, j),
        Role::Part(whole) => Some(whole),
        Role::Definer(p) | Role::Slope(p) | Role::Event(p) => place_call(flat, p),
        _ => None,
    }
}

#[tactic(auto, using(crate::proofs::AreTables::no_table, crate::proofs::AreTables::more_table))]
fn guard_links(alloc: Global, flat: &Flat, roles: &[Role]) -> Result<Vec<Option<u32>>, AllocError>
    ensures { IfOk result (λ links. IsTable links.items (length roles.now) (λ j. spec.link_by flat.now j (slice_get roles.now j))) }
{
    let mut links = Vec::new(alloc);
    for j in 0..roles.len() {
        links.push(guard_link(flat, narrow(j as u64)?, roles[j]))?;
    }
    Ok(links)
}

/// The roots of the guards: an occurrence has the guard of its root.
pub(crate) fn guard_roots(
    alloc: Global,
    flat: &Flat,
    roles: &[Role],
) -> Result<Vec<u32>, AllocError>
    ensures { IfOk result (λ roots. AreGuardRoots flat.now roles.now roots.items) }
{
    let links = guard_links(alloc, flat, roles)?;
    let found = roots(alloc, links.as_slice())?;
    Ok(found)
}

fn role_at(roles: &[Role], j: u32) -> Option<Role>
    ensures { result ≡ slice_get roles.now j }
{
    match roles.get(j as usize) {
        Some(role) => Some(*role),
        None => None,
    }
}

/// The root of an entry; what is no entry is its own.
pub(crate) fn root_at(roots: &[u32], j: u32) -> u32
    ensures { result ≡ get_or roots.now j j }
{
    match roots.get(j as usize) {
        Some(root) => *root,
        None => j,
    }
}

fn has_guard(role: Option<Role>) -> bool
    ensures { result ≡ spec.has_guard role }
{
    match role {
        Some(
            Role::Branch {
                whole: _,
                condition: _,
                side: _,
            },
        ) => true,
        Some(
            Role::Both {
                whole: _,
                condition: _,
            },
        ) => true,
        Some(Role::Start(_)) => true,
        Some(Role::Reset { place: _, arm: _ }) => true,
        _ => false,
    }
}

fn is_free_root(roles: &[Role], roots: &[u32], j: u32) -> bool
    ensures { result ≡ spec.is_free_root roles.now roots.now j }
{
    !has_guard(role_at(roles, root_at(roots, j)))
}

/// Whether each occurrence is always evaluated.
#[tactic(auto, using(crate::proofs::AreTables::no_table, crate::proofs::AreTables::more_table))]
pub(crate) fn free_of(alloc: Global, roles: &[Role], roots: &[u32]) -> Result<Vec<bool>, AllocError>
    ensures { IfOk result (λ free. IsTable free.items (length roles.now) (spec.is_free_root roles.now roots.now)) }
{
    let mut free = Vec::new(alloc);
    for j in 0..roles.len() {
        free.push(is_free_root(roles, roots, narrow(j as u64)?))?;
    }
    Ok(free)
}

/// Each literal is the first that is equal to it.
#[tactic(auto, using(crate::proofs::AreTables::no_table, crate::proofs::AreTables::more_table))]
pub(crate) fn firsts_of(alloc: Global, count: usize) -> Result<Vec<u32>, AllocError>
    ensures { IfOk result (λ firsts. IsTable firsts.items count (λ j. j)) }
{
    let mut firsts = Vec::new(alloc);
    for j in 0..count {
        firsts.push(narrow(j as u64)?)?;
    }
    Ok(firsts)
}

#[tactic(auto, using(crate::proofs::LastMarks::set_past))]
fn mark(marks: &mut Vec<bool>, p: u32)
    ensures { marks.new.items ≡ slice_set marks.old.items p true }
{
    if (p as usize) < marks.len() {
        marks[p as usize] = true;
    }
}

fn mark_last(marks: &mut Vec<bool>, form: &Form)
    ensures { marks.new.items ≡ spec.marked_last form.now marks.old.items }
{
    match form {
        Form::Last(p) => mark(marks, *p),
        _ => {}
    }
}

/// Which places are asked for their `last`.
pub(crate) fn lasts_of(alloc: Global, flat: &Flat) -> Result<Vec<bool>, AllocError>
    ensures { IfOk result (λ lasts. AreLasts flat.now lasts.items) }
{
    let mut lasts = vec![in alloc; false; flat.places.len()]?;
    for occ in flat.occs.as_slice() {
        mark_last(&mut lasts, &occ.form);
    }
    Ok(lasts)
}
