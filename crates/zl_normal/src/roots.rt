//! The roots of entries that each lead to another or to none.
ghost use Rattle.std.specs.Prelude.{◌≡◌, ◌<◌, ◌++◌, [], ◌∷◌, true, length, slice_get, get_or, None, IfOk};
ghost use Rattle.zl_normal.specs.Roots.{AreRoots, AreChained};
ghost use Rattle.zl_normal.specs.Table.{IsTable};
ghost use Rattle.zl_normal.specs.Roots as spec;

use crate::numbers::number_at;
use std::alloc::{AllocError, Global};
use zl_meaning::narrow;

fn link_at(links: &[Option<u32>], i: u32) -> Option<u32>
    ensures { result ≡ get_or links.now i None }
{
    match links.get(i as usize) {
        Some(link) => *link,
        None => None,
    }
}

/// Whether an entry is in no chain yet.
fn is_open(marks: &[Option<u32>], i: u32) -> bool
    ensures open { result ≡ spec.is_open (slice_get marks.now i) }
    ensures within { result ≡ true → i < length marks.now }
{
    match marks.get(i as usize) {
        Some(None) => true,
        _ => false,
    }
}

/// The root of an entry by its chain.
fn root_of(marks: &[Option<u32>], ends: &[u32], i: u32) -> u32
    ensures { result ≡ spec.root_of marks.now ends.now i }
{
    match marks.get(i as usize) {
        Some(Some(chain)) => number_at(ends, *chain),
        _ => i,
    }
}

/// Marks the chain from this entry to the first that is in one, and gives the root.
fn mark_chain(links: &[Option<u32>], marks: &mut Vec<Option<u32>>, ends: &[u32], start: u32) -> u32
    requires chained { AreChained links.now marks.old.items ends.now }
    requires start { start ≡ length ends.now }
    requires within { start < length links.now }
    ensures { AreChained links.now marks.new.items (ends.now ++ result ∷ []) }
{
    let mut at = start;
    while is_open(marks.as_slice(), at) {
        marks[at as usize] = Some(start);
        match link_at(links, at) {
            Some(next) => at = next,
            None => return at,
        }
    }
    root_of(marks.as_slice(), ends, at)
}

#[tactic(auto, using(crate::proofs::AreTables::no_table, crate::proofs::AreTables::more_table))]
fn no_marks(alloc: Global, count: usize) -> Result<Vec<Option<u32>>, AllocError>
    ensures { IfOk result (λ marks. IsTable marks.items count (λ i. None)) }
{
    let mut marks = Vec::new(alloc);
    for i in 0..count {
        marks.push(None)?;
    }
    Ok(marks)
}

#[tactic(auto, using(crate::proofs::AreTables::no_table, crate::proofs::AreTables::more_table))]
fn read_roots(alloc: Global, marks: &[Option<u32>], ends: &[u32]) -> Result<Vec<u32>, AllocError>
    ensures { IfOk result (λ roots. IsTable roots.items (length marks.now) (spec.root_of marks.now ends.now)) }
{
    let mut roots = Vec::new(alloc);
    for i in 0..marks.len() {
        roots.push(root_of(marks, ends, narrow(i as u64)?))?;
    }
    Ok(roots)
}

/// The root of each entry, by the entry that each leads to.
pub(crate) fn roots(alloc: Global, links: &[Option<u32>]) -> Result<Vec<u32>, AllocError>
    ensures { IfOk result (λ roots. AreRoots links.now roots.items) }
{
    let mut marks = no_marks(alloc, links.len())?;
    let mut ends = Vec::new(alloc);
    for i in 0..links.len() {
        let end = mark_chain(links, &mut marks, ends.as_slice(), narrow(i as u64)?);
        ends.push(end)?;
    }
    let roots = read_roots(alloc, marks.as_slice(), ends.as_slice())?;
    Ok(roots)
}
