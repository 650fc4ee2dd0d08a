//! The wires of occurrences and places, each of which has a wire of its own or that of another.
#![tactic(auto, using(crate::proofs::AreTables::no_table, crate::proofs::AreTables::more_table))]

ghost use Rattle.std.specs.Prelude.{◌≡◌, ◌+◌, ◌++◌, length, slice_get, Some, IfOk};
ghost use Rattle.zl_normal.specs.Table.{IsTable};
ghost use Rattle.zl_normal.specs.Joined.{AreJoined};
ghost use Rattle.zl_normal.specs.Joined as spec;
ghost use Rattle.zl_normal.specs.declared.joined.Origin.TheVariants as variant;

use crate::guards::root_at;
use crate::roots::roots;
use std::alloc::{AllocError, Global};
use zl_meaning::narrow;

/// Where a wire is from: it has this number, or is that of an occurrence or of a place.
#[derive(Clone, Copy, Debug)]
pub(crate) enum Origin {
    Own(u32),
    OfOcc(u32),
    OfPlace(u32),
}

/// The wires of occurrences and of places.
#[derive(Debug, Drop)]
pub(crate) struct Joined {
    pub(crate) occs: Vec<u32>,
    pub(crate) places: Vec<u32>,
}

fn origin_in(origins: &[Origin], i: usize) -> Option<Origin>
    ensures { result ≡ slice_get origins.now i }
{
    match origins.get(i) {
        Some(origin) => Some(*origin),
        None => None,
    }
}

#[tactic(auto, using(crate::proofs::Joining::in_both))]
fn origin_at(occs: &[Origin], places: &[Origin], i: u32) -> Option<Origin>
    ensures { result ≡ slice_get (occs.now ++ places.now) i }
{
    if (i as usize) < occs.len() {
        origin_in(occs, i as usize)
    } else {
        origin_in(places, i as usize - occs.len())
    }
}

fn occ_link(count: u32, j: u32) -> Option<u32>
    ensures { result ≡ spec.link_of count (Some (variant.OfOcc j)) }
{
    if j < count { Some(j) } else { None }
}

fn link_of(count: u32, origin: Option<Origin>) -> Result<Option<u32>, AllocError>
    ensures { IfOk result (λ link. link ≡ spec.link_of count origin) }
{
    match origin {
        Some(Origin::OfOcc(j)) => Ok(occ_link(count, j)),
        Some(Origin::OfPlace(p)) => {
            let place = narrow(count as u64 + p as u64)?;
            Ok(Some(place))
        }
        Some(Origin::Own(_)) => Ok(None),
        None => Ok(None),
    }
}

fn links_of(
    alloc: Global,
    occs: &[Origin],
    places: &[Origin],
) -> Result<Vec<Option<u32>>, AllocError>
    ensures { IfOk result (λ links. IsTable links.items (length occs.now + length places.now) (λ i. spec.link_of (length occs.now) (slice_get (occs.now ++ places.now) i))) }
{
    let mut links = Vec::new(alloc);
    let count = narrow(occs.len() as u64)?;
    let rest = narrow(places.len() as u64)?;
    for i in 0..count as u64 + rest as u64 {
        let link = link_of(count, origin_at(occs, places, narrow(i)?))?;
        links.push(link)?;
    }
    Ok(links)
}

fn own_number(origin: Option<Origin>) -> u32
    ensures { result ≡ spec.own_number origin }
{
    match origin {
        Some(Origin::Own(wire)) => wire,
        _ => 0,
    }
}

fn number_of(occs: &[Origin], places: &[Origin], roots: &[u32], i: u32) -> u32
    ensures { result ≡ spec.number_by (occs.now ++ places.now) roots.now i }
{
    own_number(origin_at(occs, places, root_at(roots, i)))
}

fn numbers_of(
    alloc: Global,
    occs: &[Origin],
    places: &[Origin],
    roots: &[u32],
    first: u32,
    count: usize,
) -> Result<Vec<u32>, AllocError>
    ensures { IfOk result (λ numbers. IsTable numbers.items count (λ i. spec.number_by (occs.now ++ places.now) roots.now (first + i))) }
{
    let mut numbers = Vec::new(alloc);
    for i in 0..count {
        let at = narrow(first as u64 + narrow(i as u64)? as u64)?;
        numbers.push(number_of(occs, places, roots, at))?;
    }
    Ok(numbers)
}

/// The wires of occurrences and places with these origins.
pub(crate) fn join(alloc: Global, occs: &[Origin], places: &[Origin]) -> Result<Joined, AllocError>
    ensures { IfOk result (λ joined. AreJoined occs.now places.now joined.occs.items joined.places.items) }
{
    let links = links_of(alloc, occs, places)?;
    let found = roots(alloc, links.as_slice())?;
    let count = narrow(occs.len() as u64)?;
    let of_occs = numbers_of(alloc, occs, places, found.as_slice(), 0, occs.len())?;
    let of_places = numbers_of(alloc, occs, places, found.as_slice(), count, places.len())?;
    Ok(Joined {
        occs: of_occs,
        places: of_places,
    })
}
