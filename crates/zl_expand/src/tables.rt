//! The tables of a flat form, made of what a walk made.
#![tactic(auto, using(crate::proofs::TableLemmas::tabling))]

ghost use Rattle.std.specs.Prelude.{◌≡◌, ◌++◌, [], map, OnOk, IfOk};
ghost use Rattle.zl_value.specs.Lists.{listed};
ghost use Rattle.zl_flat.specs.Expansion.{form_of};
ghost use Rattle.zl_expand.specs.Tables as spec;

use crate::parts::Parts;
use std::alloc::{AllocError, Global};
use zl_flat::Given;
use zl_meaning::{Auto, Block, Choice, Definer, Occ, PlaceInfo, SiteInfo};
use zl_value::Sequence;

/// The tables of a flat form.
#[derive(Debug, Drop)]
pub struct Tables {
    pub blocks: Sequence<Block>,
    pub places: Sequence<PlaceInfo>,
    pub occs: Sequence<Occ>,
    pub sites: Sequence<SiteInfo>,
    pub choices: Sequence<Choice>,
    pub automata: Sequence<Auto>,
    pub again: Sequence<u32>,
    pub ins: Sequence<u32>,
    pub outs: Sequence<u32>,
}

/// A list for each place, which has no definers as yet.
fn no_definers(alloc: Global, places: usize) -> Result<Vec<Vec<Definer>>, AllocError>
    ensures { IfOk result (λ lists. map (λ ds. ds.items) lists.items ≡ listed places 0 (λ p. [])) }
{
    let mut lists = Vec::new(alloc);
    for _place in 0..places {
        lists.push(Vec::new(alloc))?;
    }
    Ok(lists)
}

/// Puts a definer behind the others of its place.
fn give(lists: &mut Vec<Vec<Definer>>, given: Given) -> Result<(), AllocError>
    ensures { OnOk result (map (λ ds. ds.items) lists.new.items ≡ spec.given_more (map (λ ds. ds.items) lists.old.items) given.place given.definer) }
{
    match lists.get_mut(given.place as usize) {
        Some(list) => {
            list.push(given.definer)?;
            Ok(())
        }
        None => Ok(()),
    }
}

/// The definers of each place, in the order of the walk.
fn by_place(
    alloc: Global,
    places: usize,
    definers: Vec<Given>,
) -> Result<Vec<Vec<Definer>>, AllocError>
    ensures { IfOk result (λ lists. map (λ ds. ds.items) lists.items ≡ spec.by_place places definers.items) }
{
    let mut lists = no_definers(alloc, places)?;
    for given in definers {
        give(&mut lists, given)?;
    }
    Ok(lists)
}

/// The places with their definers.
fn with_lists(
    alloc: Global,
    places: Vec<PlaceInfo>,
    lists: Vec<Vec<Definer>>,
) -> Result<Vec<PlaceInfo>, AllocError>
    ensures { IfOk result (λ defined. defined.items ≡ spec.with_lists places.items (map (λ ds. ds.items) lists.items)) }
{
    let mut defined = Vec::new(alloc);
    let mut rest = lists.into_iter();
    for place in places {
        let Some(definers) = rest.next() else {
            return Ok(defined);
        };
        defined.push(PlaceInfo {
            block: place.block,
            call: place.call,
            ty: place.ty,
            name: place.name,
            at: place.at,
            definers: Sequence::from_vec(definers),
        })?;
    }
    Ok(defined)
}

/// Puts the hidden occurrences behind the others.
fn all_occs(mut occs: Vec<Occ>, mut hidden: Vec<Occ>) -> Result<Vec<Occ>, AllocError>
    ensures { IfOk result (λ all. all.items ≡ occs.items ++ hidden.items) }
{
    occs.append(&mut hidden)?;
    Ok(occs)
}

pub(crate) fn make_tables(
    alloc: Global,
    parts: Parts,
    ins: Vec<u32>,
    outs: Vec<u32>,
) -> Result<Tables, AllocError>
    ensures { IfOk result (λ t. spec.form_in t ≡ form_of parts ins.items outs.items) }
{
    let lists = by_place(alloc, parts.places.len(), parts.definers)?;
    let places = with_lists(alloc, parts.places, lists)?;
    let occs = all_occs(parts.occs, parts.hidden)?;
    Ok(Tables {
        blocks: Sequence::from_vec(parts.blocks),
        places: Sequence::from_vec(places),
        occs: Sequence::from_vec(occs),
        sites: Sequence::from_vec(parts.sites),
        choices: Sequence::from_vec(parts.choices),
        automata: Sequence::from_vec(parts.automata),
        again: Sequence::from_vec(Vec::new(alloc)),
        ins: Sequence::from_vec(ins),
        outs: Sequence::from_vec(outs),
    })
}
