//! Which occurrences and places read the grades of which.
#![tactic(auto, using(crate::proofs::Appending::appending))]

ghost use Rattle.std.specs.Prelude.{◌≡◌, ◌++◌, ◌∷◌, [], map, OnOk, IfOk};
ghost use Rattle.std.specs.List.{flat_map};
ghost use Rattle.zl_grade.specs.Links as spec;
ghost use Rattle.zl_grade.specs.Numbered.{numbered};

use crate::node::{Link, Node};
use std::alloc::{AllocError, Global};
use zl_meaning::{Definer, Flat, Form, Occ, PlaceInfo};

fn add_link(links: &mut Vec<Link>, from: Node, to: Node) -> Result<(), AllocError>
    ensures { OnOk result (links.new.items ≡ links.old.items ++ spec.link from to ∷ []) }
{
    links.push(Link { from, to })?;
    Ok(())
}

/// An occurrence reads a part.
fn add_part(links: &mut Vec<Link>, k: usize, part: u32) -> Result<(), AllocError>
    ensures { OnOk result (links.new.items ≡ links.old.items ++ map (spec.part_link k) (part ∷ [])) }
{
    add_link(links, Node::Occ(part as usize), Node::Occ(k))
}

fn add_parts(links: &mut Vec<Link>, k: usize, parts: &[u32]) -> Result<(), AllocError>
    ensures { OnOk result (links.new.items ≡ links.old.items ++ map (spec.part_link k) parts.now) }
{
    for part in parts {
        add_part(links, k, *part)?;
    }
    Ok(())
}

fn add_form(links: &mut Vec<Link>, k: usize, form: &Form) -> Result<(), AllocError>
    ensures { OnOk result (links.new.items ≡ links.old.items ++ spec.form_links k form.now) }
{
    match form {
        Form::Read(p) => add_link(links, Node::Place(*p as usize), Node::Occ(k)),
        Form::Op(_, parts) => add_parts(links, k, parts.as_slice()),
        Form::If(_, x, y) => add_parts(links, k, &[*x, *y]),
        Form::Arrow(_, y) => add_part(links, k, *y),
        Form::Result(x) => add_part(links, k, *x),
        _ => Ok(()),
    }
}

fn add_occs(links: &mut Vec<Link>, occs: &[Occ]) -> Result<(), AllocError>
    ensures { OnOk result (links.new.items ≡ links.old.items ++ numbered spec.occ_links 0 occs.now) }
{
    for (k, occ) in occs.iter().enumerate() {
        add_form(links, k, &occ.form)?;
    }
    Ok(())
}

/// A place reads its plain definers.
fn add_definer(links: &mut Vec<Link>, p: usize, definer: &Definer) -> Result<(), AllocError>
    ensures { OnOk result (links.new.items ≡ links.old.items ++ spec.definer_links p definer.now) }
{
    match definer {
        Definer::Plain { block: _, occ } => add_link(
            links,
            Node::Occ(*occ as usize),
            Node::Place(p),
        ),
        _ => Ok(()),
    }
}

fn add_definers(links: &mut Vec<Link>, p: usize, definers: &[Definer]) -> Result<(), AllocError>
    ensures { OnOk result (links.new.items ≡ links.old.items ++ flat_map (spec.definer_links p) definers.now) }
{
    for definer in definers {
        add_definer(links, p, definer)?;
    }
    Ok(())
}

fn add_places(links: &mut Vec<Link>, places: &[PlaceInfo]) -> Result<(), AllocError>
    ensures { OnOk result (links.new.items ≡ links.old.items ++ numbered spec.place_links 0 places.now) }
{
    for (p, place) in places.iter().enumerate() {
        add_definers(links, p, place.definers.as_slice())?;
    }
    Ok(())
}

/// A link for each grade that an occurrence or a place reads.
pub(crate) fn links_of(alloc: Global, flat: &Flat) -> Result<Vec<Link>, AllocError>
    ensures { IfOk result (λ links. links.items ≡ spec.links_of flat.now) }
{
    let mut links = Vec::new(alloc);
    add_occs(&mut links, flat.occs.as_slice())?;
    add_places(&mut links, flat.places.as_slice())?;
    Ok(links)
}
