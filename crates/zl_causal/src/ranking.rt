//! Ranks of the places and blocks of a flat form.
ghost use Rattle.std.specs.Prelude.{◌≡◌, ℕ, true, false, length, slice_index_or, None, IfOk, IfErr, IfSome, OnOk};
ghost use Rattle.zl_meaning.specs.Depends.{AreRanks};
ghost use Rattle.zl_meaning.specs.OneInstant.{HasOneInstantEach};
ghost use Rattle.zl_graph.specs.Circles.{AreCircles};
ghost use Rattle.zl_causal.specs.FormLinks as spec;
ghost use Rattle.zl_causal.specs.Nodes as nodes;
ghost use Rattle.zl_causal.specs.declared.node.Node.TheVariants as node;
ghost use Rattle.zl_causal.specs.Refused.{IsRanked, IsRefused, IsFirstMarked, IsBlockAdded, HasBlocks, HasPlaces};
ghost use Rattle.zl_causal.specs.Ranking.{NoPlace, NoBlock, ArePlaceNumbers, AreBlockNumbers};

use crate::links::links_of;
use crate::node::{Node, add_link, number_of};
use std::alloc::{AllocError, Global};
use zl_graph::{Circles, Link};
use zl_meaning::laws::is_well_formed;
use zl_meaning::{Flat, PlaceInfo, Ranks, narrow};
use zl_value::{Pos, Refusal, Rule};

/// A count as a number.
fn number(count: usize) -> Result<u32, AllocError>
    ensures { IfOk result (λ n. n ≡ count) }
{
    narrow(count as u64)
}

/// Whether a node leads to itself.
fn has(circles: &Circles, node: Node) -> Result<bool, AllocError>
    ensures { IfOk result (λ b. b ≡ slice_index_or circles.now.marks (nodes.number_of node) false) }
{
    let number = number_of(node)?;
    Ok(circles.has(number))
}

/// The first place that leads to itself, or whose `init` values lead back to it.
fn first_circled(circles: &Circles, places: &[PlaceInfo]) -> Result<Option<Pos>, AllocError>
    ensures none { IfOk result (λ first. first ≡ None → NoPlace circles.now.marks (length places.now)) }
    ensures first { IfOk result (λ first. IfSome first (IsFirstMarked circles.now.marks places.now)) }
{
    for (index, place) in places.iter().enumerate() {
        let p = number(index)?;
        if has(circles, Node::Place(p))? {
            return Ok(Some(place.at));
        }
        if has(circles, Node::Leads(p))? {
            return Ok(Some(place.at));
        }
    }
    Ok(None)
}

/// Whether some block leads to itself.
fn has_block(circles: &Circles, blocks: usize) -> Result<bool, AllocError>
    ensures none { IfOk result (λ some. some ≡ false → NoBlock circles.now.marks blocks) }
    ensures some { IfOk result (λ some. some ≡ true → (b : ℕ) × (slice_index_or circles.now.marks (nodes.number_of (node.Block b)) false ≡ true)) }
{
    for index in 0..blocks {
        let b = number(index)?;
        if has(circles, Node::Block(b))? {
            return Ok(true);
        }
    }
    Ok(false)
}

/// Links a block to the hub, if it leads to itself.
fn add_block(links: &mut Vec<Link>, circles: &Circles, b: u32) -> Result<(), AllocError>
    ensures { OnOk result (IsBlockAdded circles.now.marks b links.old.items links.new.items) }
{
    if has(circles, Node::Block(b))? {
        return add_link(links, Node::Block(b), Node::Hub);
    }
    Ok(())
}

/// Links each block that leads to itself to the hub.
fn add_blocks(links: &mut Vec<Link>, circles: &Circles, blocks: usize) -> Result<(), AllocError>
    ensures { OnOk result (HasBlocks circles.now.marks blocks links.old.items links.new.items) }
{
    for index in 0..blocks {
        let b = number(index)?;
        add_block(links, circles, b)?;
    }
    Ok(())
}

/// Links the hub to each place. So the places that lead to a block that is linked to the hub lead to themselves.
fn add_places(links: &mut Vec<Link>, places: usize) -> Result<(), AllocError>
    ensures { OnOk result (HasPlaces places links.old.items links.new.items) }
{
    for index in 0..places {
        let p = number(index)?;
        add_link(links, Node::Hub, Node::Place(p))?;
    }
    Ok(())
}

fn place_ranks(alloc: Global, circles: &Circles, places: usize) -> Result<Vec<u32>, AllocError>
    ensures { IfOk result (λ ranks. ArePlaceNumbers circles.now.numbers places ranks.items) }
{
    let mut ranks = Vec::new(alloc);
    for index in 0..places {
        let p = number(index)?;
        let node = number_of(Node::Place(p))?;
        ranks.push(circles.number(node))?;
    }
    Ok(ranks)
}

fn block_ranks(alloc: Global, circles: &Circles, blocks: usize) -> Result<Vec<u32>, AllocError>
    ensures { IfOk result (λ ranks. AreBlockNumbers circles.now.numbers blocks ranks.items) }
{
    let mut ranks = Vec::new(alloc);
    for index in 0..blocks {
        let b = number(index)?;
        let node = number_of(Node::Block(b))?;
        ranks.push(circles.number(node))?;
    }
    Ok(ranks)
}

/// The ranks of a form nothing in which depends on itself.
fn ranks_by(alloc: Global, flat: &Flat, circles: &Circles) -> Result<Ranks, AllocError>
    requires circles { AreCircles (spec.links_of flat.now) circles.now.numbers circles.now.marks }
    requires places { NoPlace circles.now.marks (length flat.now.places) }
    requires blocks { NoBlock circles.now.marks (length flat.now.blocks) }
    ensures { IfOk result (λ r. AreRanks flat.now r.places.items r.blocks.items) }
{
    let places = place_ranks(alloc, circles, flat.places.len())?;
    let blocks = block_ranks(alloc, circles, flat.blocks.len())?;
    Ok(Ranks { places, blocks })
}

/// Ranks, or the place at which the form is refused.
#[derive(Drop)]
enum Ranked {
    Causal(Ranks),
    Circular(Pos),
}

/// Of a form no place of which depends on itself: its ranks or, where a block does, the first place that depends on it.
fn ranked_by_blocks(
    alloc: Global,
    flat: &Flat,
    links: Vec<Link>,
    circles: &Circles,
) -> Result<Ranked, AllocError>
    requires links { links.items ≡ spec.links_of flat.now }
    requires circles { AreCircles (spec.links_of flat.now) circles.now.numbers circles.now.marks }
    requires places { NoPlace circles.now.marks (length flat.now.places) }
    ensures { IfOk result (IsRanked flat.now) }
{
    if !has_block(circles, flat.blocks.len())? {
        return Ok(Ranked::Causal(ranks_by(alloc, flat, circles)?));
    }
    let mut links = links;
    add_blocks(&mut links, circles, flat.blocks.len())?;
    add_places(&mut links, flat.places.len())?;
    let through = Circles::of(alloc, links.as_slice())?;
    let Some(at) = first_circled(&through, flat.places.as_slice())? else {
        unreachable!()
    };
    Ok(Ranked::Circular(at))
}

fn try_ranks(alloc: Global, flat: &Flat) -> Result<Ranked, AllocError>
    ensures { IfOk result (IsRanked flat.now) }
{
    let links = links_of(alloc, flat)?;
    let circles = Circles::of(alloc, links.as_slice())?;
    match first_circled(&circles, flat.places.as_slice())? {
        Some(at) => Ok(Ranked::Circular(at)),
        None => ranked_by_blocks(alloc, flat, links, &circles),
    }
}

/// Ranks of the places and blocks of a form that grow along every dependency; so after each history it has exactly one
/// instant of each kind. `Broken` with `Causality` where a place or a block depends on itself, at the first such place in the
/// order of expansion or, where no place does, at the first that depends on such a block; `Memory` for want of memory. The
/// rule is this project's own, after Zélus.
pub fn ranks(alloc: Global, flat: &Flat) -> Result<Ranks, Refusal>
    ensures ranks { IfOk result (λ r. AreRanks flat.now r.places.items r.blocks.items) }
    ensures one { IfOk result (λ _. HasOneInstantEach flat.now) }
    ensures refused { IfErr result (IsRefused flat.now) }
{
    is_well_formed(flat);
    match try_ranks(alloc, flat) {
        Ok(Ranked::Causal(ranks)) => Ok(ranks),
        Ok(Ranked::Circular(at)) => Err(Refusal::Broken {
            rule: Rule::Causality,
            at,
        }),
        Err(_) => Err(Refusal::Memory),
    }
}
