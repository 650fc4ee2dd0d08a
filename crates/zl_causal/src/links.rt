//! The links of the graph of a form.
#![tactic(auto, using(crate::proofs::LinkLaws::appending))]

ghost use Rattle.std.specs.Prelude.{◌≡◌, ◌+◌, ◌++◌, length, OnOk, IfOk};
ghost use Rattle.std.specs.List.{flat_map};
ghost use Rattle.zl_meaning.specs.declared.place.Definer.TheVariants as definer;
ghost use Rattle.zl_causal.specs.FormLinks as spec;

use crate::node::{Node, add_link};
use std::alloc::{AllocError, Global};
use zl_graph::Link;
use zl_meaning::{
    Auto, AutoMove, Block, BlockKind, Choice, Definer, DerArm, Flat, Form, Occ, PlaceInfo, narrow,
};
use zl_value::Sequence;

/// The number behind this one.
fn next(number: u32) -> Result<u32, AllocError>
    ensures { IfOk result (λ m. m ≡ number + 1) }
{
    narrow(number as u64 + 1)
}

/// An occurrence reads a part.
fn add_part(links: &mut Vec<Link>, k: u32, part: u32) -> Result<(), AllocError>
    ensures { OnOk result (links.new.items ≡ links.old.items ++ spec.reading k part) }
{
    add_link(links, Node::Value(k), Node::Value(part))?;
    add_link(links, Node::Lasts(k), Node::Lasts(part))?;
    add_link(links, Node::Used(part), Node::Used(k))
}

fn add_parts(links: &mut Vec<Link>, k: u32, parts: &[u32]) -> Result<(), AllocError>
    ensures { OnOk result (links.new.items ≡ links.old.items ++ flat_map (spec.reading k) parts.now) }
{
    for part in parts {
        add_part(links, k, *part)?;
    }
    Ok(())
}

/// The branches of an `if` are evaluated by its condition.
fn add_branches(links: &mut Vec<Link>, c: u32, x: u32, y: u32) -> Result<(), AllocError>
    ensures { OnOk result (links.new.items ≡ links.old.items ++ spec.branch_links c x y) }
{
    add_link(links, Node::Used(x), Node::Value(c))?;
    add_link(links, Node::Used(y), Node::Value(c))
}

fn add_form(links: &mut Vec<Link>, k: u32, form: &Form) -> Result<(), AllocError>
    ensures { OnOk result (links.new.items ≡ links.old.items ++ spec.form_links k form.now) }
{
    match form {
        Form::Lit(_) => Ok(()),
        Form::Read(p) => add_link(links, Node::Value(k), Node::Place(*p)),
        Form::Last(p) => {
            add_link(links, Node::Value(k), Node::Start(*p))?;
            add_link(links, Node::Lasts(k), Node::Leads(*p))
        }
        Form::Op(_, parts) => add_parts(links, k, parts.as_slice()),
        Form::If(c, x, y) => {
            add_parts(links, k, &[*c, *x, *y])?;
            add_branches(links, *c, *x, *y)
        }
        Form::Arrow(x, y) => add_parts(links, k, &[*x, *y]),
        Form::Pre(x) => add_link(links, Node::Used(*x), Node::Used(k)),
        Form::Result(x) => add_part(links, k, *x),
        Form::Up(_) => Ok(()),
        Form::Fired(parts) => add_parts(links, k, parts.as_slice()),
        Form::Step => Ok(()),
    }
}

fn add_call(links: &mut Vec<Link>, k: u32, call: Option<u32>) -> Result<(), AllocError>
    ensures { OnOk result (links.new.items ≡ links.old.items ++ spec.call_links k call) }
{
    match call {
        Some(call) => add_link(links, Node::Used(k), Node::Used(call)),
        None => Ok(()),
    }
}

fn add_occs(links: &mut Vec<Link>, occs: &[Occ]) -> Result<(), AllocError>
    ensures { OnOk result (links.new.items ≡ links.old.items ++ spec.occs_links 0 occs.now) }
{
    let mut k = 0;
    for occ in occs {
        add_call(links, k, occ.call)?;
        add_form(links, k, &occ.form)?;
        k = next(k)?;
    }
    Ok(())
}

fn add_arm(links: &mut Vec<Link>, p: u32, d: u32, arm: DerArm) -> Result<(), AllocError>
    ensures { OnOk result (links.new.items ≡ links.old.items ++ spec.arm_links p d arm) }
{
    add_link(links, Node::Place(p), Node::Value(arm.event))?;
    add_link(links, Node::Place(p), Node::Value(arm.value))?;
    add_link(links, Node::Used(arm.value), Node::Events(d))?;
    add_link(links, Node::Events(d), Node::Value(arm.event))
}

fn add_arms(links: &mut Vec<Link>, p: u32, d: u32, arms: &[DerArm]) -> Result<(), AllocError>
    ensures { OnOk result (links.new.items ≡ links.old.items ++ flat_map (spec.arm_links p d) arms.now) }
{
    for arm in arms {
        add_arm(links, p, d, *arm)?;
    }
    Ok(())
}

fn add_init(links: &mut Vec<Link>, p: u32, block: u32, occ: u32) -> Result<(), AllocError>
    ensures { OnOk result (links.new.items ≡ links.old.items ++ spec.definer_links p 0 (definer.Start block occ)) }
{
    add_link(links, Node::Place(p), Node::Block(block))?;
    add_link(links, Node::Place(p), Node::Value(occ))?;
    add_link(links, Node::Start(p), Node::Block(block))?;
    add_link(links, Node::Start(p), Node::Value(occ))?;
    add_link(links, Node::Leads(p), Node::Lasts(occ))
}

fn add_definer(links: &mut Vec<Link>, p: u32, d: u32, definer: &Definer) -> Result<(), AllocError>
    ensures { OnOk result (links.new.items ≡ links.old.items ++ spec.definer_links p d definer.now) }
{
    match definer {
        Definer::Input(_) => Ok(()),
        Definer::Plain { block, occ } => {
            add_link(links, Node::Place(p), Node::Block(*block))?;
            add_link(links, Node::Place(p), Node::Value(*occ))
        }
        Definer::Der {
            block,
            slope: _,
            resets,
        } => {
            add_link(links, Node::Place(p), Node::Block(*block))?;
            add_arms(links, p, d, resets.as_slice())
        }
        Definer::Start { block, occ } => add_init(links, p, *block, *occ),
    }
}

/// Adds the links of the definers of a place, of which the first has this number among those of all places. It answers the
/// number behind the last.
fn add_definers(
    links: &mut Vec<Link>,
    p: u32,
    first: u32,
    definers: &[Definer],
) -> Result<u32, AllocError>
    ensures links { OnOk result (links.new.items ≡ links.old.items ++ spec.definers_links p first definers.now) }
    ensures number { IfOk result (λ d. d ≡ first + length definers.now) }
{
    let mut d = first;
    for definer in definers {
        add_definer(links, p, d, definer)?;
        d = next(d)?;
    }
    Ok(d)
}

fn add_place_call(links: &mut Vec<Link>, p: u32, call: Option<u32>) -> Result<(), AllocError>
    ensures { OnOk result (links.new.items ≡ links.old.items ++ spec.place_call_links p call) }
{
    match call {
        Some(call) => add_link(links, Node::Place(p), Node::Used(call)),
        None => Ok(()),
    }
}

fn add_places(links: &mut Vec<Link>, places: &[PlaceInfo]) -> Result<(), AllocError>
    ensures { OnOk result (links.new.items ≡ links.old.items ++ spec.places_links 0 0 places.now) }
{
    let mut p = 0;
    let mut d = 0;
    for place in places {
        add_link(links, Node::Place(p), Node::Block(place.block))?;
        add_place_call(links, p, place.call)?;
        d = add_definers(links, p, d, place.definers.as_slice())?;
        p = next(p)?;
    }
    Ok(())
}

fn add_parent(links: &mut Vec<Link>, b: u32, parent: Option<u32>) -> Result<(), AllocError>
    ensures { OnOk result (links.new.items ≡ links.old.items ++ spec.parent_links b parent) }
{
    match parent {
        Some(parent) => add_link(links, Node::Block(b), Node::Block(parent)),
        None => Ok(()),
    }
}

fn add_kind(links: &mut Vec<Link>, b: u32, kind: BlockKind) -> Result<(), AllocError>
    ensures { OnOk result (links.new.items ≡ links.old.items ++ spec.kind_links b kind) }
{
    match kind {
        BlockKind::Main => Ok(()),
        BlockKind::Arm { of, arm: _ } => add_link(links, Node::Block(b), Node::Tests(of)),
        BlockKind::Guard { of: _, state: _ } => Ok(()),
        BlockKind::State { of, state: _ } => add_link(links, Node::Block(b), Node::Strong(of)),
        BlockKind::Reset { cond } => add_link(links, Node::Block(b), Node::Value(cond)),
    }
}

fn add_blocks(links: &mut Vec<Link>, blocks: &[Block]) -> Result<(), AllocError>
    ensures { OnOk result (links.new.items ≡ links.old.items ++ spec.blocks_links 0 blocks.now) }
{
    let mut b = 0;
    for block in blocks {
        add_parent(links, b, block.parent)?;
        add_kind(links, b, block.kind)?;
        b = next(b)?;
    }
    Ok(())
}

fn add_tests(links: &mut Vec<Link>, of: u32, tests: &[u32]) -> Result<(), AllocError>
    ensures { OnOk result (links.new.items ≡ links.old.items ++ flat_map (spec.test_links of) tests.now) }
{
    for test in tests {
        add_link(links, Node::Tests(of), Node::Value(*test))?;
    }
    Ok(())
}

fn add_choices(links: &mut Vec<Link>, choices: &[Choice]) -> Result<(), AllocError>
    ensures { OnOk result (links.new.items ≡ links.old.items ++ spec.choices_links 0 choices.now) }
{
    let mut of = 0;
    for choice in choices {
        add_tests(links, of, choice.conds.as_slice())?;
        of = next(of)?;
    }
    Ok(())
}

fn add_move(links: &mut Vec<Link>, of: u32, one: AutoMove) -> Result<(), AllocError>
    ensures { OnOk result (links.new.items ≡ links.old.items ++ spec.move_links of one) }
{
    if one.strong {
        add_link(links, Node::Strong(of), Node::Value(one.cond))
    } else {
        Ok(())
    }
}

fn add_moves(links: &mut Vec<Link>, of: u32, moves: &[AutoMove]) -> Result<(), AllocError>
    ensures { OnOk result (links.new.items ≡ links.old.items ++ flat_map (spec.move_links of) moves.now) }
{
    for one in moves {
        add_move(links, of, *one)?;
    }
    Ok(())
}

fn add_states(
    links: &mut Vec<Link>,
    of: u32,
    states: &[Sequence<AutoMove>],
) -> Result<(), AllocError>
    ensures { OnOk result (links.new.items ≡ links.old.items ++ flat_map (flat_map (spec.move_links of)) states.now) }
{
    for moves in states {
        add_moves(links, of, moves.as_slice())?;
    }
    Ok(())
}

fn add_automata(links: &mut Vec<Link>, automata: &[Auto]) -> Result<(), AllocError>
    ensures { OnOk result (links.new.items ≡ links.old.items ++ spec.automata_links 0 automata.now) }
{
    let mut of = 0;
    for auto in automata {
        add_states(links, of, auto.states.as_slice())?;
        of = next(of)?;
    }
    Ok(())
}

/// The links of the graph of a form.
pub(crate) fn links_of(alloc: Global, flat: &Flat) -> Result<Vec<Link>, AllocError>
    ensures { IfOk result (λ links. links.items ≡ spec.links_of flat.now) }
{
    let mut links = Vec::new(alloc);
    add_places(&mut links, flat.places.as_slice())?;
    add_blocks(&mut links, flat.blocks.as_slice())?;
    add_occs(&mut links, flat.occs.as_slice())?;
    add_choices(&mut links, flat.choices.as_slice())?;
    add_automata(&mut links, flat.automata.as_slice())?;
    Ok(links)
}
