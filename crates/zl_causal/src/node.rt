//! What a flat form's graph has nodes for.
ghost use Rattle.std.specs.Prelude.{◌≡◌, ◌+◌, ◌*◌, ◌++◌, ◌∷◌, [], IfOk, OnOk};
ghost use Rattle.zl_causal.specs.Nodes.{number_of, link_of};

use std::alloc::AllocError;
use zl_graph::Link;
use zl_meaning::narrow;

/// A node of the graph of a form.
#[derive(Clone, Copy, Debug)]
pub(crate) enum Node {
    /// The value of a place.
    Place(u32),
    /// The control of a block.
    Block(u32),
    /// What an occurrence reads.
    Value(u32),
    /// What decides whether an occurrence is evaluated, beside blocks.
    Used(u32),
    /// What the `init` values of a place read, and their blocks.
    Start(u32),
    /// The places whose `last` an occurrence reads.
    Lasts(u32),
    /// The places to which the `init` values of a place lead by `last`.
    Leads(u32),
    /// The tests of a choice.
    Tests(u32),
    /// The `unless` tests of an automaton.
    Strong(u32),
    /// The events of a definer of all places.
    Events(u32),
    /// What stands for all blocks that depend on themselves.
    Hub,
}

/// How many sorts of nodes there are.
const SORTS: u64 = 11;

/// The number of the node of this index and sort.
fn numbered(index: u32, sort: u32) -> Result<u32, AllocError>
    ensures { IfOk result (λ n. n ≡ index * 11 + sort) }
{
    narrow(index as u64 * SORTS + sort as u64)
}

/// The number of a node.
pub(crate) fn number_of(node: Node) -> Result<u32, AllocError>
    ensures { IfOk result (λ n. n ≡ number_of node) }
{
    match node {
        Node::Place(n) => numbered(n, 0),
        Node::Block(n) => numbered(n, 1),
        Node::Value(n) => numbered(n, 2),
        Node::Used(n) => numbered(n, 3),
        Node::Start(n) => numbered(n, 4),
        Node::Lasts(n) => numbered(n, 5),
        Node::Leads(n) => numbered(n, 6),
        Node::Tests(n) => numbered(n, 7),
        Node::Strong(n) => numbered(n, 8),
        Node::Events(n) => numbered(n, 9),
        Node::Hub => Ok(10),
    }
}

/// Adds a link.
pub(crate) fn add_link(links: &mut Vec<Link>, from: Node, to: Node) -> Result<(), AllocError>
    ensures { OnOk result (links.new.items ≡ links.old.items ++ link_of from to ∷ []) }
{
    let from = number_of(from)?;
    let to = number_of(to)?;
    links.push(Link { from, to })?;
    Ok(())
}
