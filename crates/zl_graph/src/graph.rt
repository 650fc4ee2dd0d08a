//! Links between nodes, which are numbers.
ghost use Rattle.std.specs.Prelude.{◌≡◌, ◌^◌, ◌<◌, ◌≤◌, length, IfOk, OnOk};
ghost use Rattle.zl_graph.specs.Graph.{HasNodes};
ghost use Rattle.zl_graph.specs.Chains.{HasChains, HasAdded};

use crate::counts::behind;
use std::alloc::{AllocError, Global};

/// A link from one node to another.
#[derive(Clone, Copy, Debug)]
pub struct Link {
    pub from: u32,
    pub to: u32,
}

/// Links, and for each node a chain of those that lead from it. In a chain 0 is the end, and any other number is one more
/// than that of a link.
#[derive(Drop)]
pub(crate) struct Graph<'a> {
    links: &'a [Link],
    /// The last link from each node.
    last: Vec<u32>,
    /// For each link, the one before it from the same node.
    before: Vec<u32>,
}

/// The count, or one more than the node where that is more.
fn past(count: usize, node: u32) -> usize
    ensures count { count ≤ result }
    ensures node { node < result }
    ensures small { count ≤ 2 ^ 32 → result ≤ 2 ^ 32 }
{
    let next = node as usize + 1;
    if next > count { next } else { count }
}

/// How many nodes there are: one more than the greatest that has a link.
pub(crate) fn node_count(links: &[Link]) -> usize
    ensures nodes { HasNodes links.now result }
    ensures small { result ≤ 2 ^ 32 }
{
    let mut count = 0;
    for link in links {
        count = past(count, link.from);
        count = past(count, link.to);
    }
    count
}

impl<'a> Graph<'a> {
    pub(crate) fn new(
        alloc: Global,
        links: &'a [Link],
        nodes: usize,
    ) -> Result<Graph<'a>, AllocError>
        requires { HasNodes links.now nodes }
        ensures { IfOk result (HasChains links.now nodes) }
    {
        let mut last = vec![in alloc; 0; nodes]?;
        let mut before = Vec::new(alloc);
        for link in links {
            let number = behind(before.len())?;
            let from = link.from as usize;
            before.push(last[from])?;
            last[from] = number;
        }
        Ok(Graph {
            links,
            last,
            before,
        })
    }

    /// Adds the nodes to which links lead from this one.
    pub(crate) fn add_next(&self, node: u32, nodes: &mut Vec<u32>) -> Result<(), AllocError>
        requires chains { HasChains self.now.links.now (length self.now.last.items) self.now }
        requires within { node < length self.now.last.items }
        ensures { OnOk result (HasAdded self.now.links.now node nodes.old.items nodes.new.items) }
    {
        let mut at = self.last[node as usize];
        while at > 0 {
            let link = at as usize - 1;
            nodes.push(self.links[link].to)?;
            at = self.before[link];
        }
        Ok(())
    }
}
