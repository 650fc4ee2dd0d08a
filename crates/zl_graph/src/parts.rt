//! The parts of a graph whose nodes all reach each other.
ghost use Rattle.std.specs.Prelude.{◌≡◌, ◌≤◌, ◌^◌, length, IfOk};
ghost use Rattle.zl_graph.specs.Graph.{AreParts};
ghost use Rattle.zl_graph.specs.Walking.{AreNumbers};

use crate::graph::{Graph, Link, node_count};
use crate::walk::Walk;
use std::alloc::{AllocError, Global};

/// The numbers of the parts, node by node.
fn numbers(alloc: Global, walk: &Walk, nodes: usize) -> Result<Vec<u32>, AllocError>
    requires nodes { length walk.now.marks ≡ nodes }
    requires small { nodes ≤ 2 ^ 32 }
    ensures { IfOk result (λ numbers. AreNumbers walk.now.marks numbers.items) }
{
    let mut numbers = Vec::new(alloc);
    for node in 0..nodes {
        numbers.push(walk.part(node as u32))?;
    }
    Ok(numbers)
}

/// For each node the number of its part. Nodes of one part reach each other, and no link leads to a part with a greater
/// number. The way to find them, by a stack of parts that grow together, is Gabow's.
pub(crate) fn parts_of(alloc: Global, links: &[Link]) -> Result<Vec<u32>, AllocError>
    ensures { IfOk result (λ numbers. AreParts links.now numbers.items) }
{
    let nodes = node_count(links);
    let graph = Graph::new(alloc, links, nodes)?;
    let mut walk = Walk::new(alloc, nodes)?;
    for node in 0..nodes {
        walk.visit(&graph, node as u32)?;
    }
    numbers(alloc, &walk, nodes)
}
