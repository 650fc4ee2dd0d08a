//! The nodes of a graph that lead to themselves.
ghost use Rattle.std.specs.Prelude.{◌≡◌, ◌<◌, ℕ, true, false, length, slice_index, slice_index_or, slice_set, IfOk};
ghost use Rattle.zl_graph.specs.Graph.{AreParts};
ghost use Rattle.zl_graph.specs.Circles.{AreLoops, AreCircles};

use crate::graph::Link;
use crate::parts::parts_of;
use std::alloc::{AllocError, Global};
use std::marker::Model;

/// The parts of a graph, and which of its nodes lead to themselves.
#[derive(Drop)]
pub struct Circles {
    /// The number of each node's part.
    numbers: Vec<u32>,
    circled: Vec<bool>,
}

impl Model for Circles {
    ghost use Rattle.zl_graph.specs.Circles.{CircleTables};

    ghost Value = { CircleTables };

    ghost view = { λ c. record {
      numbers = c.numbers.items;
      marks = c.circled.items;
    } };
}

/// Marks a node if the link from it leads to its own part.
fn mark_one(link: Link, numbers: &[u32], marks: &mut Vec<bool>)
    requires from { link.from < length numbers.now }
    requires to { link.to < length numbers.now }
    requires marks { length marks.old.items ≡ length numbers.now }
    ensures looped { slice_index numbers.now link.from ≡ slice_index numbers.now link.to → marks.new.items ≡ slice_set marks.old.items link.from true }
    ensures other { (slice_index numbers.now link.from ≡ slice_index numbers.now link.to → ⊥) → marks.new.items ≡ marks.old.items }
{
    if numbers[link.from as usize] == numbers[link.to as usize] {
        marks[link.from as usize] = true;
    }
}

/// Marks the nodes from which a link leads to their own part.
fn mark(links: &[Link], numbers: &[u32], marks: &mut Vec<bool>)
    requires parts { AreParts links.now numbers.now }
    requires marks { length marks.old.items ≡ length numbers.now }
    requires none { (a : ℕ) → slice_index_or marks.old.items a false ≡ true → ⊥ }
    ensures { AreLoops links.now numbers.now marks.new.items }
{
    for link in links {
        mark_one(*link, numbers, marks);
    }
}

impl Circles {
    /// Nodes have the same number exactly where they lead to each other, and numbers don't grow along links. So where no node
    /// leads to itself, the number of each is greater than those of all to which links lead from it. It takes time and memory
    /// in proportion to the links and the greatest node.
    pub fn of(alloc: Global, links: &[Link]) -> Result<Circles, AllocError>
        ensures { IfOk result (λ c. AreCircles links.now c.numbers c.marks) }
    {
        let numbers = parts_of(alloc, links)?;
        let mut circled = vec![in alloc; false; numbers.len()]?;
        mark(links, numbers.as_slice(), &mut circled);
        Ok(Circles { numbers, circled })
    }

    /// Whether a node leads to itself.
    pub fn has(&self, node: u32) -> bool
        ensures { result ≡ slice_index_or self.now.marks node false }
    {
        match self.circled.get(node as usize) {
            Some(circled) => *circled,
            None => false,
        }
    }

    /// The number of a node's part, 0 for a node without links.
    pub fn number(&self, node: u32) -> u32
        ensures { result ≡ slice_index self.now.numbers node }
    {
        match self.numbers.get(node as usize) {
            Some(number) => *number,
            None => 0,
        }
    }
}
