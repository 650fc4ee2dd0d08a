//! A walk along links that finds the parts of a graph whose nodes all reach each other.
ghost use Rattle.std.specs.Prelude.{◌≡◌, ◌<◌, ◌≤◌, ◌⊎◌, ℕ, List, [], length, slice_get, take, Some, IfOk, OnOk};
ghost use Rattle.zl_graph.specs.declared.marks.Mark.{Mark as TheMark};
ghost use Rattle.zl_graph.specs.declared.marks.Mark.TheVariants as mark;
ghost use Rattle.zl_graph.specs.Chains.{HasChains};
ghost use Rattle.zl_graph.specs.Walking.{AreClosed, AreMarked, IsWalk, IsLowered, IsNext, IsOver, IsAtRest, Moves, Visits};
ghost use Rattle.zl_graph.specs.declared.graph.Link.{Link as TheLink};
ghost use Rattle.zl_graph.specs.declared.walk.Part.{Part as ThePart};

use crate::counts::{behind, number};
use crate::graph::Graph;
use crate::marks::{Mark, Marks};
use std::alloc::{AllocError, Global};
use std::marker::Model;

/// Nodes on the stack that all reach each other: those from position `first` on. What they lead to, and wasn't followed so
/// far, waits from position `waiting` on.
#[derive(Clone, Copy, Debug)]
pub(crate) struct Part {
    first: u32,
    waiting: u32,
}

/// The state of a walk. The nodes of a part reach those of each part further up.
#[derive(Drop)]
pub(crate) struct Walk {
    marks: Marks,
    stack: Vec<u32>,
    waiting: Vec<u32>,
    parts: Vec<Part>,
    /// How many parts are done.
    count: u32,
}

/// Takes away the last parts, as long as they begin above this position.
fn lower(parts: &mut Vec<Part>, position: u32)
    requires some { 0 < length parts.old.items }
    requires floor { (p : ThePart) → slice_get parts.old.items 0 ≡ Some p → p.first ≡ 0 }
    ensures { IsLowered position parts.old.items parts.new.items }
{
    while parts[parts.len() - 1].first > position {
        parts.pop();
    }
}

/// Takes from the stack what stands from position `first` on, as the part with this number.
fn unstack(stack: &mut Vec<u32>, marks: &mut Marks, first: usize, number: u32)
    requires stands { AreMarked stack.old.items marks.old }
    requires within { first ≤ length stack.old.items }
    ensures closed { AreClosed first number marks.old marks.new }
    ensures stack { stack.new.items ≡ take first stack.old.items }
{
    while stack.len() > first {
        if let Some(node) = stack.pop() {
            marks.put(node, Mark::Done(number));
        }
    }
}

impl Model for Walk {
    ghost use Rattle.zl_graph.specs.Walking.{Stage};

    ghost Value = { Stage };

    ghost view = { λ w. record {
      marks = w.marks;
      stack = w.stack.items;
      waiting = w.waiting.items;
      parts = w.parts.items;
      count = w.count;
    } };
}

impl Walk {
    /// Before the first node.
    pub(crate) fn new(alloc: Global, nodes: usize) -> Result<Walk, AllocError>
        ensures nodes { IfOk result (λ walk. length walk.marks ≡ nodes) }
        ensures parts { IfOk result (λ walk. walk.parts ≡ []) }
        ensures stack { IfOk result (λ walk. walk.stack ≡ []) }
        ensures waiting { IfOk result (λ walk. walk.waiting ≡ []) }
        ensures new { IfOk result (λ walk. (v : ℕ) (one : TheMark) → slice_get walk.marks v ≡ Some one → one ≡ mark.New) }
    {
        let marks = Marks::new(alloc, nodes)?;
        Ok(Walk {
            marks,
            stack: Vec::new(alloc),
            waiting: Vec::new(alloc),
            parts: Vec::new(alloc),
            count: 0,
        })
    }

    /// Puts a new node on the stack, as a part of its own.
    fn enter(&mut self, graph: &Graph, node: u32) -> Result<(), AllocError>
        requires walk { IsWalk graph.now.links.now self.old }
        requires chains { HasChains graph.now.links.now (length self.old.marks) graph.now }
        requires new { slice_get self.old.marks node ≡ Some mark.New }
        requires from { (length self.old.stack ≡ 0) ⊎ IsNext graph.now.links.now self.old node }
        ensures moves { OnOk result (Moves graph.now.links.now self.old self.new) }
        ensures met { OnOk result (slice_get self.new.marks node ≡ Some mark.New → ⊥) }
    {
        let first = number(self.stack.len())?;
        let waiting = number(self.waiting.len())?;
        self.stack.push(node)?;
        self.parts.push(Part { first, waiting })?;
        self.marks.put(node, Mark::Standing(first));
        graph.add_next(node, &mut self.waiting)
    }

    /// Takes the last part from the stack.
    fn close(&mut self) -> Result<(), AllocError>
        requires walk { (links : List TheLink) × IsWalk links self.old }
        requires over { IsOver self.old }
        ensures { OnOk result ((links : List TheLink) → IsWalk links self.old → Moves links self.old self.new) }
    {
        let first = self.parts[self.parts.len() - 1].first as usize;
        self.parts.pop();
        unstack(&mut self.stack, &mut self.marks, first, self.count);
        self.count = behind(self.count as usize)?;
        Ok(())
    }

    /// Follows one link from the last part, or closes it where none is left.
    fn step(&mut self, graph: &Graph) -> Result<(), AllocError>
        requires walk { IsWalk graph.now.links.now self.old }
        requires chains { HasChains graph.now.links.now (length self.old.marks) graph.now }
        requires some { 0 < length self.old.parts }
        ensures { OnOk result (Moves graph.now.links.now self.old self.new) }
    {
        let last = self.parts[self.parts.len() - 1].waiting as usize;
        if self.waiting.len() == last {
            return self.close();
        }
        let node = self.waiting[self.waiting.len() - 1];
        match self.marks.at(node) {
            Mark::New => self.enter(graph, node),
            Mark::Standing(position) => {
                lower(&mut self.parts, position);
                self.waiting.pop();
                Ok(())
            }
            Mark::Done(_) => {
                self.waiting.pop();
                Ok(())
            }
        }
    }

    /// Walks from a node to all that it reaches.
    pub(crate) fn visit(&mut self, graph: &Graph, node: u32) -> Result<(), AllocError>
        requires walk { IsAtRest graph.now.links.now self.old }
        requires chains { HasChains graph.now.links.now (length self.old.marks) graph.now }
        requires within { node < length self.old.marks }
        ensures { OnOk result (Visits graph.now.links.now node self.old self.new) }
    {
        match self.marks.at(node) {
            Mark::New => {
                self.enter(graph, node)?;
                while self.parts.len() > 0 {
                    self.step(graph)?;
                }
                Ok(())
            }
            _ => Ok(()),
        }
    }

    /// The number of the part of a node that was met.
    pub(crate) fn part(&self, node: u32) -> u32
        requires { node < length self.now.marks }
        ensures { (n : ℕ) → slice_get self.now.marks node ≡ Some (mark.Done n) → result ≡ n }
    {
        match self.marks.at(node) {
            Mark::Done(number) => number,
            _ => 0,
        }
    }
}
