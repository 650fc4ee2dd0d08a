//! What a walk knows of each node.
ghost use Rattle.std.specs.Prelude.{◌≡◌, ◌<◌, ℕ, length, slice_get, slice_set, Some, IfOk};
ghost use Rattle.zl_graph.specs.declared.marks.Mark.{Mark as TheMark};
ghost use Rattle.zl_graph.specs.declared.marks.Mark.TheVariants as mark;

use std::alloc::{AllocError, Global};
use std::marker::Model;

/// What a walk knows of a node.
#[derive(Clone, Copy, Debug)]
pub(crate) enum Mark {
    /// The walk hasn't met it.
    New,
    /// It stands on the stack, at this position.
    Standing(u32),
    /// It is in the part with this number.
    Done(u32),
}

/// The marks of all nodes.
#[derive(Drop)]
pub(crate) struct Marks {
    marks: Vec<Mark>,
}

impl Model for Marks {
    ghost use Rattle.std.specs.Prelude.{List};
    ghost use Rattle.zl_graph.specs.declared.marks.Mark.{Mark as OneMark};

    ghost Value = { List OneMark };

    ghost view = { λ m. m.marks.items };
}

impl Marks {
    /// All are new.
    pub(crate) fn new(alloc: Global, nodes: usize) -> Result<Marks, AllocError>
        ensures nodes { IfOk result (λ m. length m ≡ nodes) }
        ensures new { IfOk result (λ m. (v : ℕ) (one : TheMark) → slice_get m v ≡ Some one → one ≡ mark.New) }
    {
        let marks = vec![in alloc; Mark::New; nodes]?;
        Ok(Marks { marks })
    }

    pub(crate) fn at(&self, node: u32) -> Mark
        requires { node < length self.now }
        ensures { slice_get self.now node ≡ Some result }
    {
        self.marks[node as usize]
    }

    pub(crate) fn put(&mut self, node: u32, mark: Mark)
        requires { node < length self.old }
        ensures { self.new ≡ slice_set self.old node mark }
    {
        self.marks[node as usize] = mark;
    }
}
