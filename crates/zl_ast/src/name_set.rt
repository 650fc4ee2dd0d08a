ghost use Rattle.std.specs.Prelude.{◌≡◌, [], length, take, if◌then◌else◌, OnErr, OnOk};
ghost use Rattle.zl_ast.specs.Names.{among, with_id};

use indexmap::IndexSet;
use std::alloc::{AllocError, Global};
use std::marker::Model;

/// Numbers of names, each once, in the order in which they came.
#[derive(Drop)]
pub struct NameSet {
    ids: IndexSet<u32>,
}

impl Model for NameSet {
    ghost use Rattle.std.specs.Prelude.{ℕ, List};

    ghost Value = { List ℕ };

    ghost view = { λ s. s.ids.keys };
}

impl NameSet {
    /// The set without numbers.
    pub fn new(alloc: Global) -> NameSet
        ensures { result ≡ [] }
    {
        NameSet {
            ids: IndexSet::new(alloc),
        }
    }

    /// How many numbers there are.
    pub fn len(&self) -> usize
        ensures { result ≡ length self.now }
    {
        self.ids.len()
    }

    /// Whether the number is one of these.
    pub fn contains(&self, id: u32) -> bool
        ensures { result ≡ among self.now id }
    {
        self.ids.contains(&id)
    }

    /// Puts the number behind the others, unless it is one of them. Where it fails, for want of memory, the set is as it was.
    pub fn insert(&mut self, id: u32) -> Result<(), AllocError>
        ensures inserted { OnOk result (self.new ≡ with_id self.old id) }
        ensures kept { OnErr result (self.new ≡ self.old) }
    {
        self.ids.insert(id)?;
        Ok(())
    }

    /// Does so if it is wanted.
    pub fn insert_if(&mut self, wanted: bool, id: u32) -> Result<(), AllocError>
        ensures inserted { OnOk result (self.new ≡ (if wanted then with_id self.old id else self.old)) }
        ensures kept { OnErr result (self.new ≡ self.old) }
    {
        if wanted { self.insert(id) } else { Ok(()) }
    }

    /// Keeps the first `len` numbers.
    pub fn truncate(&mut self, len: usize)
        ensures { self.new ≡ take len self.old }
    {
        self.ids.truncate(len);
    }
}
