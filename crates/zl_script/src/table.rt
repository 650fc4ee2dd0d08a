ghost use Rattle.std.specs.Prelude.{◌≡◌, [], map, position, IfOk};
ghost use Rattle.std.specs.List.{IsDistinct};
ghost use Rattle.std.specs.Str.{bytes_eq};

use indexmap::IndexSet;
use std::alloc::{AllocError, Global};
use std::marker::Model;
use zl_value::Input;

/// The names of a program's inputs by their numbers.
#[derive(Drop)]
pub(crate) struct Table {
    names: IndexSet<Vec<u8>>,
}

impl Model for Table {
    ghost use Rattle.std.specs.Prelude.{ℕ, List, map};

    ghost Value = { List (List ℕ) };

    ghost view = { λ t. map (λ name. name.items) t.names.keys };
}

impl Table {
    pub(crate) fn make(alloc: Global, inputs: &[Input]) -> Result<Table, AllocError>
        requires { IsDistinct bytes_eq (map (λ i. i.name) inputs.now) }
        ensures { IfOk result (λ t. t ≡ map (λ i. i.name) inputs.now) }
    {
        let mut names: IndexSet<Vec<u8>> = IndexSet::new(alloc);
        for input in inputs {
            let name = Vec::from_slice(alloc, input.name.bytes())?;
            names.insert(name)?;
        }
        Ok(Table { names })
    }

    /// The number of the input of this name.
    pub(crate) fn find(&self, name: &[u8]) -> Option<usize>
        ensures { result ≡ position (bytes_eq name.now) self.now }
    {
        self.names.get_index_of(name)
    }
}
