ghost use Rattle.std.specs.Prelude.{◌≡◌, ◌<◌, ◌^◌, [], length, slice_get, option_map, IfOk, OnOk};
ghost use Rattle.zl_lexer.specs.Names.{number_of, with_name};

use indexmap::IndexSet;
use std::alloc::{AllocError, Global};
use std::marker::Model;

/// The distinct names of a file, in order of first appearance.
#[derive(Debug, Drop)]
pub struct Names {
    set: IndexSet<String>,
}

impl Model for Names {
    ghost use Rattle.std.specs.Prelude.{ℕ, List, map, string_bytes};

    ghost Value = { List (List ℕ) };

    ghost view = { λ n. map string_bytes n.set.keys };
}

impl Names {
    pub(crate) fn new(alloc: Global) -> Names
        ensures { result ≡ [] }
    {
        Names {
            set: IndexSet::new(alloc),
        }
    }

    /// How many names there are.
    pub fn len(&self) -> usize
        ensures { result ≡ length self.now }
    {
        self.set.len()
    }

    /// The name of this number, or `None` past the last one.
    pub fn text(&self, n: u32) -> Option<&str>
        ensures { option_map (λ text. text.now) result ≡ slice_get self.now n }
    {
        match self.set.get_index(n as usize) {
            Some(name) => Some(name.as_str()),
            None => None,
        }
    }

    /// The number of a name, which goes last if it is new.
    pub(crate) fn number(&mut self, alloc: Global, name: &str) -> Result<u32, AllocError>
        requires { length self.old < 2 ^ 32 }
        ensures number { IfOk result (λ n. n ≡ number_of self.old name.now) }
        ensures names { OnOk result (self.new ≡ with_name self.old name.now) }
        ensures within { IfOk result (λ n. n < length self.new) }
    {
        if let Some(at) = self.set.get_index_of(name) {
            return Ok(at as u32);
        }
        let at = self.set.len() as u32;
        let owned = String::from_str(alloc, name)?;
        self.set.insert(owned)?;
        Ok(at)
    }
}
