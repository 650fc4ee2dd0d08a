//! Occurrences that are reached one after the other.
ghost use Rattle.std.specs.Prelude.{◌≡◌, ◌<◌, ℕ, length, slice_get, true, Some, [], IfOk, OnOk};
ghost use Rattle.zl_grade.specs.Reached.{with_all, with_one};

use std::alloc::{AllocError, Global};
use std::marker::Model;

/// Occurrences in the order in which they were reached, each once.
#[derive(Drop)]
pub(crate) struct Reached {
    /// For each occurrence whether it was reached.
    marks: Vec<bool>,
    order: Vec<usize>,
}

impl Model for Reached {
    ghost use Rattle.zl_grade.specs.Reached.{Reach};

    ghost Value = { Reach };

    ghost view = { λ r. record { marks = r.marks.items; order = r.order.items } };
}

impl Reached {
    /// None of so many.
    pub(crate) fn new(alloc: Global, count: usize) -> Result<Reached, AllocError>
        ensures count { IfOk result (λ r. length r.marks ≡ count) }
        ensures marks { IfOk result (λ r. (k : ℕ) → slice_get r.marks k ≡ Some true → ⊥) }
        ensures order { IfOk result (λ r. r.order ≡ []) }
    {
        let marks = vec![in alloc; false; count]?;
        Ok(Reached {
            marks,
            order: Vec::new(alloc),
        })
    }

    /// Reaches an occurrence, if it wasn't reached before.
    pub(crate) fn add(&mut self, k: usize) -> Result<(), AllocError>
        ensures { OnOk result (self.new ≡ with_one self.old k) }
    {
        match self.marks.get(k) {
            Some(false) => {
                self.marks[k] = true;
                self.order.push(k)?;
                Ok(())
            }
            _ => Ok(()),
        }
    }

    /// Reaches these occurrences.
    pub(crate) fn add_all(&mut self, ks: &[u32]) -> Result<(), AllocError>
        ensures { OnOk result (self.new ≡ with_all self.old ks.now) }
    {
        for k in ks {
            self.add(*k as usize)?;
        }
        Ok(())
    }

    /// The one that was reached as this one in order, from 0.
    pub(crate) fn at(&self, index: usize) -> Option<usize>
        ensures { result ≡ slice_get self.now.order index }
    {
        self.order.get(index).copied()
    }

    pub(crate) fn has(&self, k: usize) -> bool
        requires { k < length self.now.marks }
        ensures { slice_get self.now.marks k ≡ Some result }
    {
        self.marks[k]
    }
}
