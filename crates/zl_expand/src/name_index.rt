#![tactic(auto, using(crate::proofs::IndexLemmas::indexing))]

ghost use Rattle.std.specs.Prelude.{◌≡◌, ℕ, nat_eq, IfOk, OnOk};
ghost use Rattle.std.specs.List.{position};
ghost use Rattle.indexmap.specs.IndexMap.{get};
ghost use Rattle.zl_expand.specs.FirstOf.{or_here};

use indexmap::IndexMap;
use std::alloc::{AllocError, Global};
use std::marker::Model;

/// Numbers of names, in their order, by which the first place of each is found.
#[derive(Drop)]
pub(crate) struct NameIndex {
    ids: Vec<u32>,
    firsts: IndexMap<u32, usize>,
}

impl Model for NameIndex {
    ghost use Rattle.std.specs.Prelude.{ℕ, List, nat_eq, ◌≡◌};
    ghost use Rattle.std.specs.List.{position};
    ghost use Rattle.indexmap.specs.IndexMap.{get};

    ghost Value = { List ℕ };

    ghost view = { λ s. s.ids.items };

    ghost invariant = { λ s. (id : ℕ) → get nat_eq s.firsts id ≡ position (nat_eq id) s.ids.items };
}

/// Puts the place of a name down, unless an earlier one is known.
fn note_first(firsts: &mut IndexMap<u32, usize>, id: u32, place: usize) -> Result<(), AllocError>
    ensures { OnOk result ((other : ℕ) → get nat_eq firsts.new other ≡ or_here (get nat_eq firsts.old other) (nat_eq other id) place) }
{
    if firsts.contains_key(&id) {
        return Ok(());
    }
    firsts.insert(id, place)?;
    Ok(())
}

impl NameIndex {
    pub(crate) fn new(alloc: Global, ids: Vec<u32>) -> Result<NameIndex, AllocError>
        ensures { IfOk result (λ index. index ≡ ids.items) }
    {
        let mut firsts = IndexMap::new(alloc);
        for (place, id) in ids.iter().enumerate() {
            note_first(&mut firsts, *id, place)?;
        }
        Ok(NameIndex { ids, firsts })
    }

    /// Which one this name is, from 0: the first, where it is there more than once.
    pub(crate) fn find(&self, id: u32) -> Option<usize>
        ensures { result ≡ position (nat_eq id) self.now }
    {
        self.firsts.get(&id).copied()
    }
}
