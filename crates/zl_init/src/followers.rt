ghost use Rattle.std.specs.Prelude.{◌≡◌, false, [], OnOk};
ghost use Rattle.zl_init.specs.Marks.{key, is_key, followers_at, with_follower};

use indexmap::IndexMap;
use std::alloc::{AllocError, Global};
use zl_value::Pos;

/// For variables and occurrences, those that are late where it is.
#[derive(Drop)]
pub(crate) struct Followers {
    table: IndexMap<(u32, u32), Vec<Pos>>,
}

impl Followers {
    pub(crate) fn new(alloc: Global) -> Followers
        ensures { (q : Pos) → followers_at result q ≡ [] }
    {
        Followers {
            table: IndexMap::new(alloc),
        }
    }

    /// What is late where this one is.
    pub(crate) fn of(&self, leader: Pos) -> &[Pos]
        ensures { result.now ≡ followers_at self.now leader }
    {
        match self.table.get(&(leader.line, leader.column)) {
            Some(places) => places.as_slice(),
            None => &[],
        }
    }

    /// Adds one that is late where the leader is.
    pub(crate) fn add(
        &mut self,
        alloc: Global,
        leader: Pos,
        follower: Pos,
    ) -> Result<(), AllocError>
        ensures { OnOk result ((q : Pos) → followers_at self.new q ≡ with_follower self.old leader follower q) }
    {
        if let Some(places) = self.table.get_mut(&(leader.line, leader.column)) {
            places.push(follower)?;
            return Ok(());
        }
        let mut places = Vec::new(alloc);
        places.push(follower)?;
        self.table.insert((leader.line, leader.column), places)?;
        Ok(())
    }
}
