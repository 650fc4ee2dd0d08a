//! Sets of name numbers made of lists.
ghost use Rattle.std.specs.Prelude.{◌≡◌, [], IfOk, OnOk};
ghost use Rattle.zl_ast.specs.Names.{with_ids, ids_of};

use std::alloc::{AllocError, Global};
use zl_ast::{Name, NameSet};

pub(crate) fn insert_ids(set: &mut NameSet, ids: &[u32]) -> Result<(), AllocError>
    ensures { OnOk result (set.new ≡ with_ids set.old ids.now) }
{
    for id in ids {
        set.insert(*id)?;
    }
    Ok(())
}

pub(crate) fn insert_names(set: &mut NameSet, names: &[Name]) -> Result<(), AllocError>
    ensures { OnOk result (set.new ≡ with_ids set.old (ids_of names.now)) }
{
    for name in names {
        set.insert(name.id)?;
    }
    Ok(())
}

/// The numbers, each once.
pub(crate) fn set_of_ids(alloc: Global, ids: &[u32]) -> Result<NameSet, AllocError>
    ensures { IfOk result (λ set. set ≡ with_ids [] ids.now) }
{
    let mut set = NameSet::new(alloc);
    insert_ids(&mut set, ids)?;
    Ok(set)
}

/// The numbers of the names, each once.
pub(crate) fn set_of_names(alloc: Global, names: &[Name]) -> Result<NameSet, AllocError>
    ensures { IfOk result (λ set. set ≡ with_ids [] (ids_of names.now)) }
{
    let mut set = NameSet::new(alloc);
    insert_names(&mut set, names)?;
    Ok(set)
}
