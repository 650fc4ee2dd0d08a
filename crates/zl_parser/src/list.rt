//! Lists that begin with room for one element, as most lists of a tree have no more.
ghost use Rattle.std.specs.Prelude.{◌≡◌, [], ◌∷◌, ◌++◌, IfOk, OnOk};

use std::alloc::{AllocError, Global};

/// The list of one element.
pub(crate) fn single<T: Drop>(alloc: Global, element: T) -> Result<Vec<T>, AllocError>
    ensures { IfOk result (λ list. list.items ≡ element ∷ []) }
{
    let mut list = Vec::with_capacity(alloc, 1)?;
    list.push(element)?;
    Ok(list)
}

/// Puts an element behind those of a list.
pub(crate) fn put<T: Drop>(list: &mut Vec<T>, element: T) -> Result<(), AllocError>
    ensures { OnOk result (list.new.items ≡ list.old.items ++ element ∷ []) }
{
    if list.is_empty() {
        list.reserve_exact(1)?;
    }
    list.push(element)?;
    Ok(())
}
