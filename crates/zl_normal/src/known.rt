//! What is known of a form before its wires are made.
ghost use Rattle.std.specs.Prelude.{IfOk};
ghost use Rattle.zl_meaning.specs.Single.{IsSingle};
ghost use Rattle.zl_normal.specs.MainBlock.{IsMain};
ghost use Rattle.zl_normal.specs.HaveTables.{HaveTables};

use crate::guards::{firsts_of, free_of, guard_roots, lasts_of};
use crate::roles::roles_of;
use crate::tables::Tables;
use std::alloc::{AllocError, Global};
use zl_meaning::Flat;

/// The tables of a form, and the roots of its guards.
#[derive(Debug, Drop)]
pub(crate) struct Known {
    pub(crate) tables: Tables,
    pub(crate) roots: Vec<u32>,
}

/// What is known of a form that has the main block alone and is single.
pub(crate) fn known_of(alloc: Global, flat: &Flat) -> Result<Known, AllocError>
    requires main { IsMain flat.now }
    requires single { IsSingle flat.now }
    ensures { IfOk result (λ known. HaveTables flat.now known.tables known.roots.items) }
{
    let roles = roles_of(alloc, flat)?;
    let firsts = firsts_of(alloc, flat.occs.len())?;
    let roots = guard_roots(alloc, flat, roles.as_slice())?;
    let free = free_of(alloc, roles.as_slice(), roots.as_slice())?;
    let lasts = lasts_of(alloc, flat)?;
    let tables = Tables {
        roles,
        firsts,
        free,
        lasts,
    };
    Ok(Known { tables, roots })
}
