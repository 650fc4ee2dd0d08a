// The numbers of a form's wires and memories.
ghost use Rattle.std.specs.Prelude.{IfOk};
ghost use Rattle.zl_meaning.specs.Single.{IsSingle};
ghost use Rattle.zl_normal.specs.MainBlock.{IsMain};
ghost use Rattle.zl_normal.specs.Laid.{IsLaid};

use crate::key::{Kept, Key};
use crate::keys::Source;
use crate::known::known_of;
use crate::numbers::{KeyTables, WireTables};
use crate::tables::Tables;
use crate::wiring::Wiring;
use std::alloc::{AllocError, Global};
use zl_meaning::Flat;

/// What a form's wires and memories stand for, in the order of their numbers, and these numbers by tables.
#[derive(Drop)]
pub(crate) struct Laid {
    pub(crate) tables: Tables,
    pub(crate) keys: Vec<Key>,
    pub(crate) kept: Vec<Kept>,
    pub(crate) numbers: KeyTables,
    pub(crate) wires: WireTables,
}

/// The layout of a form that has the main block alone and is single.
#[tactic(auto, using(crate::proofs::LaidOut::laid_out))]
pub(crate) fn laid_out(alloc: Global, flat: &Flat, grades: &[u8]) -> Result<Laid, AllocError>
    requires main { IsMain flat.now }
    requires single { IsSingle flat.now }
    ensures { IfOk result (IsLaid flat.now grades.now) }
{
    let known = known_of(alloc, flat)?;
    let source = Source {
        flat,
        grades,
        tables: &known.tables,
    };
    let keys = source.keys(alloc)?;
    let kept = source.memories(alloc)?;
    let mut numbers = source.numbered(alloc, keys.as_slice())?;
    source.keep(&mut numbers, kept.as_slice())?;
    let wiring = Wiring {
        flat,
        grades,
        tables: &known.tables,
        keys: &numbers,
    };
    let wires = wiring.wires(alloc, known.roots.as_slice())?;
    Ok(Laid {
        tables: known.tables,
        keys,
        kept,
        numbers,
        wires,
    })
}
