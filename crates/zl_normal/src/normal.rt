ghost use Rattle.std.specs.Prelude.{IfOk};
ghost use Rattle.zl_meaning.specs.Single.{IsSingle};
ghost use Rattle.zl_normal.specs.MainBlock.{IsMain};
ghost use Rattle.zl_normal.specs.Evaluated.{HasGuardRanks};
ghost use Rattle.zl_normal.specs.HasSlopes.{HasSlopes};
ghost use Rattle.zl_normal.specs.HasNames.{HasNames};
ghost use Rattle.zl_normal.specs.Normalised.{IsNormalised};

use crate::laid::laid_out;
use crate::made_wire::Making;
use crate::wire_ranks::wire_ranks;
use std::alloc::{AllocError, Global};
use zl_kernel::Kernel;
use zl_lexer::Names;
use zl_meaning::laws::is_well_formed;
use zl_meaning::{Flat, Grades};
use zl_outside::Memory;

/// A normal form, and ranks of its wires: one number for each, greater than those of all that the wire reads.
#[derive(Drop)]
pub struct Normal {
    pub kernel: Kernel,
    pub ranks: Vec<u32>,
}

#[tactic(auto, using(crate::proofs::Normalising::well_formed, crate::proofs::Normalising::has_ranks, crate::proofs::Normalising::normalised))]
fn made(alloc: Global, flat: &Flat, names: &Names, grades: &[u8]) -> Result<Normal, AllocError>
    requires main { IsMain flat.now }
    requires single { IsSingle flat.now }
    requires guards { HasGuardRanks flat.now }
    requires slopes { HasSlopes flat.now grades.now }
    requires names { HasNames flat.now names.now }
    ensures { IfOk result (λ made. IsNormalised flat.now grades.now names.now made.kernel made.ranks.items) }
{
    is_well_formed(flat);
    let laid = laid_out(alloc, flat, grades)?;
    let making = Making {
        flat,
        grades,
        tables: &laid.tables,
        keys: &laid.numbers,
        wires: &laid.wires,
    };
    let kernel = making.kernel(alloc, names, laid.keys.as_slice(), laid.kept.as_slice())?;
    let ranks = wire_ranks(alloc, &kernel)?;
    Ok(Normal { kernel, ranks })
}

/// The normal form of a flat form that has the main block alone: a kernel whose runs are the form's, and ranks of its wires. The
/// form is single, it has ranks in which guards come before what they guard, the operators that move have slopes by `grades`, and
/// `names` are the names of the file, which suit a kernel. `Memory` for want of memory, or where a number has more than 32 bits.
pub fn normalise(
    alloc: Global,
    flat: &Flat,
    names: &Names,
    grades: &Grades,
) -> Result<Normal, Memory>
    requires main { IsMain flat.now }
    requires single { IsSingle flat.now }
    requires guards { HasGuardRanks flat.now }
    requires slopes { HasSlopes flat.now grades.now.occs.items }
    requires names { HasNames flat.now names.now }
    ensures { IfOk result (λ made. IsNormalised flat.now grades.now.occs.items names.now made.kernel made.ranks.items) }
{
    match made(alloc, flat, names, grades.occs.as_slice()) {
        Ok(normal) => Ok(normal),
        Err(_) => Err(Memory),
    }
}
