// Wires with the numbers by which they are put in order.
ghost use Rattle.std.specs.Prelude.{◌≡◌, ◌<◌, ◌≤◌, ◌+◌, ◌*◌, length, map, get_or, IfOk};
ghost use Rattle.zl_codegen.specs.Ranking.{AreEntries, wire_of};

use std::alloc::{AllocError, Global};
use zl_kernel::Wire;

/// A wire with the number by which it is put in order.
#[derive(Clone, Copy, Debug)]
pub(crate) struct Entry {
    pub key: u64,
    pub wire: u32,
}

/// The number of a wire: wires of one rank stand by their guards, so that those under one guard stand together.
fn key(rank: u32, guard: Option<u32>) -> u64
    ensures low { rank * 4294967296 ≤ result }
    ensures high { result < (rank + 1) * 4294967296 }
{
    match guard {
        Some(guard) => rank as u64 * 4294967296 + guard as u64,
        None => rank as u64 * 4294967296,
    }
}

/// The same count, in 32 bits. `Err` exactly where it doesn't fit: a refusal tells no such number from want of memory.
pub(crate) fn number(count: usize) -> Result<u32, AllocError>
    ensures { IfOk result (λ n. n ≡ count) }
{
    match u32::try_from(count) {
        Ok(n) => Ok(n),
        Err(_) => Err(AllocError),
    }
}

/// The wires with their numbers.
pub(crate) fn entries(
    alloc: Global,
    wires: &[Wire],
    ranks: &[u32],
) -> Result<Vec<Entry>, AllocError>
    requires { length ranks.now ≡ length wires.now }
    ensures { IfOk result (λ entries. AreEntries ranks.now (length wires.now) entries.items) }
{
    let mut entries = Vec::new(alloc);
    for i in 0..wires.len() {
        let wire = number(i)?;
        entries.push(Entry {
            key: key(ranks[i], wires[i].guard),
            wire,
        })?;
    }
    Ok(entries)
}

/// The wires alone.
pub(crate) fn wires_of(alloc: Global, entries: &[Entry]) -> Result<Vec<u32>, AllocError>
    ensures { IfOk result (λ wires. wires.items ≡ map wire_of entries.now) }
{
    let mut wires = Vec::new(alloc);
    for i in 0..entries.len() {
        wires.push(entries[i].wire)?;
    }
    Ok(wires)
}
