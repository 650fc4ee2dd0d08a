//! Counts as numbers of 32 bits.
ghost use Rattle.std.specs.Prelude.{◌≡◌, ◌+◌, ◌^◌, ◌≤◌, IfOk, IfErr};

use std::alloc::AllocError;

/// A count as a number. `Err` exactly where it doesn't fit: callers tell no such number from want of memory.
pub(crate) fn number(count: usize) -> Result<u32, AllocError>
    ensures same { IfOk result (λ n. n ≡ count) }
    ensures large { IfErr result (λ _. 2 ^ 32 ≤ count) }
{
    match u32::try_from(count) {
        Ok(n) => Ok(n),
        Err(_) => Err(AllocError),
    }
}

/// The number behind that of this count.
pub(crate) fn behind(count: usize) -> Result<u32, AllocError>
    ensures next { IfOk result (λ n. n ≡ count + 1) }
    ensures large { IfErr result (λ _. 2 ^ 32 ≤ count + 1) }
{
    let last = number(count)?;
    number(last as usize + 1)
}
