//! Numbers of 32 bits.
ghost use Rattle.std.specs.Prelude.{◌≡◌, ◌^◌, ◌≤◌, IfOk, IfErr};

use std::alloc::AllocError;

/// The same number, in 32 bits. `Err` exactly where it doesn't fit: a refusal tells no such number from want of memory.
pub fn narrow(number: u64) -> Result<u32, AllocError>
    ensures narrowed { IfOk result (λ n. n ≡ number) }
    ensures large { IfErr result (λ _. 2 ^ 32 ≤ number) }
{
    match u32::try_from(number) {
        Ok(n) => Ok(n),
        Err(_) => Err(AllocError),
    }
}
