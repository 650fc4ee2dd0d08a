// The order in which the wires of a kernel are solved.
ghost use Rattle.std.specs.Prelude.{◌≡◌, IfOk};
ghost use Rattle.zl_kernel.specs.WireRanks.{AreWireRanks};
ghost use Rattle.zl_codegen.specs.Orders.{IsOrder};

use crate::entry::{entries, wires_of};
use std::alloc::{AllocError, Global};
use std::marker::Model;
use zl_kernel::Kernel;
use zl_kernel::laws::is_well_formed;
use zl_outside::Memory;

/// An order of the wires of a kernel, in which each wire stands behind those that it reads.
#[derive(Debug, Drop)]
pub struct Order {
    list: Vec<u32>,
}

impl Model for Order {
    ghost use Rattle.std.specs.Prelude.{ℕ, List};

    ghost Value = { List ℕ };

    ghost view = { λ o. o.list.items };
}

impl Order {
    /// The numbers of the wires, in order.
    pub fn list(&self) -> &[u32]
        ensures { result.now ≡ self.now }
    {
        self.list.as_slice()
    }
}

/// The wires by their ranks, and those of one rank by their guards.
fn ranked(alloc: Global, kernel: &Kernel, ranks: &[u32]) -> Result<Order, AllocError>
    requires ranks { AreWireRanks kernel.now ranks.now }
    ensures { IfOk result (λ order. IsOrder kernel.now order) }
{
    is_well_formed(kernel);
    let mut sorted = entries(alloc, kernel.wires.as_slice(), ranks)?;
    sorted.sort_by_key(|entry| entry.key)?;
    let list = wires_of(alloc, sorted.as_slice())?;
    Ok(Order { list })
}

/// An order of the wires of a kernel, from numbers that grow along all that wires read.
pub fn schedule(alloc: Global, kernel: &Kernel, ranks: &[u32]) -> Result<Order, Memory>
    requires ranks { AreWireRanks kernel.now ranks.now }
    ensures { IfOk result (λ order. IsOrder kernel.now order) }
{
    match ranked(alloc, kernel, ranks) {
        Ok(order) => Ok(order),
        Err(_) => Err(Memory),
    }
}
