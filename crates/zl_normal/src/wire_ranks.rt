//! Ranks of a kernel's wires, where there are some.
#![tactic(auto, using(crate::proofs::LinkLists::appending))]

ghost use Rattle.std.specs.Prelude.{◌≡◌, ◌+◌, ◌++◌, ℕ, List, OnOk, IfOk};
ghost use Rattle.std.specs.List.{flat_map};
ghost use Rattle.zl_kernel.specs.FlowWires.{operands, listed_in};
ghost use Rattle.zl_kernel.specs.WireRanks.{AreWireRanks};
ghost use Rattle.zl_normal.specs.WireLinks as spec;

use std::alloc::{AllocError, Global};
use zl_graph::{Circles, Link};
use zl_kernel::{Def, Kernel, Wire};
use zl_meaning::narrow;

/// The number behind this one.
fn behind(number: u32) -> Result<u32, AllocError>
    ensures { IfOk result (λ m. m ≡ number + 1) }
{
    narrow(number as u64 + 1)
}

fn add_reads(links: &mut Vec<Link>, n: u32, reads: &[u32]) -> Result<(), AllocError>
    ensures { OnOk result (links.new.items ≡ links.old.items ++ flat_map (spec.reading n) reads.now) }
{
    for read in reads {
        links.push(Link { from: n, to: *read })?;
    }
    Ok(())
}

fn add_guard(links: &mut Vec<Link>, n: u32, guard: Option<u32>) -> Result<(), AllocError>
    ensures { OnOk result (links.new.items ≡ links.old.items ++ flat_map (spec.reading n) (listed_in guard)) }
{
    match guard {
        Some(guard) => add_reads(links, n, &[guard]),
        None => Ok(()),
    }
}

fn add_operands(links: &mut Vec<Link>, n: u32, def: &Def) -> Result<(), AllocError>
    ensures { OnOk result (links.new.items ≡ links.old.items ++ flat_map (spec.reading n) (operands def.now)) }
{
    match def {
        Def::Lit(_) => Ok(()),
        Def::Copy(x) => add_reads(links, n, &[*x]),
        Def::Mem(_) => Ok(()),
        Def::In(_) => Ok(()),
        Def::Event(_) => Ok(()),
        Def::Step => Ok(()),
        Def::Op(_, operands) => add_reads(links, n, operands.as_slice()),
        Def::If(c, x, y) => add_reads(links, n, &[*c, *x, *y]),
    }
}

fn add_wire(links: &mut Vec<Link>, n: u32, wire: &Wire) -> Result<(), AllocError>
    ensures { OnOk result (links.new.items ≡ links.old.items ++ spec.wire_links n wire.now) }
{
    add_guard(links, n, wire.guard)?;
    add_operands(links, n, &wire.def)
}

/// The links from each wire to those that it reads.
fn links_of(alloc: Global, wires: &[Wire]) -> Result<Vec<Link>, AllocError>
    ensures { IfOk result (λ links. links.items ≡ spec.links_from 0 wires.now) }
{
    let mut links = Vec::new(alloc);
    let mut n = 0;
    for wire in wires {
        add_wire(&mut links, n, wire)?;
        n = behind(n)?;
    }
    Ok(links)
}

/// The numbers of the first nodes, as many as there are wires.
fn first_numbers(alloc: Global, circles: &Circles, wires: usize) -> Result<Vec<u32>, AllocError>
    ensures { IfOk result (λ ranks. spec.AreFirstNumbers circles.now.numbers wires ranks.items) }
{
    let mut ranks = Vec::new(alloc);
    for index in 0..wires {
        ranks.push(circles.number(narrow(index as u64)?))?;
    }
    Ok(ranks)
}

/// Ranks of a kernel's wires: each has a number, which is greater than those of all wires that it reads. There have to be some;
/// these are found in time in proportion to the wires and what they read.
pub(crate) fn wire_ranks(alloc: Global, kernel: &Kernel) -> Result<Vec<u32>, AllocError>
    requires ranked { (ranks : List ℕ) × AreWireRanks kernel.now ranks }
    ensures { IfOk result (λ ranks. AreWireRanks kernel.now ranks.items) }
{
    let links = links_of(alloc, kernel.wires.as_slice())?;
    let circles = Circles::of(alloc, links.as_slice())?;
    first_numbers(alloc, &circles, kernel.wires.len())
}
