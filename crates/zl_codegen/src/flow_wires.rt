// The wires of flows alone.
ghost use Rattle.std.specs.Prelude.{◌≡◌, if◌then◌else◌, [], length, map, IfOk, OnOk};
ghost use Rattle.zl_value.specs.Lists.{listed};
ghost use Rattle.std.specs.List.{flat_map};
ghost use Rattle.zl_kernel.specs.FlowWires.{listed_in, reads};
ghost use Rattle.zl_kernel.specs.declared.memory.KMem.{KMem as MemOf};
ghost use Rattle.zl_kernel.specs.declared.wire.Wire.{Wire as WireOf};
ghost use Rattle.zl_codegen.specs.FlowTables as table;
ghost use Rattle.zl_codegen.specs.FlowTables.{read_from};
ghost use Rattle.zl_codegen.specs.Needs.{marked, flow_wires};

use crate::entry::number;
use crate::marks::{blank, is_marked, mark, mark_if, mark_reads};
use crate::needs::{mark_fresh, mark_outputs, mark_rates, mark_slopes, mark_values};
use std::alloc::{AllocError, Global};
use zl_kernel::{KMem, Kernel, Wire};

#[tactic(auto, using(crate::proofs::MarkLists::marked_append))]
fn mark_wire_slopes(marks: &mut [bool], wires: &[Wire])
    ensures { marks.new ≡ marked (flat_map (λ (wire : WireOf). listed_in wire.slope) wires.now) marks.old }
{
    for i in 0..wires.len() {
        mark_if(marks, wires[i].slope);
    }
}

fn mark_all_nexts(marks: &mut [bool], mems: &[KMem])
    ensures { marks.new ≡ marked (map (λ (mem : MemOf). mem.next) mems.now) marks.old }
{
    for i in 0..mems.len() {
        mark(marks, mems[i].next);
    }
}

fn mark_all_reads(marks: &mut [bool], wires: &[Wire])
    ensures { marks.new ≡ marked (flat_map reads wires.now) marks.old }
{
    for i in 0..wires.len() {
        mark_reads(marks, &wires[i]);
    }
}

/// What a wire reads, unless it is named as a slope.
fn mark_unless(marks: &mut [bool], slope: bool, wire: &Wire)
    ensures { marks.new ≡ marked (if slope then [] else reads wire.now) marks.old }
{
    if !slope {
        mark_reads(marks, wire);
    }
}

fn mark_other_reads(marks: &mut [bool], slopes: &[bool], wires: &[Wire]) -> Result<(), AllocError>
    ensures { OnOk result (marks.new ≡ marked (read_from slopes.now 0 wires.now) marks.old) }
{
    for i in 0..wires.len() {
        let slope = is_marked(slopes, number(i)?);
        mark_unless(marks, slope, &wires[i]);
    }
    Ok(())
}

/// Marks the wires that are named as slopes.
fn mark_named(marks: &mut [bool], kernel: &Kernel)
    requires { marks.old ≡ table.none kernel.now }
    ensures { marks.new ≡ table.slopes kernel.now }
{
    mark_slopes(marks, kernel.sites.as_slice());
    mark_rates(marks, kernel.mems.as_slice());
    mark_wire_slopes(marks, kernel.wires.as_slice());
}

fn slopes(alloc: Global, kernel: &Kernel) -> Result<Vec<bool>, AllocError>
    ensures { IfOk result (λ marks. marks.items ≡ table.slopes kernel.now) }
{
    let mut marks = blank(alloc, kernel.wires.len())?;
    mark_named(&mut marks, kernel);
    Ok(marks)
}

/// Marks the wires that something but a wire names otherwise.
fn mark_kept(marks: &mut [bool], kernel: &Kernel)
    requires { marks.old ≡ table.none kernel.now }
    ensures { marks.new ≡ table.kept kernel.now }
{
    mark_all_nexts(marks, kernel.mems.as_slice());
    mark(marks, kernel.again);
    mark_fresh(marks, kernel.sites.as_slice());
    mark_values(marks, kernel.sites.as_slice());
    mark_outputs(marks, kernel.outs.as_slice());
}

fn kept(alloc: Global, kernel: &Kernel) -> Result<Vec<bool>, AllocError>
    ensures { IfOk result (λ marks. marks.items ≡ table.kept kernel.now) }
{
    let mut marks = blank(alloc, kernel.wires.len())?;
    mark_kept(&mut marks, kernel);
    Ok(marks)
}

/// The wires that some wire reads.
fn read(alloc: Global, kernel: &Kernel) -> Result<Vec<bool>, AllocError>
    ensures { IfOk result (λ marks. marks.items ≡ table.read kernel.now) }
{
    let mut marks = blank(alloc, kernel.wires.len())?;
    mark_all_reads(&mut marks, kernel.wires.as_slice());
    Ok(marks)
}

/// The wires that a wire reads that isn't named as a slope.
fn read_otherwise(alloc: Global, kernel: &Kernel, named: &[bool]) -> Result<Vec<bool>, AllocError>
    requires { named.now ≡ table.slopes kernel.now }
    ensures { IfOk result (λ marks. marks.items ≡ table.read_otherwise kernel.now) }
{
    let mut marks = blank(alloc, kernel.wires.len())?;
    mark_other_reads(&mut marks, named, kernel.wires.as_slice())?;
    Ok(marks)
}

/// What the marks say of a wire.
fn is_found(slopes: &[bool], kept: &[bool], read: &[bool], otherwise: &[bool], n: u32) -> bool
    ensures { result ≡ table.is_found slopes.now kept.now read.now otherwise.now n }
{
    is_marked(slopes, n)
        || (!is_marked(kept, n) && (is_marked(read, n) && !is_marked(otherwise, n)))
}

#[tactic(auto, using(crate::proofs::Listed::listed_next))]
fn all_found(
    alloc: Global,
    slopes: &[bool],
    kept: &[bool],
    read: &[bool],
    otherwise: &[bool],
    count: usize,
) -> Result<Vec<bool>, AllocError>
    ensures { IfOk result (λ found. found.items ≡ listed count 0 (table.is_found slopes.now kept.now read.now otherwise.now)) }
{
    let mut found = Vec::new(alloc);
    for i in 0..count {
        found.push(is_found(slopes, kept, read, otherwise, number(i)?))?;
    }
    Ok(found)
}

/// The wires that all of these marks find.
#[tactic(auto, using(crate::proofs::FlowMarks::found_is))]
fn found(
    alloc: Global,
    kernel: &Kernel,
    named: &[bool],
    kept: &[bool],
    read: &[bool],
    otherwise: &[bool],
) -> Result<Vec<bool>, AllocError>
    requires named { named.now ≡ table.slopes kernel.now }
    requires kept { kept.now ≡ table.kept kernel.now }
    requires read { read.now ≡ table.read kernel.now }
    requires otherwise { otherwise.now ≡ table.read_otherwise kernel.now }
    ensures { IfOk result (λ found. found.items ≡ flow_wires kernel.now) }
{
    let found = all_found(alloc, named, kept, read, otherwise, kernel.wires.len())?;
    Ok(found)
}

/// The wires of flows alone.
pub(crate) fn flow_wires(alloc: Global, kernel: &Kernel) -> Result<Vec<bool>, AllocError>
    ensures { IfOk result (λ marks. marks.items ≡ flow_wires kernel.now) }
{
    let named = slopes(alloc, kernel)?;
    let kept = kept(alloc, kernel)?;
    let read = read(alloc, kernel)?;
    let otherwise = read_otherwise(alloc, kernel, named.as_slice())?;
    found(
        alloc,
        kernel,
        named.as_slice(),
        kept.as_slice(),
        read.as_slice(),
        otherwise.as_slice(),
    )
}
