// Which wires a method solves.
ghost use Rattle.std.specs.Prelude.{◌≡◌, ◌||◌, ◌&&◌, true, not, is_some, length, map, replicate, IfOk, OnOk};
ghost use Rattle.std.specs.List.{flat_map};
ghost use Rattle.zl_value.specs.OperatorTypes.{can_fault};
ghost use Rattle.zl_value.specs.declared.script.Output.{Output as OutputOf};
ghost use Rattle.zl_kernel.specs.FlowWires.{listed_in};
ghost use Rattle.zl_kernel.specs.WellFormed.{can_fail};
ghost use Rattle.zl_kernel.specs.declared.site.KSite.{KSite as SiteOf};
ghost use Rattle.zl_kernel.specs.declared.memory.KMem.{KMem as MemOf};
ghost use Rattle.zl_kernel.specs.declared.wire.Wire.{Wire as WireOf};
ghost use Rattle.zl_codegen.specs.Needs.{marked, memory_in, held_memories, is_needed_memory, nexts_from, failing_from, faults_marked, instant_marked, flow_marked, is_taken, spread, needed};

use crate::entry::number;
use crate::marks::{blank, is_marked, mark, mark_if, mark_reads};
use std::alloc::{AllocError, Global};
use zl_kernel::{Def, KMem, KSite, Kernel, Wire};
use zl_value::{Op, Output};

/// Whether an operator can be without a result.
pub(crate) fn can_fault(op: Op) -> bool
    ensures { result ≡ can_fault op }
{
    match op {
        Op::AddInt | Op::SubInt | Op::MulInt | Op::DivInt | Op::ModInt | Op::NegInt => true,
        Op::AddFloat | Op::SubFloat | Op::MulFloat | Op::DivFloat | Op::FloatOfInt => true,
        _ => false,
    }
}

fn can_fail(def: &Def) -> bool
    ensures { result ≡ can_fail def.now }
{
    match def {
        Def::Op(op, _) => can_fault(*op),
        _ => false,
    }
}

pub(crate) fn mark_outputs(marks: &mut [bool], outs: &[Output])
    ensures { marks.new ≡ marked (map (λ (out : OutputOf). out.from) outs.now) marks.old }
{
    for i in 0..outs.len() {
        mark(marks, outs[i].from);
    }
}

pub(crate) fn mark_values(marks: &mut [bool], sites: &[KSite])
    ensures { marks.new ≡ marked (map (λ (site : SiteOf). site.value) sites.now) marks.old }
{
    for i in 0..sites.len() {
        mark(marks, sites[i].value);
    }
}

pub(crate) fn mark_fresh(marks: &mut [bool], sites: &[KSite])
    ensures { marks.new ≡ marked (map (λ (site : SiteOf). site.fresh) sites.now) marks.old }
{
    for i in 0..sites.len() {
        mark(marks, sites[i].fresh);
    }
}

pub(crate) fn mark_slopes(marks: &mut [bool], sites: &[KSite])
    ensures { marks.new ≡ marked (map (λ (site : SiteOf). site.slope) sites.now) marks.old }
{
    for i in 0..sites.len() {
        mark(marks, sites[i].slope);
    }
}

#[tactic(auto, using(crate::proofs::MarkLists::marked_append))]
pub(crate) fn mark_rates(marks: &mut [bool], mems: &[KMem])
    ensures { marks.new ≡ marked (flat_map (λ (mem : MemOf). listed_in mem.slope) mems.now) marks.old }
{
    for i in 0..mems.len() {
        mark_if(marks, mems[i].slope);
    }
}

fn mark_failing(marks: &mut [bool], wires: &[Wire]) -> Result<(), AllocError>
    ensures { OnOk result (marks.new ≡ marked (failing_from 0 wires.now) marks.old) }
{
    for i in 0..wires.len() {
        if can_fail(&wires[i].def) {
            mark(marks, number(i)?);
        }
    }
    Ok(())
}

fn mark_memory(marks: &mut [bool], def: &Def)
    ensures { marks.new ≡ marked (memory_in def.now) marks.old }
{
    match def {
        Def::Mem(m) => mark(marks, *m),
        _ => {}
    }
}

#[tactic(auto, using(crate::proofs::MarkLists::marked_append))]
fn mark_held(marks: &mut [bool], wires: &[Wire])
    ensures { marks.new ≡ marked (flat_map (λ (wire : WireOf). memory_in wire.def) wires.now) marks.old }
{
    for i in 0..wires.len() {
        mark_memory(marks, &wires[i].def);
    }
}

/// The memories that some wire holds.
pub(crate) fn held_memories(alloc: Global, kernel: &Kernel) -> Result<Vec<bool>, AllocError>
    ensures { IfOk result (λ held. held.items ≡ held_memories kernel.now) }
{
    let mut held = blank(alloc, kernel.mems.len())?;
    mark_held(&mut held, kernel.wires.as_slice());
    Ok(held)
}

/// Whether something needs a memory.
pub(crate) fn is_needed_memory(held: &[bool], m: u32, mem: &KMem) -> bool
    ensures { result ≡ is_needed_memory held.now m mem.now }
{
    mem.slope.is_some() || is_marked(held, m)
}

fn mark_nexts(marks: &mut [bool], held: &[bool], mems: &[KMem]) -> Result<(), AllocError>
    ensures { OnOk result (marks.new ≡ marked (nexts_from held.now 0 mems.now) marks.old) }
{
    for i in 0..mems.len() {
        if is_needed_memory(held, number(i)?, &mems[i]) {
            mark(marks, mems[i].next);
        }
    }
    Ok(())
}

fn faults_marked(alloc: Global, kernel: &Kernel) -> Result<Vec<bool>, AllocError>
    ensures { IfOk result (λ marks. marks.items ≡ faults_marked kernel.now) }
{
    let mut marks = blank(alloc, kernel.wires.len())?;
    mark_failing(&mut marks, kernel.wires.as_slice())?;
    Ok(marks)
}

/// What a left end needs for itself, and a step.
pub(crate) fn instant_marked(
    alloc: Global,
    kernel: &Kernel,
    held: &[bool],
) -> Result<Vec<bool>, AllocError>
    requires { held.now ≡ held_memories kernel.now }
    ensures { IfOk result (λ marks. marks.items ≡ instant_marked kernel.now) }
{
    let mut marks = faults_marked(alloc, kernel)?;
    mark_nexts(&mut marks, held, kernel.mems.as_slice())?;
    mark_fresh(&mut marks, kernel.sites.as_slice());
    mark_values(&mut marks, kernel.sites.as_slice());
    mark_outputs(&mut marks, kernel.outs.as_slice());
    Ok(marks)
}

/// What a flow needs for itself.
pub(crate) fn flow_marked(alloc: Global, kernel: &Kernel) -> Result<Vec<bool>, AllocError>
    ensures { IfOk result (λ marks. marks.items ≡ flow_marked kernel.now) }
{
    let mut marks = faults_marked(alloc, kernel)?;
    mark_rates(&mut marks, kernel.mems.as_slice());
    mark_slopes(&mut marks, kernel.sites.as_slice());
    Ok(marks)
}

/// Whether a method solves a wire.
pub(crate) fn is_taken(marks: &[bool], out: &[bool], n: u32) -> bool
    ensures { result ≡ is_taken marks.now out.now n }
{
    is_marked(marks, n) && !is_marked(out, n)
}

fn spread(marks: &mut [bool], out: &[bool], wires: &[Wire], n: u32)
    ensures { marks.new ≡ spread wires.now out.now n marks.old }
{
    if is_taken(marks, out, n) {
        match wires.get(n as usize) {
            Some(wire) => mark_reads(marks, wire),
            None => {}
        }
    }
}

/// Marks all that the wires need that a method solves.
pub(crate) fn mark_needed(marks: &mut [bool], out: &[bool], wires: &[Wire], list: &[u32])
    ensures { marks.new ≡ needed wires.now out.now list.now marks.old }
{
    let mut i = list.len();
    while i > 0 {
        i -= 1;
        spread(marks, out, wires, list[i]);
    }
}
