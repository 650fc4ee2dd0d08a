// The code of a kernel, by an order of its wires.
ghost use Rattle.std.specs.Prelude.{◌≡◌, ◌++◌, List, [], map, IfOk, OnOk};
ghost use Rattle.zl_kernel.specs.Wires.{AtStep, AtLeft, InFlow};
ghost use Rattle.zl_kernel.specs.declared.wire.Wire.{Wire as WireOf};
ghost use Rattle.zl_codegen.specs.Orders.{IsOrder};
ghost use Rattle.zl_code.specs.declared.stmt.Stmt.{Stmt as StmtOf};
ghost use Rattle.zl_codegen.specs.Counts.{AreCounted};
ghost use Rattle.zl_codegen.specs.Needs.{held_memories, needed, flow_wires};
ghost use Rattle.zl_codegen.specs.Statements.{body as statements_of};
ghost use Rattle.zl_codegen.specs.CodeOf.{memory_of, position_of, site_of, method_of, sets_of, code_of};

use crate::Order;
use crate::entry::number;
use crate::flow_wires::flow_wires;
use crate::marks::mark;
use crate::needs::{flow_marked, held_memories, instant_marked, mark_needed};
use crate::statements::{body, sets};
use std::alloc::{AllocError, Global};
use zl_code::{CMem, CSite, Code, Stmt};
use zl_kernel::laws::is_well_formed;
use zl_kernel::{KMem, KSite, Kernel, Wire};
use zl_outside::Memory;
use zl_value::{Input, Output, Pos, Sequence, Text, Ty};

fn types(alloc: Global, wires: &[Wire]) -> Result<Vec<Ty>, AllocError>
    ensures { IfOk result (λ types. types.items ≡ map (λ (wire : WireOf). wire.ty) wires.now) }
{
    let mut types = Vec::new(alloc);
    for i in 0..wires.len() {
        types.push(wires[i].ty)?;
    }
    Ok(types)
}

fn position_of(at: Pos, slope: Option<u32>) -> Pos
    ensures { result ≡ position_of at slope }
{
    match slope {
        Some(_) => at,
        None => Pos { line: 0, column: 0 },
    }
}

fn memory_of(mem: &KMem) -> CMem
    ensures { result ≡ memory_of mem.now }
{
    CMem {
        ty: mem.ty,
        start: mem.start,
        slope: mem.slope,
        at: position_of(mem.at, mem.slope),
    }
}

fn memories(alloc: Global, mems: &[KMem]) -> Result<Vec<CMem>, AllocError>
    ensures { IfOk result (λ made. made.items ≡ map memory_of mems.now) }
{
    let mut made = Vec::new(alloc);
    for i in 0..mems.len() {
        made.push(memory_of(&mems[i]))?;
    }
    Ok(made)
}

fn site_of(site: &KSite) -> CSite
    ensures { result ≡ site_of site.now }
{
    CSite {
        value: site.value,
        fresh: site.fresh,
        slope: site.slope,
    }
}

fn sites(alloc: Global, sites: &[KSite]) -> Result<Vec<CSite>, AllocError>
    ensures { IfOk result (λ made. made.items ≡ map site_of sites.now) }
{
    let mut made = Vec::new(alloc);
    for i in 0..sites.len() {
        made.push(site_of(&sites[i]))?;
    }
    Ok(made)
}

/// A copy of a name.
fn name(alloc: Global, name: &Text) -> Result<Text, AllocError>
    ensures { IfOk result (λ made. made ≡ name.now) }
{
    Ok(Text::from_vec(Vec::from_slice(alloc, name.bytes())?))
}

fn inputs(alloc: Global, ins: &[Input]) -> Result<Vec<Input>, AllocError>
    ensures { IfOk result (λ made. made.items ≡ ins.now) }
{
    let mut made = Vec::new(alloc);
    for i in 0..ins.len() {
        made.push(Input {
            name: name(alloc, &ins[i].name)?,
            ty: ins[i].ty,
        })?;
    }
    Ok(made)
}

fn outputs(alloc: Global, outs: &[Output]) -> Result<Vec<Output>, AllocError>
    ensures { IfOk result (λ made. made.items ≡ outs.now) }
{
    let mut made = Vec::new(alloc);
    for i in 0..outs.len() {
        made.push(Output {
            name: name(alloc, &outs[i].name)?,
            from: outs[i].from,
        })?;
    }
    Ok(made)
}

/// The statements of a method without its sets, from what it needs for itself.
fn solved(
    alloc: Global,
    kernel: &Kernel,
    stepping: bool,
    marks: &mut [bool],
    left: &[bool],
    list: &[u32],
) -> Result<Vec<Stmt>, AllocError>
    ensures { IfOk result (λ out. (rest : List StmtOf) → out.items ++ rest ≡ statements_of kernel.now.wires stepping (needed kernel.now.wires left.now list.now marks.old) left.now [] list.now rest) }
{
    let wires = kernel.wires.as_slice();
    mark_needed(marks, left, wires, list);
    body(alloc, wires, stepping, marks, left, list)
}

/// The method of steps.
fn step(
    alloc: Global,
    kernel: &Kernel,
    held: &[bool],
    flows: &[bool],
    list: &[u32],
) -> Result<Vec<Stmt>, AllocError>
    requires held { held.now ≡ held_memories kernel.now }
    requires flows { flows.now ≡ flow_wires kernel.now }
    ensures { IfOk result (λ out. out.items ≡ method_of kernel.now AtStep list.now (sets_of kernel.now)) }
{
    let mut marks = instant_marked(alloc, kernel, held)?;
    mark(&mut marks, kernel.again);
    let mut out = solved(alloc, kernel, true, &mut marks, flows, list)?;
    sets(&mut out, held, kernel.mems.as_slice())?;
    Ok(out)
}

/// The method of left ends.
fn left(
    alloc: Global,
    kernel: &Kernel,
    held: &[bool],
    flows: &[bool],
    list: &[u32],
) -> Result<Vec<Stmt>, AllocError>
    requires held { held.now ≡ held_memories kernel.now }
    requires flows { flows.now ≡ flow_wires kernel.now }
    ensures { IfOk result (λ out. out.items ≡ method_of kernel.now AtLeft list.now (sets_of kernel.now)) }
{
    let mut marks = instant_marked(alloc, kernel, held)?;
    let mut out = solved(alloc, kernel, false, &mut marks, flows, list)?;
    sets(&mut out, held, kernel.mems.as_slice())?;
    Ok(out)
}

/// The method of flows.
#[tactic(auto, using(crate::proofs::MarkLists::append_none))]
fn flow(alloc: Global, kernel: &Kernel, list: &[u32]) -> Result<Vec<Stmt>, AllocError>
    ensures { IfOk result (λ out. out.items ≡ method_of kernel.now InFlow list.now []) }
{
    let mut marks = flow_marked(alloc, kernel)?;
    let out = solved(alloc, kernel, false, &mut marks, &[], list)?;
    Ok(out)
}

/// All that the kernel lists has numbers.
fn count(kernel: &Kernel) -> Result<(), AllocError>
    ensures { OnOk result (AreCounted kernel.now) }
{
    number(kernel.wires.len())?;
    number(kernel.mems.len())?;
    number(kernel.ins.len())?;
    number(kernel.sites.len())?;
    Ok(())
}

fn code(alloc: Global, kernel: &Kernel, order: &Order) -> Result<Code, AllocError>
    requires order { IsOrder kernel.now order.now }
    ensures { IfOk result (λ code. code ≡ code_of kernel.now order.now) }
{
    is_well_formed(kernel);
    count(kernel)?;
    let held = held_memories(alloc, kernel)?;
    let flows = flow_wires(alloc, kernel)?;
    let list = order.list();
    let regs = types(alloc, kernel.wires.as_slice())?;
    let mems = memories(alloc, kernel.mems.as_slice())?;
    let ins = inputs(alloc, kernel.ins.as_slice())?;
    let outs = outputs(alloc, kernel.outs.as_slice())?;
    let sites = sites(alloc, kernel.sites.as_slice())?;
    let step = step(alloc, kernel, held.as_slice(), flows.as_slice(), list)?;
    let left = left(alloc, kernel, held.as_slice(), flows.as_slice(), list)?;
    let flow = flow(alloc, kernel, list)?;
    Ok(Code {
        regs: Sequence::from_vec(regs),
        mems: Sequence::from_vec(mems),
        ins: Sequence::from_vec(ins),
        outs: Sequence::from_vec(outs),
        sites: Sequence::from_vec(sites),
        again: kernel.again,
        step: Sequence::from_vec(step),
        left: Sequence::from_vec(left),
        flow: Sequence::from_vec(flow),
    })
}

/// The code of a kernel whose wires are solved in this order.
pub fn generate(alloc: Global, kernel: &Kernel, order: &Order) -> Result<Code, Memory>
    requires order { IsOrder kernel.now order.now }
    ensures { IfOk result (λ code. code ≡ code_of kernel.now order.now) }
{
    match code(alloc, kernel, order) {
        Ok(code) => Ok(code),
        Err(_) => Err(Memory),
    }
}
