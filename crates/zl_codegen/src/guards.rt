// The guards under which the wires stand in the code.
ghost use Rattle.std.specs.Prelude.{◌≡◌, ◌≤◌, ◌∷◌, ◌++◌, List, length, drop, IfOk, OnOk};
ghost use Rattle.zl_code.specs.declared.stmt.Stmt.TheVariants as says;
ghost use Rattle.zl_kernel.specs.FlowWires.{listed_in};
ghost use Rattle.zl_code.specs.declared.stmt.Stmt.{Stmt as StmtOf};
ghost use Rattle.zl_codegen.specs.Guards.{guard_of, guards_up, cut, chain, close, enter, change};

use std::alloc::{AllocError, Global};
use zl_code::Stmt;
use zl_kernel::Wire;

/// The guard of a wire.
pub(crate) fn guard_of(wires: &[Wire], n: u32) -> Option<u32>
    ensures { result ≡ guard_of wires.now n }
{
    match wires.get(n as usize) {
        Some(wire) => wire.guard,
        None => None,
    }
}

/// A guard, its own guard and so on, nine of them at most.
#[tactic(auto, using(crate::proofs::Chains::guards_none))]
fn guards_up(alloc: Global, wires: &[Wire], guard: Option<u32>) -> Result<Vec<u32>, AllocError>
    ensures { IfOk result (λ guards. guards.items ≡ guards_up wires.now 9 guard) }
{
    let mut guards = Vec::new(alloc);
    let mut next = guard;
    let mut room: u32 = 9;
    while room > 0 {
        match next {
            Some(guard) => {
                guards.push(guard)?;
                next = guard_of(wires, guard);
                room -= 1;
            }
            None => {
                room = 0;
            }
        }
    }
    Ok(guards)
}

/// The guard alone.
fn own(alloc: Global, guard: Option<u32>) -> Result<Vec<u32>, AllocError>
    ensures { IfOk result (λ guards. guards.items ≡ listed_in guard) }
{
    let mut guards = Vec::new(alloc);
    match guard {
        Some(guard) => guards.push(guard)?,
        None => {}
    }
    Ok(guards)
}

/// The guards under which a wire stands that has this guard.
pub(crate) fn chain(
    alloc: Global,
    wires: &[Wire],
    guard: Option<u32>,
) -> Result<Vec<u32>, AllocError>
    ensures { IfOk result (λ guards. guards.items ≡ chain wires.now guard) }
{
    let mut guards = guards_up(alloc, wires, guard)?;
    if guards.len() > 8 {
        return own(alloc, guard);
    }
    guards.reverse();
    Ok(guards)
}

/// Closes a guard.
fn close_one(out: &mut Vec<Stmt>) -> Result<(), AllocError>
    ensures { OnOk result ((rest : List StmtOf) → out.new.items ++ rest ≡ out.old.items ++ (says.Else ∷ says.Fi ∷ rest)) }
{
    out.push(Stmt::Else)?;
    out.push(Stmt::Fi)?;
    Ok(())
}

/// Closes all of these guards.
pub(crate) fn close(out: &mut Vec<Stmt>, guards: &[u32]) -> Result<(), AllocError>
    ensures { OnOk result ((rest : List StmtOf) → out.new.items ++ rest ≡ out.old.items ++ close guards.now rest) }
{
    for i in 0..guards.len() {
        close_one(out)?;
    }
    Ok(())
}

/// Opens all of these guards.
fn enter(out: &mut Vec<Stmt>, guards: &[u32]) -> Result<(), AllocError>
    ensures { OnOk result ((rest : List StmtOf) → out.new.items ++ rest ≡ out.old.items ++ enter guards.now rest) }
{
    for i in 0..guards.len() {
        out.push(Stmt::If(guards[i]))?;
    }
    Ok(())
}

/// How many guards both begin with.
fn shared(now: &[u32], next: &[u32]) -> usize
    ensures now { result ≤ length now.now }
    ensures next { result ≤ length next.now }
    ensures change { (rest : List StmtOf) → change now.now next.now rest ≡ close (drop result now.now) (enter (drop result next.now) rest) }
{
    let mut same = 0;
    while same < now.len() {
        if same >= next.len() {
            return same;
        }
        if now[same] != next[same] {
            return same;
        }
        same += 1;
    }
    same
}

/// Goes from the guards that are open to those that are to be.
pub(crate) fn change(out: &mut Vec<Stmt>, now: &[u32], next: &[u32]) -> Result<(), AllocError>
    ensures { OnOk result ((rest : List StmtOf) → out.new.items ++ rest ≡ out.old.items ++ change now.now next.now rest) }
{
    let same = shared(now, next);
    close(out, &now[same..])?;
    enter(out, &next[same..])
}
