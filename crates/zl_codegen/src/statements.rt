// The statements of the wires, in their order.
ghost use Rattle.std.specs.Prelude.{◌≡◌, ◌++◌, List, [], ◌∷◌, slice_get, IfOk, OnOk};
ghost use Rattle.zl_code.specs.declared.stmt.Stmt.{Stmt as StmtOf};
ghost use Rattle.zl_code.specs.declared.stmt.Stmt.TheVariants as says;
ghost use Rattle.zl_codegen.specs.Guards.{guard_of, chain, change};
ghost use Rattle.zl_codegen.specs.Statements.{fault_of, event, define, define_in, body, sets};

use crate::entry::number;
use crate::guards::{chain, change, close, guard_of};
use crate::needs::{can_fault, is_needed_memory, is_taken};
use std::alloc::{AllocError, Global};
use zl_code::{OpFault, Stmt};
use zl_kernel::{Def, KMem, Wire};
use zl_value::{Op, Sequence, Value};

/// What an operator says of its fault.
fn fault_of(wire: &Wire, op: Op) -> Option<OpFault>
    ensures { result ≡ fault_of wire.now op }
{
    if can_fault(op) {
        return Some(OpFault {
            ord: wire.ord,
            at: wire.at,
        });
    }
    None
}

fn event(stepping: bool, n: u32, site: u32) -> Stmt
    ensures { result ≡ event stepping n site }
{
    if stepping {
        return Stmt::Event { to: n, site };
    }
    Stmt::Lit {
        to: n,
        value: Value::B(false),
    }
}

/// The register of the wire that the test takes.
fn define_if(
    out: &mut Vec<Stmt>,
    n: u32,
    test: u32,
    this: u32,
    other: u32,
) -> Result<(), AllocError>
    ensures { OnOk result ((rest : List StmtOf) → out.new.items ++ rest ≡ out.old.items ++ (says.If test ∷ says.Get n this ∷ says.Else ∷ says.Get n other ∷ says.Fi ∷ rest)) }
{
    out.push(Stmt::If(test))?;
    out.push(Stmt::Get { to: n, from: this })?;
    out.push(Stmt::Else)?;
    out.push(Stmt::Get { to: n, from: other })?;
    out.push(Stmt::Fi)?;
    Ok(())
}

/// The operator over the registers of its operands.
fn operator(
    alloc: Global,
    n: u32,
    op: Op,
    args: &[u32],
    fault: Option<OpFault>,
) -> Result<Stmt, AllocError>
    ensures { IfOk result (λ stmt. stmt ≡ says.Op n op args.now fault) }
{
    let args = Sequence::from_vec(Vec::from_slice(alloc, args)?);
    Ok(Stmt::Op {
        to: n,
        op,
        args,
        fault,
    })
}

/// Adds a statement.
fn add(out: &mut Vec<Stmt>, stmt: Stmt) -> Result<(), AllocError>
    ensures { OnOk result ((rest : List StmtOf) → out.new.items ++ rest ≡ out.old.items ++ (stmt ∷ rest)) }
{
    out.push(stmt)?;
    Ok(())
}

/// Gives a register what the definition of its wire says.
fn define(
    alloc: Global,
    out: &mut Vec<Stmt>,
    stepping: bool,
    n: u32,
    wire: &Wire,
) -> Result<(), AllocError>
    ensures { OnOk result ((rest : List StmtOf) → out.new.items ++ rest ≡ out.old.items ++ define stepping n wire.now wire.now.def rest) }
{
    match &wire.def {
        Def::Lit(value) => add(
            out,
            Stmt::Lit {
                to: n,
                value: *value,
            },
        ),
        Def::Copy(from) => add(out, Stmt::Get { to: n, from: *from }),
        Def::Mem(mem) => add(out, Stmt::Mem { to: n, mem: *mem }),
        Def::In(input) => add(
            out,
            Stmt::In {
                to: n,
                input: *input,
            },
        ),
        Def::Event(site) => add(out, event(stepping, n, *site)),
        Def::Step => add(
            out,
            Stmt::Lit {
                to: n,
                value: Value::B(stepping),
            },
        ),
        Def::Op(op, args) => add(
            out,
            operator(alloc, n, *op, args.as_slice(), fault_of(wire, *op))?,
        ),
        Def::If(test, this, other) => define_if(out, n, *test, *this, *other),
    }
}

/// The same, of the wire of this number.
fn define_in(
    alloc: Global,
    out: &mut Vec<Stmt>,
    stepping: bool,
    n: u32,
    wires: &[Wire],
) -> Result<(), AllocError>
    ensures { OnOk result ((rest : List StmtOf) → out.new.items ++ rest ≡ out.old.items ++ define_in stepping n (slice_get wires.now n) rest) }
{
    match wires.get(n as usize) {
        Some(wire) => define(alloc, out, stepping, n, wire),
        None => Ok(()),
    }
}

/// A wire under its guards, which are then the open ones.
fn place(
    alloc: Global,
    out: &mut Vec<Stmt>,
    opened: &[u32],
    stepping: bool,
    n: u32,
    wires: &[Wire],
) -> Result<Vec<u32>, AllocError>
    ensures guards { IfOk result (λ guards. guards.items ≡ chain wires.now (guard_of wires.now n)) }
    ensures placed { IfOk result (λ guards. (rest : List StmtOf) → out.new.items ++ rest ≡ out.old.items ++ change opened.now (chain wires.now (guard_of wires.now n)) (define_in stepping n (slice_get wires.now n) rest)) }
{
    let guards = chain(alloc, wires, guard_of(wires, n))?;
    change(out, opened, guards.as_slice())?;
    define_in(alloc, out, stepping, n, wires)?;
    Ok(guards)
}

/// The statements of a method: those wires of the list that it solves, each under its guards.
pub(crate) fn body(
    alloc: Global,
    wires: &[Wire],
    stepping: bool,
    marks: &[bool],
    left: &[bool],
    list: &[u32],
) -> Result<Vec<Stmt>, AllocError>
    ensures { IfOk result (λ stmts. (rest : List StmtOf) → stmts.items ++ rest ≡ body wires.now stepping marks.now left.now [] list.now rest) }
{
    let mut out = Vec::new(alloc);
    let mut opened = Vec::new(alloc);
    for i in 0..list.len() {
        if is_taken(marks, left, list[i]) {
            opened = place(alloc, &mut out, opened.as_slice(), stepping, list[i], wires)?;
        }
    }
    close(&mut out, opened.as_slice())?;
    Ok(out)
}

/// Each memory that something needs takes its wire.
pub(crate) fn sets(out: &mut Vec<Stmt>, held: &[bool], mems: &[KMem]) -> Result<(), AllocError>
    ensures { OnOk result (out.new.items ≡ out.old.items ++ sets held.now 0 mems.now) }
{
    for i in 0..mems.len() {
        let m = number(i)?;
        if is_needed_memory(held, m, &mems[i]) {
            out.push(Stmt::Set {
                mem: m,
                from: mems[i].next,
            })?;
        }
    }
    Ok(())
}
