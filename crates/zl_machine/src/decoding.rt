// Statements to instructions, from the last one back.
ghost use Rattle.std.specs.Prelude.{◌≡◌, ◌<◌, ◌≤◌, ◌-◌, ◌^◌, ℕ, suc, true, List, [], ◌∷◌, drop, length, reverse, IfOk, IfErr, OnOk, IfSome};
ghost use Rattle.std.specs.List.{AllByRecursion};
ghost use Rattle.zl_value.specs.OperatorTypes.{type_of};
ghost use Rattle.zl_code.specs.declared.stmt.Stmt.{Stmt};
ghost use Rattle.zl_code.specs.declared.stmt.Stmt.TheVariants as says;
ghost use Rattle.zl_code.specs.Method.{Cells};
ghost use Rattle.zl_machine.specs.Building.{HasOperands, frame_at, IsBuilt, IsLinked, Leads, DoesAs};
ghost use Rattle.zl_machine.specs.Instructions.{StandsFor};

use crate::instr::Instr;
use std::alloc::{AllocError, Global};
use zl_code::{OpFault, Stmt};
use zl_value::{Op, Value};

/// An `if` of which the `fi` was met, from behind: where what follows it begins, and where its other part does.
#[derive(Clone, Copy, Debug)]
pub(crate) struct Frame {
    pub end: usize,
    pub other: usize,
}

/// Instructions, with the table of their literals.
#[derive(Drop)]
pub(crate) struct Program {
    pub code: Vec<Instr>,
    pub lits: Vec<Option<Value>>,
}

/// The instructions of the statements so far, which are the last ones.
#[derive(Drop)]
pub(crate) struct Builder {
    pub code: Vec<Instr>,
    pub lits: Vec<Option<Value>>,
    /// The open `if`s, the innermost last.
    pub frames: Vec<Frame>,
    /// Where what comes next begins.
    pub next: usize,
}

/// The same number, in 32 bits. `Err` exactly where it doesn't fit: a refusal tells no such number from want of memory.
fn narrow(number: u64) -> Result<u32, AllocError>
    ensures narrowed { IfOk result (λ n. n ≡ number) }
    ensures large { IfErr result (λ _. 2 ^ 32 ≤ number) }
{
    match u32::try_from(number) {
        Ok(n) => Ok(n),
        Err(_) => Err(AllocError),
    }
}

/// A jump, unless what comes next stands next.
fn link(b: &mut Builder) -> Result<(), AllocError>
    ensures linked { OnOk result ((stmts : List Stmt) → IsBuilt b.old stmts → IsLinked b.new stmts) }
    ensures kept { b.new.lits.items ≡ b.old.lits.items }
    ensures frames { b.new.frames.items ≡ b.old.frames.items }
{
    if b.next == b.code.len() {
        return Ok(());
    }
    let next = narrow(b.next as u64)?;
    b.code.push(Instr::Jump(next))?;
    b.next = b.code.len();
    Ok(())
}

/// Adds an instruction before what comes next.
fn put(b: &mut Builder, instr: Instr) -> Result<(), AllocError>
    ensures { OnOk result ((old new : List Stmt) → IsBuilt b.old old → Leads b.old.lits.items instr old new → IsBuilt b.new new) }
{
    link(b)?;
    b.code.push(instr)?;
    b.next = b.code.len();
    Ok(())
}

/// Adds a literal.
fn put_literal(b: &mut Builder, to: u32, value: Value) -> Result<(), AllocError>
    ensures { OnOk result ((stmts : List Stmt) → IsBuilt b.old stmts → IsBuilt b.new (says.Lit to value ∷ stmts)) }
{
    let number = narrow(b.lits.len() as u64)?;
    b.lits.push(Some(value))?;
    put(b, Instr::Lit { to, number })
}

/// The innermost open `if`, which is closed by that. Where none is open, the end of the method is its end.
fn pop(frames: &mut Vec<Frame>) -> Frame
    ensures top { result ≡ frame_at (reverse frames.old.items) 0 }
    ensures rest { (n : ℕ) → frame_at (reverse frames.new.items) n ≡ frame_at (reverse frames.old.items) (suc n) }
{
    match frames.pop() {
        Some(frame) => frame,
        None => Frame { end: 0, other: 0 },
    }
}

/// A `fi`: from behind it opens an `if`.
fn put_fi(b: &mut Builder) -> Result<(), AllocError>
    ensures { OnOk result ((stmts : List Stmt) → IsBuilt b.old stmts → IsBuilt b.new (says.Fi ∷ stmts)) }
{
    b.frames.push(Frame {
        end: b.next,
        other: b.next,
    })?;
    Ok(())
}

/// An `else`: what comes next is the other part, and what stands before it goes on behind the `fi`.
fn put_else(b: &mut Builder) -> Result<(), AllocError>
    ensures { OnOk result ((stmts : List Stmt) → IsBuilt b.old stmts → IsBuilt b.new (says.Else ∷ stmts)) }
{
    let end = pop(&mut b.frames).end;
    b.frames.push(Frame { end, other: b.next })?;
    b.next = end;
    Ok(())
}

/// An `if` on a register.
fn put_if(b: &mut Builder, reg: u32) -> Result<(), AllocError>
    ensures { OnOk result ((stmts : List Stmt) → IsBuilt b.old stmts → IsBuilt b.new (says.If reg ∷ stmts)) }
{
    link(b)?;
    let frame = pop(&mut b.frames);
    let other = narrow(frame.other as u64)?;
    let end = narrow(frame.end as u64)?;
    b.code.push(Instr::If { reg, other, end })?;
    b.next = b.code.len();
    Ok(())
}

fn unary(to: u32, op: Op, a: u32, fault: Option<OpFault>) -> Instr
    ensures { (lits : Cells) → DoesAs lits result (says.Op to op (a ∷ []) fault) }
{
    match fault {
        Some(fault) => Instr::OneFault { to, op, a, fault },
        None => match op {
            Op::NegFloat => Instr::NegFloat { to, a },
            Op::Not => Instr::Not { to, a },
            _ => Instr::One { to, op, a },
        },
    }
}

fn binary(to: u32, op: Op, a: u32, b: u32, fault: Option<OpFault>) -> Instr
    ensures { (lits : Cells) → DoesAs lits result (says.Op to op (a ∷ b ∷ []) fault) }
{
    match fault {
        Some(fault) => match op {
            Op::SubFloat => Instr::SubFloat { to, a, b, fault },
            _ => Instr::TwoFault {
                to,
                op,
                a,
                b,
                fault,
            },
        },
        None => match op {
            Op::EqInt => Instr::EqInt { to, a, b },
            Op::Or => Instr::Or { to, a, b },
            _ => Instr::Two { to, op, a, b },
        },
    }
}

/// The instruction of an operator.
fn operator(to: u32, op: Op, args: &[u32], fault: Option<OpFault>) -> Instr
    requires { length args.now ≡ length (type_of op).operands }
    ensures { (lits : Cells) → DoesAs lits result (says.Op to op args.now fault) }
{
    match args {
        [a] => unary(to, op, *a, fault),
        [a, b] => binary(to, op, *a, *b, fault),
        _ => unreachable!(),
    }
}

/// Takes a statement before those that were taken.
fn take(b: &mut Builder, stmt: &Stmt) -> Result<(), AllocError>
    requires { HasOperands stmt.now }
    ensures { OnOk result ((stmts : List Stmt) → IsBuilt b.old stmts → IsBuilt b.new (stmt.now ∷ stmts)) }
{
    match stmt {
        Stmt::Lit { to, value } => put_literal(b, *to, *value),
        Stmt::Get { to, from } => put(
            b,
            Instr::Get {
                to: *to,
                from: *from,
            },
        ),
        Stmt::Mem { to, mem } => put(b, Instr::Mem { to: *to, mem: *mem }),
        Stmt::In { to, input } => put(
            b,
            Instr::In {
                to: *to,
                input: *input,
            },
        ),
        Stmt::Event { to, site } => put(
            b,
            Instr::Event {
                to: *to,
                site: *site,
            },
        ),
        Stmt::Op {
            to,
            op,
            args,
            fault,
        } => put(b, operator(*to, *op, args.as_slice(), *fault)),
        Stmt::Set { mem, from } => put(
            b,
            Instr::Set {
                mem: *mem,
                from: *from,
            },
        ),
        Stmt::If(reg) => put_if(b, *reg),
        Stmt::Else => put_else(b),
        Stmt::Fi => put_fi(b),
    }
}

fn if_of(stmt: &Stmt) -> Option<u32>
    ensures { IfSome result (λ reg. stmt.now ≡ says.If reg) }
{
    match stmt {
        Stmt::If(reg) => Some(*reg),
        _ => None,
    }
}

/// The register that gets what another one holds, and that one.
#[derive(Clone, Copy)]
struct Copied {
    to: u32,
    from: u32,
}

fn get_of(stmt: &Stmt) -> Option<Copied>
    ensures { IfSome result (λ copied. stmt.now ≡ says.Get copied.to copied.from) }
{
    match stmt {
        Stmt::Get { to, from } => Some(Copied {
            to: *to,
            from: *from,
        }),
        _ => None,
    }
}

fn is_else(stmt: &Stmt) -> bool
    ensures { result ≡ true → stmt.now ≡ says.Else }
{
    match stmt {
        Stmt::Else => true,
        _ => false,
    }
}

fn is_fi(stmt: &Stmt) -> bool
    ensures { result ≡ true → stmt.now ≡ says.Fi }
{
    match stmt {
        Stmt::Fi => true,
        _ => false,
    }
}

/// `if cond; to = get yes; else; to = get no; fi` before place `i`, as one instruction.
fn choice(stmts: &[Stmt], i: usize) -> Option<Instr>
    requires { i ≤ length stmts.now }
    ensures { IfSome result (λ chosen. (5 ≤ i) × ((lits : Cells) → Leads lits chosen (drop i stmts.now) (drop (i - 5) stmts.now))) }
{
    if i < 5 || !is_fi(&stmts[i - 1]) || !is_else(&stmts[i - 3]) {
        return None;
    }
    let cond = if_of(&stmts[i - 5])?;
    let yes = get_of(&stmts[i - 4])?;
    let no = get_of(&stmts[i - 2])?;
    if yes.to != no.to {
        return None;
    }
    Some(Instr::Choose {
        to: yes.to,
        cond,
        yes: yes.from,
        no: no.from,
    })
}

/// Takes what stands before place `i`, and gives where it begins.
fn take_before(b: &mut Builder, stmts: &[Stmt], i: usize) -> Result<usize, AllocError>
    requires operands { AllByRecursion HasOperands stmts.now }
    requires above { 0 < i }
    requires inside { i ≤ length stmts.now }
    ensures less { IfOk result (λ j. j < i) }
    ensures taken { IfOk result (λ j. IsBuilt b.old (drop i stmts.now) → IsBuilt b.new (drop j stmts.now)) }
{
    if let Some(chosen) = choice(stmts, i) {
        put(b, chosen)?;
        return Ok(i - 5);
    }
    take(b, &stmts[i - 1])?;
    Ok(i - 1)
}

/// The instructions of the statements.
pub(crate) fn decode(alloc: Global, stmts: &[Stmt]) -> Result<Program, AllocError>
    requires { AllByRecursion HasOperands stmts.now }
    ensures { IfOk result (λ p. StandsFor p.code.items p.lits.items stmts.now) }
{
    let mut b = Builder {
        code: Vec::new(alloc),
        lits: Vec::new(alloc),
        frames: Vec::new(alloc),
        next: 0,
    };
    let mut i = stmts.len();
    while i > 0 {
        i = take_before(&mut b, stmts, i)?;
    }
    link(&mut b)?;
    Ok(Program {
        code: b.code,
        lits: b.lits,
    })
}
