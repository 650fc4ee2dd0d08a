//! A variable of derivative 1 that starts at 0 and is reset to 0 where it reaches 1, run by calls of its machine.
ghost use Rattle.std.specs.Prelude.{◌≡◌, ◌∷◌, [], true, pos, Some, IfOk};
ghost use Rattle.zl_value.specs.Fraction.{whole};
ghost use Rattle.zl_value.specs.declared.op.Op.TheVariants.{SubFloat};
ghost use Rattle.zl_code.specs.declared.stmt.Stmt.TheVariants.{Op as Apply};
ghost use Rattle.zl_code.specs.Worked.{at};
ghost use Rattle.zl_code.specs.Worked.SawTooth.{code as saw_tooth_code};
ghost use Rattle.zl_machine.specs.MachineForm.{goes_on, has_instant, has_flow};

use std::alloc::{AllocError, Global};
use std::process::Abort;
use std::test::Fail;
use zl_code::{CMem, CSite, Code, OpFault, Stmt};
use zl_machine::{FlowOutcome, Machine, Outcome};
use zl_value::{Arith, Fault, Frac, Op, Output, Pos, Sequence, Text, Ty, Value};

/// The number 1.
fn one() -> Result<Frac, Fail>
    ensures { IfOk result (λ f. f ≡ whole (pos 1)) }
{
    Ok(Frac::of_int(1)?)
}

/// The registers.
fn registers(alloc: Global) -> Result<Sequence<Ty>, AllocError>
    ensures { IfOk result (λ tys. tys ≡ saw_tooth_code.regs) }
{
    let tys = [
        Ty::Float,
        Ty::Float,
        Ty::Bool,
        Ty::Float,
        Ty::Bool,
        Ty::Float,
    ];
    Ok(Sequence::from_vec(Vec::from_array(alloc, tys)?))
}

/// The one memory: the variable, whose slope is in register 3.
fn memories(alloc: Global) -> Result<Sequence<CMem>, AllocError>
    ensures { IfOk result (λ mems. mems ≡ saw_tooth_code.mems) }
{
    let memory = CMem {
        ty: Ty::Float,
        start: Some(Value::F(Frac::zero())),
        slope: Some(3),
        at: Pos {
            line: 1,
            column: 37,
        },
    };
    Ok(Sequence::from_vec(Vec::from_array(alloc, [memory])?))
}

/// The one output: `x`, from register 0.
fn outputs(alloc: Global) -> Result<Sequence<Output>, Fail>
    ensures { IfOk result (λ outs. outs ≡ saw_tooth_code.outs) }
{
    let output = Output {
        name: Text::make(alloc, b"x")?,
        from: 0,
    };
    Ok(Sequence::from_vec(Vec::from_array(alloc, [output])?))
}

/// The one site: `x - 1`, never fresh, with the slope of `x`.
fn sites(alloc: Global) -> Result<Sequence<CSite>, AllocError>
    ensures { IfOk result (λ sites. sites ≡ saw_tooth_code.sites) }
{
    let site = CSite {
        value: 1,
        fresh: 2,
        slope: 3,
    };
    Ok(Sequence::from_vec(Vec::from_array(alloc, [site])?))
}

/// `x - 1`, into the register of the site's value.
fn site_value(alloc: Global) -> Result<Stmt, AllocError>
    ensures { IfOk result (λ stmt. stmt ≡ Apply 1 SubFloat (0 ∷ 5 ∷ []) (Some (record { ord = 0; at = at 1 65 }))) }
{
    Ok(Stmt::Op {
        to: 1,
        op: Op::SubFloat,
        args: Sequence::from_vec(Vec::from_array(alloc, [0, 5])?),
        fault: Some(OpFault {
            ord: 0,
            at: Pos {
                line: 1,
                column: 65,
            },
        }),
    })
}

/// At steps: `x` is 0 where the site fired, and else what it was.
fn at_steps(alloc: Global) -> Result<Sequence<Stmt>, Fail>
    ensures { IfOk result (λ stmts. stmts ≡ saw_tooth_code.step) }
{
    let nought = Value::F(Frac::zero());
    let unit = Value::F(one()?);
    let stmts = [
        Stmt::Event { to: 4, site: 0 },
        Stmt::If(4),
        Stmt::Lit {
            to: 0,
            value: nought,
        },
        Stmt::Else,
        Stmt::Mem { to: 0, mem: 0 },
        Stmt::Fi,
        Stmt::Set { mem: 0, from: 0 },
        Stmt::Lit { to: 5, value: unit },
        site_value(alloc)?,
        Stmt::Lit {
            to: 2,
            value: Value::B(false),
        },
    ];
    Ok(Sequence::from_vec(Vec::from_array(alloc, stmts)?))
}

/// At left ends: `x` is what it came to.
fn at_left_ends(alloc: Global) -> Result<Sequence<Stmt>, Fail>
    ensures { IfOk result (λ stmts. stmts ≡ saw_tooth_code.left) }
{
    let unit = Value::F(one()?);
    let stmts = [
        Stmt::Mem { to: 0, mem: 0 },
        Stmt::Lit { to: 5, value: unit },
        site_value(alloc)?,
        Stmt::Lit {
            to: 2,
            value: Value::B(false),
        },
    ];
    Ok(Sequence::from_vec(Vec::from_array(alloc, stmts)?))
}

/// In flows: the slope is 1.
fn in_flows(alloc: Global) -> Result<Sequence<Stmt>, Fail>
    ensures { IfOk result (λ stmts. stmts ≡ saw_tooth_code.flow) }
{
    let unit = Value::F(one()?);
    let stmts = [Stmt::Lit { to: 3, value: unit }];
    Ok(Sequence::from_vec(Vec::from_array(alloc, stmts)?))
}

/// The code, which has no inputs.
pub(crate) fn saw_tooth(alloc: Global) -> Result<Code, Fail>
    ensures { IfOk result (λ code. code ≡ saw_tooth_code) }
{
    let regs = registers(alloc)?;
    let mems = memories(alloc)?;
    let ins = Sequence::from_vec(Vec::new(alloc));
    let outs = outputs(alloc)?;
    let sites = sites(alloc)?;
    let step = at_steps(alloc)?;
    let left = at_left_ends(alloc)?;
    let flow = in_flows(alloc)?;
    Ok(Code {
        regs,
        mems,
        ins,
        outs,
        sites,
        again: 2,
        step,
        left,
        flow,
    })
}

/// A step that is ready and demands no further one; the site fired if `fired` says so.
pub(crate) fn steps(rt: &impl Abort, machine: &mut Machine, fired: bool)
    requires code { machine.old.code ≡ saw_tooth_code }
    requires going { goes_on machine.old.mode ≡ true }
    ensures code { machine.new.code ≡ saw_tooth_code }
    ensures ready { has_instant machine.new.mode ≡ true }
{
    match machine.step(&[fired], &[]) {
        Outcome::Ready { again } => assert!(rt; !again),
        _ => panic!(rt; "no step"),
    }
}

/// A flow that is ready.
fn flows(rt: &impl Abort, machine: &mut Machine)
    requires code { machine.old.code ≡ saw_tooth_code }
    requires ready { has_instant machine.old.mode ≡ true }
    ensures code { machine.new.code ≡ saw_tooth_code }
    ensures flows { has_flow machine.new.mode ≡ true }
{
    match machine.flow() {
        FlowOutcome::Ready => (),
        _ => panic!(rt; "no flow"),
    }
}

/// A move without a fault.
fn moves(rt: &impl Abort, machine: &mut Machine, by: Frac)
    requires code { machine.old.code ≡ saw_tooth_code }
    requires flows { has_flow machine.old.mode ≡ true }
    ensures code { machine.new.code ≡ saw_tooth_code }
    ensures ready { has_instant machine.new.mode ≡ true }
{
    match machine.advance(by) {
        Ok(()) => (),
        Err(_) => panic!(rt; "no move"),
    }
}

/// A move that ends with this fault.
fn faults(rt: &impl Abort, machine: &mut Machine, by: Frac, want: Fault)
    requires code { machine.old.code ≡ saw_tooth_code }
    requires flows { has_flow machine.old.mode ≡ true }
    ensures { machine.new.code ≡ saw_tooth_code }
{
    match machine.advance(by) {
        Ok(()) => panic!(rt; "no fault"),
        Err(fault) => assert_eq!(rt; fault, want),
    }
}

/// A left end that is ready.
fn leaves(rt: &impl Abort, machine: &mut Machine)
    requires code { machine.old.code ≡ saw_tooth_code }
    requires ready { has_instant machine.old.mode ≡ true }
    ensures code { machine.new.code ≡ saw_tooth_code }
    ensures ready { has_instant machine.new.mode ≡ true }
{
    match machine.left() {
        Outcome::Ready { again } => assert!(rt; !again),
        _ => panic!(rt; "no left end"),
    }
}

/// The instant shows this value of `x`, and a site that isn't fresh and is one below it.
fn shows(rt: &impl Abort, machine: &Machine, x: Frac, site: Frac)
    requires code { machine.now.code ≡ saw_tooth_code }
    requires ready { has_instant machine.now.mode ≡ true }
{
    assert_eq!(rt; machine.output(0), Value::F(x));
    let view = machine.site(0);
    assert_eq!(rt; view.value, Some(site));
    assert!(rt; !view.fresh);
}

/// The site begins at this value and grows by one in a unit of time.
fn grows_from(rt: &impl Abort, machine: &Machine, value: Frac, slope: Frac)
    requires code { machine.now.code ≡ saw_tooth_code }
    requires flows { has_flow machine.now.mode ≡ true }
{
    match machine.line(0) {
        Some(line) => {
            assert_eq!(rt; line.value, value);
            assert_eq!(rt; line.slope, slope);
        }
        None => panic!(rt; "no line"),
    }
}

#[test]
fn saw_tooth_call_by_call(rt: HostRuntime) -> Result<(), Fail> {
    let code = saw_tooth(rt.alloc())?;
    let mut machine = Machine::make(rt.alloc(), &code)?;
    let (nought, unit) = (Frac::zero(), one()?);
    steps(&rt, &mut machine, false);
    shows(&rt, &machine, nought, unit.neg());
    flows(&rt, &mut machine);
    grows_from(&rt, &machine, unit.neg(), unit);
    moves(&rt, &mut machine, unit);
    leaves(&rt, &mut machine);
    shows(&rt, &machine, unit, nought);
    steps(&rt, &mut machine, true);
    shows(&rt, &machine, nought, unit.neg());
    machine.restart();
    steps(&rt, &mut machine, false);
    shows(&rt, &machine, nought, unit.neg());
    Ok(())
}

#[test]
fn moves_out_of_the_width(rt: HostRuntime) -> Result<(), Fail> {
    let code = saw_tooth(rt.alloc())?;
    let mut machine = Machine::make(rt.alloc(), &code)?;
    let greatest = Frac::of_int(i64::MAX)?;
    steps(&rt, &mut machine, false);
    flows(&rt, &mut machine);
    moves(&rt, &mut machine, greatest);
    leaves(&rt, &mut machine);
    flows(&rt, &mut machine);
    let fault = Fault {
        kind: Arith::Range,
        at: Pos {
            line: 1,
            column: 37,
        },
    };
    faults(&rt, &mut machine, one()?, fault);
    machine.restart();
    steps(&rt, &mut machine, false);
    shows(&rt, &machine, Frac::zero(), one()?.neg());
    Ok(())
}
