//! Runs of the variable of derivative 1 that is reset to 0 where it reaches 1.
use crate::machines::saw_tooth;
use crate::scripts::read_alone;
use std::alloc::Global;
use std::process::Abort;
use std::test::Fail;
use zl_lines::LineRoom;
use zl_machine::Machine;
use zl_outside::MemSink;
use zl_run::{End, RunAnswer, run};
use zl_value::{Arith, Pos};

/// Runs with a script and a sink.
fn runs(alloc: Global, script: &[u8], sink: &mut MemSink) -> Result<Result<End, RunAnswer>, Fail> {
    let code = saw_tooth(alloc)?;
    let script = read_alone(alloc, script)?;
    let mut machine = Machine::make(alloc, &code)?;
    let mut room = LineRoom::make(alloc, &code)?;
    Ok(run(alloc, &mut machine, &code, &script, &mut room, sink))
}

/// The run with this script ends so, and this is its trace.
fn ends(rt: &impl Abort, alloc: Global, script: &[u8], end: End, trace: &[u8]) -> Result<(), Fail> {
    let mut sink = MemSink::new(alloc, 1000)?;
    assert_eq!(rt; runs(alloc, script, &mut sink)?, Ok(end));
    assert_eq!(rt; sink.bytes(), trace);
    Ok(())
}

#[test]
fn to_the_horizon(rt: HostRuntime) -> Result<(), Fail> {
    let trace = b"0 #0 x=0\n1 - x=1\n1 #0 x=0\n2 - x=1\n2 #0 x=0\n5/2 - x=1/2\nend horizon\n";
    ends(&rt, rt.alloc(), b"horizon 5/2", End::Horizon, trace)?;
    ends(
        &rt,
        rt.alloc(),
        b"horizon 0",
        End::Horizon,
        b"0 #0 x=0\nend horizon\n",
    )
}

#[test]
fn with_the_steps_of_a_script(rt: HostRuntime) -> Result<(), Fail> {
    let script = b"horizon 3/4\nat 0\nat 1/2\nat 3/4";
    let trace = b"0 #0 x=0\n1/2 - x=1/2\n1/2 #0 x=1/2\n3/4 - x=3/4\n3/4 #0 x=3/4\nend horizon\n";
    ends(&rt, rt.alloc(), script, End::Horizon, trace)
}

#[test]
fn to_the_bound(rt: HostRuntime) -> Result<(), Fail> {
    ends(
        &rt,
        rt.alloc(),
        b"horizon 1\nsteps 1",
        End::Bound,
        b"0 #0 x=0\n1 - x=1\nend bound\n",
    )?;
    let trace = b"0 #0 x=0\n1 - x=1\n1 #0 x=0\nend horizon\n";
    ends(&rt, rt.alloc(), b"horizon 1\nsteps 2", End::Horizon, trace)?;
    let script = b"horizon 9223372036854775807\nsteps 2\nat 1/3";
    let trace = b"0 #0 x=0\n1/3 - x=1/3\n1/3 #0 x=1/3\n1 - x=1\nend bound\n";
    ends(&rt, rt.alloc(), script, End::Bound, trace)
}

#[test]
fn to_a_flow_of_a_duration_out_of_the_width(rt: HostRuntime) -> Result<(), Fail> {
    let script = b"horizon 1\nat 1/9223372036854775807\nat 1/9223372036854775806";
    let mut trace = Vec::new(rt.alloc());
    trace.extend_from_slice(b"0 #0 x=0\n1/9223372036854775807 - x=1/9223372036854775807\n")?;
    trace.extend_from_slice(b"1/9223372036854775807 #0 x=1/9223372036854775807\n")?;
    trace.extend_from_slice(b"fault range 1/9223372036854775807 ~ 0:0\n")?;
    let fault = End::Fault(Arith::Range, Pos { line: 0, column: 0 });
    ends(&rt, rt.alloc(), script, fault, trace.as_slice())
}

#[test]
fn up_to_the_put_that_fails(rt: HostRuntime) -> Result<(), Fail> {
    let lines: [&[u8]; 4] = [b"0 #0 x=0\n", b"1 - x=1\n", b"1 #0 x=0\n", b"end horizon\n"];
    let mut written = Vec::new(rt.alloc());
    let mut failing: u64 = 1;
    for line in lines {
        let mut sink = MemSink::new(rt.alloc(), 1000)?;
        sink.fail_at(failing)?;
        assert_eq!(rt;
            runs(rt.alloc(), b"horizon 1", &mut sink)?,
            Err(RunAnswer::WriteFault)
        );
        assert_eq!(rt; sink.bytes(), written.as_slice());
        written.extend_from_slice(line)?;
        failing = failing.wrapping_add(1);
    }
    ends(
        &rt,
        rt.alloc(),
        b"horizon 1",
        End::Horizon,
        written.as_slice(),
    )
}
