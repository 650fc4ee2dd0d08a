ghost use Rattle.std.specs.Prelude.{[], IfOk};
ghost use Rattle.zl_value.specs.Script.{IsScriptFor};

use std::alloc::Global;
use std::process::Abort;
use std::test::Fail;
use zl_script::{Input, Script, ScriptAnswer, Set, Text, read_script};
use zl_value::{Frac, Ty, Value};

/// Reads a script for a program without inputs.
pub(crate) fn read_alone(alloc: Global, text: &[u8]) -> Result<Script, ScriptAnswer>
    ensures { IfOk result (IsScriptFor []) }
{
    read_script(alloc, text, &[])
}

/// Reads a script for a program with a float `v`, an int `n` and a bool `b`.
fn read_for_three(alloc: Global, text: &[u8]) -> Result<Script, ScriptAnswer> {
    let inputs = [
        Input {
            name: Text::make(alloc, b"v")?,
            ty: Ty::Float,
        },
        Input {
            name: Text::make(alloc, b"n")?,
            ty: Ty::Int,
        },
        Input {
            name: Text::make(alloc, b"b")?,
            ty: Ty::Bool,
        },
    ];
    read_script(alloc, text, &inputs)
}

#[test]
fn horizon_behind_a_comment(rt: HostRuntime) -> Result<(), Fail> {
    let script = read_alone(rt.alloc(), b"# c\r\nhorizon 15e-1")?;
    assert_eq!(rt; script.horizon, Frac::make(3, 2)?);
    assert_eq!(rt; script.steps, 1_000_000);
    assert_eq!(rt; script.lines.len(), 0);
    Ok(())
}

#[test]
fn lines_with_their_sets(rt: HostRuntime) -> Result<(), Fail> {
    let text =
        b"horizon 4\nsteps 007\nat 0 n=-3 b=true v=0\n\n# later\n\tat\t2.50 v=-7/14 \r\nat 4 v=-0";
    let script = read_for_three(rt.alloc(), text)?;
    assert_eq!(rt; script.horizon, Frac::make(4, 1)?);
    assert_eq!(rt; script.steps, 7);
    let lines = script.lines.as_slice();
    assert_eq!(rt; lines.len(), 3);
    assert_eq!(rt; lines[0].time, Frac::zero());
    let first = [
        Set {
            input: 1,
            value: Value::I(-3),
        },
        Set {
            input: 2,
            value: Value::B(true),
        },
        Set {
            input: 0,
            value: Value::F(Frac::zero()),
        },
    ];
    assert_eq!(rt; lines[0].sets.as_slice(), first.as_slice());
    assert_eq!(rt; lines[1].time, Frac::make(5, 2)?);
    let second = [Set {
        input: 0,
        value: Value::F(Frac::make(-1, 2)?),
    }];
    assert_eq!(rt; lines[1].sets.as_slice(), second.as_slice());
    assert_eq!(rt; lines[2].time, Frac::make(4, 1)?);
    Ok(())
}

/// Each text is refused so for a program without inputs.
fn are_refused(rt: &impl Abort, alloc: Global, cases: &[(&[u8], ScriptAnswer)]) {
    for (text, want) in cases {
        assert_eq!(rt; read_alone(alloc, text).err(), Some(*want));
    }
}

#[test]
fn refusals_of_syntax(rt: HostRuntime) {
    let first = ScriptAnswer::Syntax { line: 1 };
    let second = ScriptAnswer::Syntax { line: 2 };
    let third = ScriptAnswer::Syntax { line: 3 };
    let cases: [(&[u8], ScriptAnswer); 20] = [
        (b"", first),
        (b"# c\n\n", third),
        (b"\r", second),
        (b"# c\nat 0\nhorizon 1", second),
        (b"horizon", first),
        (b"horizon 1 2", first),
        (b"horizon -1", first),
        (b"horizon 1/0", first),
        (b"horizon 9223372036854775808", first),
        (b"horizon 1e-39", first),
        (b"horizon 1\nsteps 0", second),
        (b"horizon 1\nsteps 1000001", second),
        (b"horizon 1\nsteps 1.0", second),
        (b"horizon 1\nat 0\nsteps 3", third),
        (b"horizon 1\nhorizon 1", second),
        (b"horizon 1\n# \xff", second),
        (b"horizon 1\nat", second),
        (b"horizon 1\nat 0 let=1", second),
        (b"horizon 1\nat 0 q=1/0", second),
        (b"horizon 1\nat 2\nat 0 q", third),
    ];
    are_refused(&rt, rt.alloc(), &cases);
}

#[test]
fn refusals_of_order_and_names(rt: HostRuntime) {
    let cases: [(&[u8], ScriptAnswer); 5] = [
        (
            b"horizon 1\nat 1/2\nat 1/2",
            ScriptAnswer::Order { line: 3 },
        ),
        (b"horizon 1\nat 2", ScriptAnswer::Order { line: 2 }),
        (
            b"horizon 1\nat 0 q=1\nat 0",
            ScriptAnswer::Order { line: 3 },
        ),
        (b"horizon 1\nat 0 q=1", ScriptAnswer::Input { line: 2 }),
        (b"horizon 1\nat 0 q=1e-19", ScriptAnswer::Input { line: 2 }),
    ];
    are_refused(&rt, rt.alloc(), &cases);
}

#[test]
fn refusals_with_inputs(rt: HostRuntime) {
    let second = ScriptAnswer::Input { line: 2 };
    let cases: [(&[u8], ScriptAnswer); 9] = [
        (b"horizon 1", ScriptAnswer::Missing { line: 1 }),
        (
            b"# c\nhorizon 1\nat 1 v=1",
            ScriptAnswer::Missing { line: 2 },
        ),
        (
            b"horizon 1\n\nat 0 v=1 b=false",
            ScriptAnswer::Missing { line: 3 },
        ),
        (b"horizon 1\nat 0 v=1 v=1", second),
        (
            b"horizon 1\nat 0\nat 1 v=true",
            ScriptAnswer::Input { line: 3 },
        ),
        (b"horizon 1\nat 0 n=1.0", second),
        (b"horizon 1\nat 0 b=1", second),
        (b"horizon 1\nat 0 v=-9223372036854775808", second),
        (b"horizon 1\nat 0 n=9223372036854775808", second),
    ];
    for (text, want) in cases {
        assert_eq!(rt; read_for_three(rt.alloc(), text).err(), Some(want));
    }
}

#[test]
fn steps_at_their_bounds(rt: HostRuntime) -> Result<(), Fail> {
    let least = read_alone(rt.alloc(), b"horizon 1\nsteps 1")?;
    assert_eq!(rt; least.steps, 1);
    let most = read_alone(rt.alloc(), b"horizon 1\nsteps 1000000")?;
    assert_eq!(rt; most.steps, 1_000_000);
    Ok(())
}

/// Sets `v` by a word at the start of a script that gives all inputs.
fn read_value(alloc: Global, word: &[u8]) -> Result<Script, ScriptAnswer> {
    let mut text = Vec::from_slice(alloc, b"horizon 0\nat 0 n=-9223372036854775808 b=false v=")?;
    text.extend_from_slice(word)?;
    read_for_three(alloc, text.as_slice())
}

#[test]
fn values_of_all_forms(rt: HostRuntime) -> Result<(), Fail> {
    let cases: [(&[u8], Frac); 8] = [
        (b"007", Frac::make(7, 1)?),
        (
            b"-9223372036854775807",
            Frac::make(-9223372036854775807, 1)?,
        ),
        (b"1.", Frac::make(1, 1)?),
        (b"-1.50E+1", Frac::make(-15, 1)?),
        (b"25e-2", Frac::make(1, 4)?),
        (b"0e99999999999999999999", Frac::zero()),
        (b"-6/4", Frac::make(-3, 2)?),
        (
            b"33333333333333333333333333333333333333/99999999999999999999999999999999999999",
            Frac::make(1, 3)?,
        ),
    ];
    for (word, want) in cases {
        let script = read_value(rt.alloc(), word)?;
        let lines = script.lines.as_slice();
        assert_eq!(rt; lines.len(), 1);
        let sets = lines[0].sets.as_slice();
        assert_eq!(rt; sets.len(), 3);
        assert_eq!(rt; sets[2].value, Value::F(want));
    }
    Ok(())
}

#[test]
fn words_that_are_no_value(rt: HostRuntime) {
    let cases: [&[u8]; 8] = [b"", b".5", b"1e", b"--1", b"+1", b"1/-2", b"0/00", b"True"];
    for word in cases {
        assert_eq!(rt;
            read_value(rt.alloc(), word).err(),
            Some(ScriptAnswer::Syntax { line: 2 })
        );
    }
}

#[test]
fn values_out_of_width(rt: HostRuntime) {
    let cases: [&[u8]; 6] = [
        b"9223372036854775808",
        b"1/9223372036854775808",
        b"0/100000000000000000000000000000000000000",
        b"1e19",
        b"-1e-39",
        b"1e99999999999999999999",
    ];
    for word in cases {
        assert_eq!(rt;
            read_value(rt.alloc(), word).err(),
            Some(ScriptAnswer::Input { line: 2 })
        );
    }
}

/// A horizon, a line feed and spaces, of so many bytes in all.
fn padded(rt: &impl Abort, alloc: Global, size: usize) -> Result<Vec<u8>, Fail> {
    let mut text = Vec::from_slice(alloc, b"horizon 0\n")?;
    for _ in 0..size {
        if text.len() < size {
            text.push(b' ')?;
        }
    }
    assert_eq!(rt; text.len(), size);
    Ok(text)
}

#[test]
fn longest_script(rt: HostRuntime) -> Result<(), Fail> {
    let longest = padded(&rt, rt.alloc(), 1_048_576)?;
    assert!(rt; read_alone(rt.alloc(), longest.as_slice()).is_ok());
    let longer = padded(&rt, rt.alloc(), 1_048_577)?;
    assert_eq!(rt;
        read_alone(rt.alloc(), longer.as_slice()).err(),
        Some(ScriptAnswer::Size { line: 1 })
    );
    Ok(())
}

/// Lines at 0, 1, 2 and so on, so many, each of which sets `v`.
fn many_lines(alloc: Global, count: u32) -> Result<Vec<u8>, Fail> {
    let mut text = Vec::from_slice(alloc, b"horizon 1000000\nat 0 v=0 n=0 b=true\n")?;
    for time in 1..count {
        let line = format!(in alloc; "at {time} v={time}/7\n")?;
        text.extend_from_slice(line.as_bytes())?;
    }
    Ok(text)
}

#[test]
fn many_lines_are_read(rt: HostRuntime) -> Result<(), Fail> {
    let text = many_lines(rt.alloc(), 20_000)?;
    let script = read_for_three(rt.alloc(), text.as_slice())?;
    assert_eq!(rt; script.lines.len(), 20_000);
    Ok(())
}
