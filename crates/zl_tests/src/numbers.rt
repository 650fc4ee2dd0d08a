use std::test::Fail;
use zl_value::laws::{determined_has_one_run, ranked_has_one_solution, runs_correspond};
use zl_value::{
    Arith, Frac, IntOp, Pos, Text, Value, int_neg, int_op, print_number, print_position,
    print_value, read_decimal, write_value,
};

#[test]
fn ranked_at_numbers_and_tests() {
    ranked_has_one_solution::<u8, bool>();
}

#[test]
fn runs_at_numbers_and_tests() {
    runs_correspond::<u8, bool, u16, u8, bool>();
    determined_has_one_run::<u8, bool>();
}

#[test]
fn copies_bytes(rt: HostRuntime) -> Result<(), Fail> {
    let text = Text::make(rt.alloc(), b"speed")?;
    assert_eq!(rt; text.bytes(), b"speed".as_slice());
    Ok(())
}

#[test]
fn reads_numbers(rt: HostRuntime) {
    let cases: [(&[u8], Option<(i64, i64)>); 14] = [
        (b"0.1", Some((1, 10))),
        (b"1.5e3", Some((1500, 1))),
        (b"12.", Some((12, 1))),
        (b"1E+2", Some((100, 1))),
        (b"1250e-3", Some((5, 4))),
        (b"9223372036854775807.0", Some((i64::MAX, 1))),
        (b"9223372036854775808.0", None),
        (b"0e99999", Some((0, 1))),
        (
            b"0000000000000000000000000000000000000000000000000000000000001.0",
            Some((1, 1)),
        ),
        (b"1e-19", None),
        (b"1e-99999999999999999999999999999999999999999", None),
        (b"12", None),
        (b".5", None),
        (b"1.5e", None),
    ];
    for (text, want) in cases {
        assert_eq!(rt; read_decimal(text).map(|f| (f.num(), f.den())), want);
    }
}

#[test]
fn writes_into_a_room(rt: HostRuntime) -> Result<(), Fail> {
    let third = Frac::make(-1, 3)?;
    let mut room = [b'.'; 44];
    let end = write_value(&mut room, 2, Value::F(third));
    assert_eq!(rt; end, 6);
    assert_eq!(rt; &room[..8], b"..-1/3..".as_slice());
    Ok(())
}

#[test]
fn prints_values(rt: HostRuntime) -> Result<(), Fail> {
    let mut out = Vec::new(rt.alloc());
    for value in [Value::B(true), Value::B(false), Value::I(i64::MIN)] {
        print_value(&mut out, value)?;
    }
    print_number(&mut out, 18446744073709551615)?;
    let at = Pos {
        line: 12,
        column: 3,
    };
    print_position(&mut out, at)?;
    assert_eq!(rt;
        out.as_slice(),
        b"truefalse-92233720368547758081844674407370955161512:3".as_slice()
    );
    Ok(())
}

#[test]
fn operators_on_ints(rt: HostRuntime) {
    let cases = [
        (IntOp::Add, i64::MAX, 1, Err(Arith::Range)),
        (IntOp::Sub, -1, i64::MAX, Ok(i64::MIN)),
        (IntOp::Mul, 3037000500, 3037000500, Err(Arith::Range)),
        (IntOp::Div, -7, 2, Ok(-3)),
        (IntOp::Div, 7, 0, Err(Arith::Division)),
        (IntOp::Div, i64::MIN, -1, Err(Arith::Range)),
        (IntOp::Mod, -7, 2, Ok(-1)),
        (IntOp::Mod, 7, -2, Ok(1)),
        (IntOp::Mod, 7, 0, Err(Arith::Division)),
        (IntOp::Mod, i64::MIN, -1, Ok(0)),
    ];
    for (op, a, b, want) in cases {
        assert_eq!(rt; int_op(op, a, b), want);
    }
    assert_eq!(rt; int_neg(i64::MIN), Err(Arith::Range));
    assert_eq!(rt; int_neg(5), Ok(-5));
}
