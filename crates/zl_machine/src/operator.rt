// The operators on what registers hold, as the definitions say.
ghost use Rattle.std.specs.Prelude.{◌≡◌, ◌*ℤ◌, pos, int_div, int_rem, [], ◌∷◌};
ghost use Rattle.zl_value.specs.Operators.{operate, answered, within, Gives};
ghost use Rattle.zl_value.specs.Times.{holds};
ghost use Rattle.zl_value.specs.declared.op.Op.TheVariants as op;
ghost use Rattle.zl_code.specs.Method.{by_values};
ghost use Rattle.zl_value.specs.declared.value.Value.TheVariants as value;
ghost use Rattle.zl_machine.specs.Answers.{as_answer, made, both, alone, float_of, slope_of, int_of, bool_of};

use std::cmp::Ordering;
use zl_value::{Arith, Frac, Op, Value};

/// What an operator makes of two values: a value, nothing, or why there is none.
pub(crate) fn on_two(op: Op, a: Value, b: Value) -> Result<Option<Value>, Arith>
    ensures { as_answer result ≡ operate op (a ∷ b ∷ []) }
{
    match a {
        Value::F(a) => match b {
            Value::F(b) => on_floats(op, a, b),
            _ => Ok(None),
        },
        Value::I(a) => match b {
            Value::I(b) => on_ints(op, a, b),
            _ => Ok(None),
        },
        Value::B(a) => match b {
            Value::B(b) => Ok(on_bools(op, a, b)),
            _ => Ok(None),
        },
    }
}

/// What an operator makes of one value.
pub(crate) fn on_one(op: Op, a: Value) -> Result<Option<Value>, Arith>
    ensures { as_answer result ≡ operate op (a ∷ []) }
{
    match (op, a) {
        (Op::NegInt, Value::I(a)) => whole(0 - a as i128),
        (Op::NegFloat, Value::F(a)) => Ok(Some(Value::F(a.neg()))),
        (Op::FloatOfInt, Value::I(a)) => float_of_int(a),
        (Op::Truncate, Value::F(a)) => Ok(Some(Value::I(a.truncate()))),
        (Op::Not, Value::B(a)) => Ok(Some(Value::B(!a))),
        _ => Ok(None),
    }
}

pub(crate) fn float(number: Result<Frac, Arith>) -> Result<Option<Value>, Arith>
    ensures { as_answer result ≡ made number }
{
    match number {
        Ok(f) => Ok(Some(Value::F(f))),
        Err(kind) => Err(kind),
    }
}

/// A whole number, if it is one of the program's.
fn whole(n: i128) -> Result<Option<Value>, Arith>
    ensures { as_answer result ≡ within (Gives (value.I n)) }
{
    if -9223372036854775808 <= n && n <= 9223372036854775807 {
        Ok(Some(Value::I(n as i64)))
    } else {
        Err(Arith::Range)
    }
}

fn product(a: i64, b: i64) -> i128
    ensures { result ≡ a *ℤ b }
{
    a as i128 * b as i128
}

fn float_of_int(n: i64) -> Result<Option<Value>, Arith>
    ensures { as_answer result ≡ operate op.FloatOfInt (value.I n ∷ []) }
{
    float(Frac::of_int(n))
}

fn tested(b: bool) -> Result<Option<Value>, Arith>
    ensures { as_answer result ≡ Gives (value.B b) }
{
    Ok(Some(Value::B(b)))
}

fn on_floats(op: Op, a: Frac, b: Frac) -> Result<Option<Value>, Arith>
    ensures { as_answer result ≡ operate op (value.F a ∷ value.F b ∷ []) }
{
    match op {
        Op::AddFloat => float(a.add(b)),
        Op::SubFloat => float(a.sub(b)),
        Op::MulFloat => float(a.mul(b)),
        Op::DivFloat => float(a.div(b)),
        Op::EqFloat => tested(a.cmp(b).is_eq()),
        Op::NeFloat => tested(a.cmp(b).is_ne()),
        Op::LtFloat => tested(a.cmp(b).is_lt()),
        Op::LeFloat => tested(a.cmp(b).is_le()),
        Op::GtFloat => tested(a.cmp(b).is_gt()),
        Op::GeFloat => tested(a.cmp(b).is_ge()),
        _ => Ok(None),
    }
}

fn on_ints(op: Op, a: i64, b: i64) -> Result<Option<Value>, Arith>
    ensures { as_answer result ≡ operate op (value.I a ∷ value.I b ∷ []) }
{
    match op {
        Op::AddInt => whole(a as i128 + b as i128),
        Op::SubInt => whole(a as i128 - b as i128),
        Op::MulInt => whole(product(a, b)),
        Op::DivInt => quotient(a, b),
        Op::ModInt => remainder(a, b),
        Op::EqInt => tested(a == b),
        Op::NeInt => tested(a != b),
        Op::LtInt => tested(a < b),
        Op::LeInt => tested(a <= b),
        Op::GtInt => tested(a > b),
        Op::GeInt => tested(a >= b),
        _ => Ok(None),
    }
}

fn quotient(a: i64, b: i64) -> Result<Option<Value>, Arith>
    ensures { as_answer result ≡ operate op.DivInt (value.I a ∷ value.I b ∷ []) }
{
    if b == 0 {
        Err(Arith::Division)
    } else {
        whole(divided(a, b))
    }
}

fn divided(a: i64, b: i64) -> i128
    requires { b ≡ pos 0 → ⊥ }
    ensures { result ≡ int_div a b }
{
    a as i128 / b as i128
}

fn remainder(a: i64, b: i64) -> Result<Option<Value>, Arith>
    ensures { as_answer result ≡ operate op.ModInt (value.I a ∷ value.I b ∷ []) }
{
    if b == 0 {
        Err(Arith::Division)
    } else {
        whole(rest_of(a, b))
    }
}

fn rest_of(a: i64, b: i64) -> i128
    requires { b ≡ pos 0 → ⊥ }
    ensures { result ≡ int_rem a b }
{
    a as i128 % b as i128
}

fn on_bools(op: Op, a: bool, b: bool) -> Option<Value>
    ensures { as_answer (Ok result) ≡ operate op (value.B a ∷ value.B b ∷ []) }
{
    match op {
        Op::EqBool => Some(Value::B(a == b)),
        Op::NeBool => Some(Value::B(a != b)),
        Op::LtBool => Some(Value::B(!a && b)),
        Op::LeBool => Some(Value::B(!a || b)),
        Op::GtBool => Some(Value::B(a && !b)),
        Op::GeBool => Some(Value::B(a || !b)),
        Op::And => Some(Value::B(a && b)),
        Op::Or => Some(Value::B(a || b)),
        _ => None,
    }
}

pub(crate) fn two(op: Op, a: Option<Value>, b: Option<Value>) -> Result<Option<Value>, Arith>
    ensures { as_answer result ≡ by_values (operate op) (both a b) }
{
    match a {
        Some(a) => match b {
            Some(b) => on_two(op, a, b),
            None => Ok(None),
        },
        None => Ok(None),
    }
}

pub(crate) fn one(op: Op, a: Option<Value>) -> Result<Option<Value>, Arith>
    ensures { as_answer result ≡ by_values (operate op) (alone a) }
{
    match a {
        Some(a) => on_one(op, a),
        None => Ok(None),
    }
}

pub(crate) fn as_float(v: Option<Value>) -> Option<Frac>
    ensures { result ≡ float_of v }
{
    match v {
        Some(v) => match v {
            Value::F(f) => Some(f),
            _ => None,
        },
        None => None,
    }
}

/// A slope, by what its register holds.
pub(crate) fn slope(v: Option<Value>) -> Frac
    ensures { result ≡ slope_of v }
{
    match as_float(v) {
        Some(slope) => slope,
        None => Frac::zero(),
    }
}

fn as_int(v: Option<Value>) -> Option<i64>
    ensures { result ≡ int_of v }
{
    match v {
        Some(v) => match v {
            Value::I(n) => Some(n),
            _ => None,
        },
        None => None,
    }
}

/// The truth value that a register holds.
pub(crate) fn truth(v: Option<Value>) -> Option<bool>
    ensures { result ≡ bool_of v }
{
    match v {
        Some(v) => match v {
            Value::B(b) => Some(b),
            _ => None,
        },
        None => None,
    }
}

/// It holds `true`.
pub(crate) fn truth_of(v: Option<Value>) -> bool
    ensures { result ≡ holds v }
{
    match truth(v) {
        Some(b) => b,
        None => false,
    }
}

pub(crate) fn sub_floats(a: Option<Value>, b: Option<Value>) -> Result<Option<Value>, Arith>
    ensures { as_answer result ≡ by_values (operate op.SubFloat) (both a b) }
{
    match as_float(a) {
        Some(a) => match as_float(b) {
            Some(b) => float(a.sub(b)),
            None => Ok(None),
        },
        None => Ok(None),
    }
}

pub(crate) fn neg_float(a: Option<Value>) -> Option<Value>
    ensures { result ≡ answered (by_values (operate op.NegFloat) (alone a)) }
{
    match as_float(a) {
        Some(a) => Some(Value::F(a.neg())),
        None => None,
    }
}

pub(crate) fn eq_ints(a: Option<Value>, b: Option<Value>) -> Option<Value>
    ensures { result ≡ answered (by_values (operate op.EqInt) (both a b)) }
{
    match as_int(a) {
        Some(a) => match as_int(b) {
            Some(b) => Some(Value::B(a == b)),
            None => None,
        },
        None => None,
    }
}

pub(crate) fn or(a: Option<Value>, b: Option<Value>) -> Option<Value>
    ensures { result ≡ answered (by_values (operate op.Or) (both a b)) }
{
    match truth(a) {
        Some(a) => match truth(b) {
            Some(b) => Some(Value::B(a || b)),
            None => None,
        },
        None => None,
    }
}

pub(crate) fn not(a: Option<Value>) -> Option<Value>
    ensures { result ≡ answered (by_values (operate op.Not) (alone a)) }
{
    match truth(a) {
        Some(a) => Some(Value::B(!a)),
        None => None,
    }
}
