ghost use Rattle.std.specs.Prelude.{◌≡◌, ◌<◌, ◌*ℤ◌, int_div, int_rem, unsigned_abs, [], ◌∷◌};
ghost use Rattle.zl_value.specs.Operators.{operate, within, Gives};
ghost use Rattle.zl_value.specs.IntOperators.{operator_of, answer_of};
ghost use Rattle.zl_value.specs.declared.op.Op.TheVariants.{DivInt, ModInt, NegInt};
ghost use Rattle.zl_value.specs.declared.value.Value.TheVariants.{I};

use crate::Arith;

/// An operator on two ints, which are the whole numbers from -9223372036854775808 to 9223372036854775807.
#[derive(Clone, Copy, Debug, PartialEq, Eq)]
pub enum IntOp {
    Add,
    Sub,
    Mul,
    /// The quotient without its fraction, rounded towards zero.
    Div,
    /// The rest of that quotient, with the sign of the left operand.
    Mod,
}

/// What the operator makes of `a` and `b`. `Division` where the operator is `Div` or `Mod` and `b` is 0, and `Range`
/// where the exact result has more than 64 bits. The rest of the least int by -1 is 0, and its quotient `Range`. This
/// project's own, after Zélus. It takes no memory.
pub fn int_op(op: IntOp, a: i64, b: i64) -> Result<i64, Arith>
    ensures { answer_of result ≡ operate (operator_of op) (I a ∷ I b ∷ []) }
{
    match op {
        IntOp::Add => narrow(a as i128 + b as i128),
        IntOp::Sub => narrow(a as i128 - b as i128),
        IntOp::Mul => narrow(product(a, b)),
        IntOp::Div => quotient(a, b),
        IntOp::Mod => remainder(a, b),
    }
}

/// The negative. `Range` at the least int alone. This project's own, after Zélus. It takes no memory.
pub fn int_neg(a: i64) -> Result<i64, Arith>
    ensures { answer_of result ≡ operate NegInt (I a ∷ []) }
{
    narrow(-(a as i128))
}

fn quotient(a: i64, b: i64) -> Result<i64, Arith>
    ensures { answer_of result ≡ operate DivInt (I a ∷ I b ∷ []) }
{
    if b == 0 {
        return Err(Arith::Division);
    }
    narrow(wide_quotient(a, b))
}

fn remainder(a: i64, b: i64) -> Result<i64, Arith>
    ensures { answer_of result ≡ operate ModInt (I a ∷ I b ∷ []) }
{
    if b == 0 {
        return Err(Arith::Division);
    }
    narrow(wide_remainder(a, b))
}

/// The number, if it is an int.
fn narrow(number: i128) -> Result<i64, Arith>
    ensures { answer_of result ≡ within (Gives (I number)) }
{
    match i64::try_from(number) {
        Ok(word) => Ok(word),
        Err(_) => Err(Arith::Range),
    }
}

fn product(a: i64, b: i64) -> i128
    ensures { result ≡ a *ℤ b }
{
    a as i128 * b as i128
}

fn wide_quotient(a: i64, b: i64) -> i128
    requires { 0 < unsigned_abs b }
    ensures { result ≡ int_div a b }
{
    a as i128 / b as i128
}

fn wide_remainder(a: i64, b: i64) -> i128
    requires { 0 < unsigned_abs b }
    ensures { result ≡ int_rem a b }
{
    a as i128 % b as i128
}
