ghost use Rattle.std.specs.Prelude.{◌≡◌, ◌+ℤ◌, ◌*ℤ◌, ◌*◌, ◌<◌, ◌≤◌, ◌^◌, pos, int_div, unsigned_abs, IfOk};
ghost use Rattle.std.specs.Bool.{OnTrue};
ghost use Rattle.zl_value.specs.Fraction.{IsFrac, IsReduced, over, reduced, whole, greatest};
ghost use Rattle.zl_value.specs.Fraction.{add, sub, mul, neg, compare};
ghost use Rattle.zl_value.specs.Fraction.{fits, fitted, fitted_ratio, fitted_div};

use crate::Arith;
use crate::gcd::{gcd_of_wide, gcd_of_words};
use std::cmp::Ordering;
use std::marker::Model;

/// The greatest number of the width.
const GREATEST: u64 = 9223372036854775807;

/// A number of the program: a fraction in lowest terms whose parts are in the width, which is from
/// -9223372036854775807 to 9223372036854775807.
#[derive(Clone, Copy, Debug, PartialEq, Eq)]
pub struct Frac {
    num: i64,
    den: u64,
}

impl Model for Frac {
    ghost use Rattle.zl_value.specs.Fraction.{Fraction, IsFrac};

    ghost Value = { Fraction };

    ghost view = { λ a. record { num = a.num; den = a.den } };

    ghost invariant = { λ a. IsFrac (record { num = a.num; den = a.den }) };

    ghost inverse = { λ f. record { num = f.num; den = f.den } };
}

impl Frac {
    /// The fraction `num / den` in lowest terms. `Division` where `den` is 0, `Range` where the
    /// fraction isn't in the width.
    pub fn make(num: i128, den: i128) -> Result<Frac, Arith>
        requires num { unsigned_abs num < 2 ^ 127 }
        requires den { unsigned_abs den < 2 ^ 127 }
        ensures value { result ≡ fitted_ratio num den }
        ensures kept { IfOk result IsFrac }
    {
        if den == 0 {
            Err(Arith::Division)
        } else if den < 0 {
            reduce(-num, den.unsigned_abs())
        } else {
            reduce(num, den.unsigned_abs())
        }
    }

    /// The whole number `n`. `Range` at the least i64 alone.
    pub fn of_int(n: i64) -> Result<Frac, Arith>
        ensures value { result ≡ fitted (whole n) }
        ensures kept { IfOk result IsFrac }
    {
        if n == i64::MIN {
            return Err(Arith::Range);
        }
        Ok(Frac::of_parts(n, 1))
    }

    /// The number 0.
    pub fn zero() -> Frac
        ensures value { result ≡ whole (pos 0) }
        ensures kept { IsFrac result }
    {
        Frac::of_parts(0, 1)
    }

    /// The numerator.
    pub fn num(self) -> i64
        ensures value { result ≡ self.num }
        ensures width { unsigned_abs result ≤ greatest }
        ensures kept { IsFrac self }
    {
        self.num
    }

    /// The denominator, which is positive.
    pub fn den(self) -> i64
        ensures value { result ≡ pos self.den }
        ensures above { 0 < self.den }
        ensures width { self.den ≤ greatest }
        ensures kept { IsFrac self }
    {
        self.unsigned_den() as i64
    }

    /// The negative.
    pub fn neg(self) -> Frac
        ensures value { result ≡ neg self }
        ensures kept { IsFrac result }
    {
        Frac::of_parts(-self.num(), self.unsigned_den())
    }

    /// The order of two numbers.
    pub fn cmp(self, other: Frac) -> Ordering
        ensures { result ≡ compare self other }
    {
        product(self.num(), other.den()).cmp(&product(other.num(), self.den()))
    }

    /// The number without its fraction, so rounded towards zero.
    pub fn truncate(self) -> i64
        ensures { result ≡ int_div self.num (pos self.den) }
    {
        quotient(self.num(), self.unsigned_den())
    }

    /// The sum. `Range` where it isn't in the width.
    pub fn add(self, other: Frac) -> Result<Frac, Arith>
        ensures value { result ≡ fitted (add self other) }
        ensures kept { IfOk result IsFrac }
    {
        if other.unsigned_den() == 1 {
            return self.add_whole(other.num());
        }
        if self.unsigned_den() == 1 {
            return other.add_whole(self.num());
        }
        self.add_parts(other)
    }

    /// The difference. `Range` where it isn't in the width.
    pub fn sub(self, other: Frac) -> Result<Frac, Arith>
        ensures value { result ≡ fitted (sub self other) }
        ensures kept { IfOk result IsFrac }
    {
        self.add(other.neg())
    }

    /// The product. `Range` where it isn't in the width.
    pub fn mul(self, other: Frac) -> Result<Frac, Arith>
        ensures value { result ≡ fitted (mul self other) }
        ensures kept { IfOk result IsFrac }
    {
        reduce(
            product(self.num(), other.num()),
            self.unsigned_den() as u128 * other.unsigned_den() as u128,
        )
    }

    /// The quotient. `Division` where `other` is 0, and `Range` where the quotient isn't in the width.
    pub fn div(self, other: Frac) -> Result<Frac, Arith>
        ensures value { result ≡ fitted_div self other }
        ensures kept { IfOk result IsFrac }
    {
        Frac::make(
            product(self.num(), other.den()),
            product(self.den(), other.num()),
        )
    }

    /// The sum of two numbers that may both have a fraction.
    fn add_parts(self, other: Frac) -> Result<Frac, Arith>
        ensures value { result ≡ fitted (add self other) }
        ensures kept { IfOk result IsFrac }
    {
        if self.unsigned_den() == other.unsigned_den() {
            return reduce(sum(self.num(), other.num()), self.unsigned_den() as u128);
        }
        reduce(
            sum_over_product(self, other),
            self.unsigned_den() as u128 * other.unsigned_den() as u128,
        )
    }

    /// The sum with a whole number, which is in lowest terms as the fraction is.
    fn add_whole(self, number: i64) -> Result<Frac, Arith>
        requires { unsigned_abs number ≤ greatest }
        ensures value { result ≡ fitted (add self (whole number)) }
        ensures kept { IfOk result IsFrac }
    {
        fit(
            sum_with_product(self.num(), product(number, self.den())),
            self.unsigned_den() as u128,
        )
    }

    fn unsigned_den(self) -> u64
        ensures value { result ≡ self.den }
        ensures above { 0 < result }
        ensures width { result ≤ greatest }
    {
        self.den
    }

    /// The fraction of these parts.
    fn of_parts(num: i64, den: u64) -> Frac
        requires { IsFrac (over num den) }
        ensures { result ≡ over num den }
    {
        Frac { num, den }
    }
}

/// `num / den` in lowest terms, where that is in the width.
pub(crate) fn reduce(num: i128, den: u128) -> Result<Frac, Arith>
    requires num { unsigned_abs num < 2 ^ 127 }
    requires above { 0 < den }
    requires den { den < 2 ^ 127 }
    ensures value { result ≡ fitted (reduced num den) }
    ensures kept { IfOk result IsFrac }
{
    if den == 1 {
        fit(num, den)
    } else if is_in_width(num, den) {
        Ok(reduce_words(word(num), den as u64))
    } else {
        reduce_wide(num, den)
    }
}

/// `num / den` in lowest terms, of parts in the width.
#[tactic(auto, using(crate::proofs::Divisors::gcd_bounds))]
fn reduce_words(num: i64, den: u64) -> Frac
    requires num { unsigned_abs num ≤ greatest }
    requires above { 0 < den }
    requires den { den ≤ greatest }
    ensures { result ≡ reduced num den }
{
    let divisor = gcd_of_words(num.unsigned_abs(), den);
    if divisor == 1 {
        return Frac::of_parts(num, den);
    }
    Frac::of_parts(quotient(num, divisor), den / divisor)
}

/// `num / den` in lowest terms, where that is in the width.
#[tactic(auto, using(crate::proofs::Divisors::gcd_bounds))]
fn reduce_wide(num: i128, den: u128) -> Result<Frac, Arith>
    requires num { unsigned_abs num < 2 ^ 127 }
    requires above { 0 < den }
    requires den { den < 2 ^ 127 }
    ensures value { result ≡ fitted (reduced num den) }
    ensures kept { IfOk result IsFrac }
{
    let divisor = gcd_of_wide(num.unsigned_abs(), den);
    fit(quotient_wide(num, divisor), den / divisor)
}

/// `num / den`, which is in lowest terms, where it is in the width.
fn fit(num: i128, den: u128) -> Result<Frac, Arith>
    requires { IsReduced (over num den) }
    ensures value { result ≡ fitted (over num den) }
    ensures kept { IfOk result IsFrac }
{
    if is_in_width(num, den) {
        Ok(Frac::of_parts(word(num), den as u64))
    } else {
        Err(Arith::Range)
    }
}

#[tactic(auto, unfolding(crate::specs::Fraction::fits))]
fn is_in_width(num: i128, den: u128) -> bool
    ensures value { result ≡ fits (over num den) }
    ensures parts { OnTrue result ((unsigned_abs num ≤ greatest) × (den ≤ greatest)) }
{
    num.unsigned_abs() <= GREATEST as u128 && den <= GREATEST as u128
}

fn word(num: i128) -> i64
    requires { unsigned_abs num ≤ greatest }
    ensures { result ≡ num }
{
    num as i64
}

fn sum(a: i64, b: i64) -> i128
    requires a { unsigned_abs a ≤ greatest }
    requires b { unsigned_abs b ≤ greatest }
    ensures value { result ≡ a +ℤ b }
    ensures bound { unsigned_abs result ≤ 2 * greatest }
{
    a as i128 + b as i128
}

pub(crate) fn product(a: i64, b: i64) -> i128
    requires a { unsigned_abs a ≤ greatest }
    requires b { unsigned_abs b ≤ greatest }
    ensures value { result ≡ a *ℤ b }
    ensures bound { unsigned_abs result ≤ greatest * greatest }
{
    a as i128 * b as i128
}

fn sum_with_product(a: i64, b: i128) -> i128
    requires a { unsigned_abs a ≤ greatest }
    requires b { unsigned_abs b ≤ greatest * greatest }
    ensures value { result ≡ a +ℤ b }
    ensures bound { unsigned_abs result ≤ 2 * (greatest * greatest) }
{
    a as i128 + b
}

/// The numerator of the sum of two fractions over the product of their denominators.
fn sum_over_product(a: Frac, b: Frac) -> i128
    ensures value { result ≡ a.num *ℤ pos b.den +ℤ b.num *ℤ pos a.den }
    ensures bound { unsigned_abs result ≤ 2 * (greatest * greatest) }
{
    product(a.num(), b.den()) + product(b.num(), a.den())
}

/// `num / divisor`, rounded towards zero.
fn quotient(num: i64, divisor: u64) -> i64
    requires num { unsigned_abs num ≤ greatest }
    requires above { 0 < divisor }
    requires width { divisor ≤ greatest }
    ensures { result ≡ int_div num (pos divisor) }
{
    let size = (num.unsigned_abs() / divisor) as i64;
    if num < 0 { -size } else { size }
}

/// `num / divisor`, rounded towards zero.
fn quotient_wide(num: i128, divisor: u128) -> i128
    requires above { 0 < divisor }
    requires width { divisor < 2 ^ 127 }
    ensures { result ≡ int_div num (pos divisor) }
{
    num / divisor as i128
}
