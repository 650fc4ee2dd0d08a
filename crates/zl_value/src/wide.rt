ghost use Rattle.std.specs.Prelude.{◌≡◌, ◌*◌, ◌<◌, ◌≤◌, ◌^◌, ◌-ℤ◌, ◌*ℤ◌, pos, true, false, unsigned_abs, IfSome};
ghost use Rattle.zl_value.specs.Decimal.{if_fits};
ghost use Rattle.zl_value.specs.Fraction.{IsFrac, IsReduced, sub, neg, div, compare, greatest};
ghost use Rattle.zl_value.specs.Order.{below};
ghost use Rattle.zl_value.specs.Times.{nought};

use crate::Frac;
use crate::frac::{product, reduce};
use crate::quotients::compare_quotients;
use std::cmp::Ordering;
use std::marker::Model;

/// A fraction that isn't negative and may be out of the width: a span of time, in the model's unit.
#[derive(Debug, Drop)]
pub struct Wide {
    num: u128,
    den: u128,
}

impl Model for Wide {
    ghost use Rattle.std.specs.Prelude.{◌<◌, ◌^◌, pos};
    ghost use Rattle.zl_value.specs.Fraction.{Fraction, reduced};

    ghost Value = { Fraction };

    ghost view = { λ w. reduced (pos w.num) w.den };

    ghost invariant = { λ w. (0 < w.den) × (w.num < 2 ^ 127) × (w.den < 2 ^ 127) };
}

impl Wide {
    /// The time after which a line that begins at `v`, below zero, and rises by `a` in a unit of time is zero: `-v/a`.
    pub fn ratio(v: Frac, a: Frac) -> Wide
        requires negative { below v nought ≡ true }
        requires positive { below nought a ≡ true }
        ensures value { result ≡ div (neg v) a }
        ensures kept { IsReduced result }
    {
        Wide {
            num: numerator_size(v) * denominator(a),
            den: denominator(v) * numerator_size(a),
        }
    }

    /// The time from `b` to `a`, which isn't before `b`.
    pub fn difference(a: Frac, b: Frac) -> Wide
        requires order { below a b ≡ false }
        ensures value { result ≡ sub a b }
        ensures positive { below nought result ≡ below b a }
        ensures kept { IsReduced result }
    {
        Wide {
            num: difference_over_product(a, b),
            den: denominator(a) * denominator(b),
        }
    }

    /// The order of two spans.
    pub fn cmp(&self, other: &Wide) -> Ordering
        ensures value { result ≡ compare self.now other.now }
        ensures kept { IsReduced self.now }
        ensures kept_other { IsReduced other.now }
    {
        compare_quotients(self.num, self.den, other.num, other.den)
    }

    /// The span as a number of the program. `None` where it isn't in the width.
    pub fn narrow(&self) -> Option<Frac>
        ensures value { result ≡ if_fits self.now }
        ensures kept { IfSome result IsFrac }
    {
        reduce(signed(self.num), self.den).ok()
    }
}

/// The numerator without its sign.
fn numerator_size(a: Frac) -> u128
    ensures value { result ≡ unsigned_abs a.num }
    ensures bound { result ≤ greatest }
{
    a.num().unsigned_abs() as u128
}

/// The denominator.
fn denominator(a: Frac) -> u128
    ensures value { result ≡ a.den }
    ensures above { 0 < result }
    ensures bound { result ≤ greatest }
{
    a.den().unsigned_abs() as u128
}

/// The numerator of the difference of two fractions over the product of their denominators.
fn difference_over_product(a: Frac, b: Frac) -> u128
    requires { below a b ≡ false }
    ensures value { pos result ≡ a.num *ℤ pos b.den -ℤ b.num *ℤ pos a.den }
    ensures bound { result ≤ 2 * (greatest * greatest) }
{
    let difference = product(a.num(), b.den()) - product(b.num(), a.den());
    difference.unsigned_abs()
}

fn signed(number: u128) -> i128
    requires { number < 2 ^ 127 }
    ensures { result ≡ pos number }
{
    number as i128
}
