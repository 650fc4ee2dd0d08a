ghost use Rattle.std.specs.Int.{trailing_zeros, w64};
ghost use Rattle.std.specs.Prelude.{◌≡◌, ◌<◌, ◌*◌, ◌%◌, ◌^◌};
ghost use Rattle.zl_value.specs.Fraction.{gcd};

/// The greatest common divisor.
#[tactic(auto, using(crate::proofs::Divisors::gcd_of_zero, crate::proofs::Odd::gcd_from_zero))]
pub(crate) fn gcd_of_words(a: u64, b: u64) -> u64
    ensures { result ≡ gcd a b }
{
    if a == 0 {
        return b;
    }
    if b == 0 {
        return a;
    }
    let shared = a.trailing_zeros().min(b.trailing_zeros());
    gcd_of_odd(odd_part(a), odd_part(b)) << shared
}

/// The greatest common divisor of two odd numbers, by differences in place of divisions, which are slow.
#[tactic(auto, using(crate::proofs::Odd::gcd_same))]
fn gcd_of_odd(a: u64, b: u64) -> u64
    requires first { a % 2 ≡ 1 }
    requires second { b % 2 ≡ 1 }
    ensures { result ≡ gcd a b }
{
    let mut x = a;
    let mut y = b;
    while x != y {
        let difference = x.abs_diff(y);
        x = x.min(y);
        y = odd_part(difference);
    }
    x
}

/// The number without its factors 2.
#[tactic(auto, using(crate::proofs::Odd::odd_part_is, crate::proofs::Odd::odd_part_odd))]
fn odd_part(n: u64) -> u64
    requires { 0 < n }
    ensures odd { result % 2 ≡ 1 }
    ensures value { n ≡ result * 2 ^ trailing_zeros w64 n }
{
    n >> n.trailing_zeros()
}

/// The greatest common divisor. It divides numbers of 128 bits only until both parts fit 64.
#[tactic(auto, using(crate::proofs::Divisors::gcd_by_remainder, crate::proofs::Divisors::gcd_of_zero))]
pub(crate) fn gcd_of_wide(a: u128, b: u128) -> u128
    ensures { result ≡ gcd a b }
{
    let mut x = a;
    let mut y = b;
    while y > u64::MAX as u128 {
        let rest = x % y;
        x = y;
        y = rest;
    }
    if y == 0 {
        return x;
    }
    gcd_of_words(y as u64, (x % y) as u64) as u128
}
