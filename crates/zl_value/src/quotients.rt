ghost use Rattle.std.specs.Prelude.{◌≡◌, ◌*◌, ◌^◌, ◌<◌, nat_lt};
ghost use Rattle.std.specs.Ordering.{nat_cmp};

use std::cmp::Ordering;

/// The order of `a / b` and `c / d`, by cross products where they have 128 bits.
pub(crate) fn compare_quotients(a: u128, b: u128, c: u128, d: u128) -> Ordering
    requires first { 0 < b }
    requires second { 0 < d }
    ensures { result ≡ nat_cmp (a * d) (c * b) }
{
    if is_short(a) && is_short(b) && is_short(c) && is_short(d) {
        return (a * d).cmp(&(c * b));
    }
    compare_remainders(a, b, c, d)
}

fn is_short(number: u128) -> bool
    ensures { result ≡ nat_lt number (2 ^ 64) }
{
    number <= u64::MAX as u128
}

/// The order of `a / b` and `c / d`: that of the whole parts or, where these are equal, the opposite of the order of the
/// inverses of what is left.
#[tactic(auto, using(crate::proofs::QuotientOrder::different_quotients, crate::proofs::QuotientOrder::same_quotients, crate::proofs::QuotientOrder::no_remainder, crate::proofs::QuotientOrder::turned))]
fn compare_remainders(a: u128, b: u128, c: u128, d: u128) -> Ordering
    requires first { 0 < b }
    requires second { 0 < d }
    ensures { result ≡ nat_cmp (a * d) (c * b) }
{
    if a / b != c / d {
        return (a / b).cmp(&(c / d));
    }
    let rest = a % b;
    let other = c % d;
    if rest == 0 || other == 0 {
        return rest.cmp(&other);
    }
    compare_remainders(d, other, b, rest)
}
