ghost use Rattle.std.specs.Prelude.{◌≡◌, ◌<◌, ◌≤◌, ◌^◌, length, pos, IfSome};
ghost use Rattle.std.specs.Char.{is_ascii_digit};
ghost use Rattle.std.specs.List.{prefix_len};
ghost use Rattle.zl_value.specs.Fraction.{IsFrac};
ghost use Rattle.zl_value.specs.RatioText.{ratio_value, over as over_of, quotient as quotient_of, short_number as short_number_of};

use crate::Frac;

/// A number from here on is too long when a further digit follows it.
const FULL: u128 = 10_000_000_000_000_000_000_000_000_000_000_000_000;

/// The number of a text of digits that is below ten to the power 38.
fn short_number(text: &[u8]) -> Option<u128>
    ensures value { result ≡ short_number_of text.now }
    ensures short { IfSome result (λ n. n < 10 ^ 38) }
{
    if text.is_empty() {
        return None;
    }
    let mut number: u128 = 0;
    for c in text {
        if !c.is_ascii_digit() {
            return None;
        }
        if number >= FULL {
            return None;
        }
        number = number * 10 + (*c - b'0') as u128;
    }
    Some(number)
}

fn to_signed(n: u128) -> i128
    requires { n < 10 ^ 38 }
    ensures { result ≡ pos n }
{
    n as i128
}

fn quotient(num: u128, den: u128) -> Option<Frac>
    requires num { num < 10 ^ 38 }
    requires den { den < 10 ^ 38 }
    ensures value { result ≡ quotient_of num den }
    ensures kept { IfSome result IsFrac }
{
    Frac::make(to_signed(num), to_signed(den)).ok()
}

/// A number over what stands behind its digits.
fn over(num: u128, behind: &[u8]) -> Option<Frac>
    requires { num < 10 ^ 38 }
    ensures value { result ≡ over_of num behind.now }
    ensures kept { IfSome result IsFrac }
{
    match behind.split_first() {
        None => quotient(num, 1),
        Some((sign, digits)) => {
            if *sign != b'/' {
                return None;
            }
            match short_number(digits) {
                Some(den) => quotient(num, den),
                None => None,
            }
        }
    }
}

fn digits_len(text: &[u8]) -> usize
    ensures value { result ≡ prefix_len is_ascii_digit text.now }
    ensures within { result ≤ length text.now }
{
    text.iter().take_while(|c| c.is_ascii_digit()).count()
}

/// The fraction of a text `digits` or `digits/digits`. `None` where the text has neither form, where one of the
/// numbers isn't below ten to the power 38, where the divisor is 0, and where the fraction isn't in the width. The
/// form is this project's own.
#[tactic(auto, unfolding(crate::specs::RatioText::ratio_value))]
pub fn read_ratio(text: &[u8]) -> Option<Frac>
    ensures value { result ≡ ratio_value text.now }
    ensures kept { IfSome result IsFrac }
{
    let end = digits_len(text);
    match short_number(&text[..end]) {
        Some(num) => over(num, &text[end..]),
        None => None,
    }
}
