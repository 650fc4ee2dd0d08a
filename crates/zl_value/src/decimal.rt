ghost use Rattle.std.specs.Prelude.{◌≡◌, ℕ, ℤ, List, is_some, ◌+◌, ◌*◌, ◌^◌, ◌<◌, ◌≤◌, ◌++◌, pos, ◌+ℤ◌, ◌-ℤ◌, unsigned_abs, length, min, option_map, option_and_then, IfSome};
ghost use Rattle.std.specs.List.{prefix_len};
ghost use Rattle.std.specs.Char.{is_ascii_digit};
ghost use Rattle.std.specs.Str.Parse.{AllDigits, digits_value};
ghost use Rattle.zl_value.specs.Fraction.{IsFrac, whole, reduced};
ghost use Rattle.zl_value.specs.Decimal.{decimal_value, float_parts, accepted, if_fits, scaled_parts, run, after_run, behind_digits, behind_point};
ghost use Rattle.zl_value.specs.Decimal.{unsigned_number, signed_number, exponent_of};
ghost use Rattle.zl_value.specs.Significand.{most, counted};

use crate::Frac;
use crate::significand::{LIMIT, Significand};

/// The number of a text: digits, `.`, perhaps more digits, and an optional exponent; or digits and an exponent. An
/// exponent is `e` or `E`, an optional sign, and digits. `None` where the text isn't of this form or its number is
/// refused. With the zeros at its end in the power of ten, a number other than 0 has at most 38 digits, its power of
/// ten lies between -38 and 18, and the fraction is in the width. This project's own. It takes no memory.
pub fn read_decimal(text: &[u8]) -> Option<Frac>
    ensures value { result ≡ decimal_value text.now }
    ensures kept { IfSome result IsFrac }
{
    let (before, rest) = split_digits(text);
    if before.is_empty() {
        return None;
    }
    read_behind_digits(before, rest)
}

/// Whether a text has the form that `read_decimal` reads, be its number accepted or not. It takes no memory.
pub fn is_decimal(text: &[u8]) -> bool
    ensures { result ≡ is_some (float_parts text.now) }
{
    let (before, rest) = split_digits(text);
    !before.is_empty() && is_behind_digits(rest)
}

/// Whether this behind digits makes a number with a point or an exponent.
fn is_behind_digits(text: &[u8]) -> bool
    ensures { (before : List ℕ) → result ≡ is_some (behind_digits before text.now) }
{
    match text {
        [] => false,
        [b'.', behind @ ..] => is_behind_point(behind),
        exponent => is_exponent(exponent),
    }
}

fn is_behind_point(text: &[u8]) -> bool
    ensures { (before : List ℕ) → result ≡ is_some (behind_point before (run text.now) (after_run text.now)) }
{
    let (_, exponent) = split_digits(text);
    exponent.is_empty() || is_exponent(exponent)
}

fn is_exponent(text: &[u8]) -> bool
    ensures { result ≡ is_some (exponent_of text.now) }
{
    read_exponent(text).is_some()
}

fn read_behind_digits(before: &[u8], text: &[u8]) -> Option<Frac>
    requires { AllDigits 10 before.now }
    ensures value { result ≡ option_and_then (λ p. accepted (scaled_parts p)) (behind_digits before.now text.now) }
    ensures kept { IfSome result IsFrac }
{
    match text {
        [] => None,
        [b'.', text @ ..] => read_behind_point(before, text),
        exponent => read_with_exponent(before, &[], exponent),
    }
}

fn read_behind_point(before: &[u8], text: &[u8]) -> Option<Frac>
    requires { AllDigits 10 before.now }
    ensures value { result ≡ option_and_then (λ p. accepted (scaled_parts p))
        (behind_point before.now (run text.now) (after_run text.now)) }
    ensures kept { IfSome result IsFrac }
{
    let (behind, exponent) = split_digits(text);
    if exponent.is_empty() {
        return read_parts(before, behind, 0);
    }
    read_with_exponent(before, behind, exponent)
}

fn read_with_exponent(before: &[u8], behind: &[u8], exponent: &[u8]) -> Option<Frac>
    requires before { AllDigits 10 before.now }
    requires behind { AllDigits 10 behind.now }
    ensures value { result ≡ option_and_then (λ p. accepted (scaled_parts p))
        (option_map (λ e. record { digits = before.now ++ behind.now; behind = length behind.now; exponent = e })
        (exponent_of exponent.now)) }
    ensures kept { IfSome result IsFrac }
{
    read_parts(before, behind, read_exponent(exponent)?)
}

/// The digits at the front of a text, and what stands behind them.
fn split_digits(text: &[u8]) -> (&[u8], &[u8])
    ensures digits { result.0.now ≡ run text.now }
    ensures behind { result.1.now ≡ after_run text.now }
    ensures all { AllDigits 10 result.0.now }
{
    text.split_at(digit_count(text))
}

/// How many digits stand at the front of a text.
fn digit_count(text: &[u8]) -> usize
    ensures { result ≡ prefix_len is_ascii_digit text.now }
{
    text.iter().take_while(|c| c.is_ascii_digit()).count()
}

/// The number of digits, or the greatest u64 where it is greater.
fn counted_value(digits: &[u8]) -> u64
    requires { AllDigits 10 digits.now }
    ensures { result ≡ min (digits_value 10 digits.now) most }
{
    let mut number: u64 = 0;
    for digit in digits {
        number = number
            .saturating_mul(10)
            .saturating_add(u64::from(*digit - b'0'));
    }
    number
}

/// The number of a text of one or more digits, or the greatest u64 where it is greater. `None` where the text isn't of
/// this form. It takes no memory.
pub fn read_unsigned(text: &[u8]) -> Option<u64>
    ensures { result ≡ option_map (λ n. min n most) (unsigned_number text.now) }
{
    if text.is_empty() || digit_count(text) < text.len() {
        return None;
    }
    Some(counted_value(text))
}

fn read_signed(text: &[u8]) -> Option<i128>
    ensures value { result ≡ option_map counted (signed_number text.now) }
    ensures bound { IfSome result (λ e. unsigned_abs e ≤ most) }
{
    match text {
        [b'-', digits @ ..] => Some(-(read_unsigned(digits)? as i128)),
        [b'+', digits @ ..] => Some(read_unsigned(digits)? as i128),
        digits => Some(read_unsigned(digits)? as i128),
    }
}

fn read_exponent(text: &[u8]) -> Option<i128>
    ensures value { result ≡ option_map counted (exponent_of text.now) }
    ensures bound { IfSome result (λ e. unsigned_abs e ≤ most) }
{
    match text {
        [b'e' | b'E', exponent @ ..] => read_signed(exponent),
        _ => None,
    }
}

/// The number of the digits before and behind the point, and of an exponent as it is counted.
fn read_parts(before: &[u8], behind: &[u8], exponent: i128) -> Option<Frac>
    requires before { AllDigits 10 before.now }
    requires behind { AllDigits 10 behind.now }
    requires exponent { unsigned_abs exponent ≤ most }
    ensures value { (x : ℤ) → counted x ≡ exponent → result ≡ accepted (scaled_parts (record {
      digits = before.now ++ behind.now;
      behind = length behind.now;
      exponent = x;
    })) }
    ensures kept { IfSome result IsFrac }
{
    let significand = Significand::new().with_digits(before)?.with_digits(behind)?;
    scaled(
        significand.number,
        power_of(exponent, behind.len(), significand.zeros),
    )
}

fn power_of(exponent: i128, behind: usize, zeros: usize) -> i128
    requires { unsigned_abs exponent ≤ most }
    ensures { result ≡ exponent -ℤ pos behind +ℤ pos zeros }
{
    exponent - behind as i128 + zeros as i128
}

/// `number` times ten to the power `power`, if it is accepted.
fn scaled(number: u128, power: i128) -> Option<Frac>
    ensures value { result ≡ accepted (record { number = number; power = power }) }
    ensures kept { IfSome result IsFrac }
{
    if number == 0 {
        return Frac::of_int(0).ok();
    }
    if number >= LIMIT || power < -38 || power > 18 {
        return None;
    }
    if power < 0 {
        over_ten_to(number, (-power) as u32)
    } else {
        times_ten_to(number, power as u32)
    }
}

fn times_ten_to(number: u128, exponent: u32) -> Option<Frac>
    requires { exponent ≤ 18 }
    ensures value { result ≡ if_fits (whole (pos (number * 10 ^ exponent))) }
    ensures kept { IfSome result IsFrac }
{
    match i64::try_from(number.saturating_mul(10u128.pow(exponent))) {
        Ok(product) => Frac::of_int(product).ok(),
        Err(_) => None,
    }
}

fn over_ten_to(number: u128, exponent: u32) -> Option<Frac>
    requires number { number < 10 ^ 38 }
    requires exponent { exponent ≤ 38 }
    ensures value { result ≡ if_fits (reduced (pos number) (10 ^ exponent)) }
    ensures kept { IfSome result IsFrac }
{
    Frac::make(number as i128, 10u128.pow(exponent) as i128).ok()
}
