ghost use Rattle.std.specs.Prelude.{◌≡◌, ℕ, pos, ◌-ℤ◌, ◌≤◌, ◌==◌, ◌&&◌, not, length, min, Some, None, if◌then◌else◌};
ghost use Rattle.std.specs.Char.{is_ascii_digit};
ghost use Rattle.std.specs.List.{prefix_len};
ghost use Rattle.std.specs.Str.{bytes_eq};
ghost use Rattle.std.specs.Str.Parse.{digits_value};
ghost use Rattle.zl_value.specs.Decimal.{is_digits};
ghost use Rattle.zl_value.specs.Fraction.{neg, whole, fits};
ghost use Rattle.zl_value.specs.Operators.{int_fits};
ghost use Rattle.zl_value.specs.Significand.{most};
ghost use Rattle.zl_value.specs.declared.value.Ty.TheVariants.{Bool as BoolTy, Int as IntTy, Float as FloatTy};
ghost use Rattle.zl_value.specs.declared.value.Value.TheVariants.{F};
ghost use Rattle.zl_script.specs.Numbers.{time_of, if_allowed, step_count, whole_literal, fraction_literal, is_divided, is_ratio, number_literal, signed_literal, literal_of, value_for};

use crate::literal::Literal;
use zl_value::{Frac, Ty, Value, is_decimal, read_decimal, read_ratio, read_unsigned};

/// The most steps that a script may say.
const MOST_STEPS: u64 = 1_000_000;

/// A time: digits, digits over digits, or a number with a point or an exponent, in the width of a float.
pub(crate) fn read_time(text: &[u8]) -> Option<Frac>
    ensures { result ≡ time_of text.now }
{
    match read_ratio(text) {
        Some(time) => Some(time),
        None => read_decimal(text),
    }
}

/// How many steps: digits, of a number from 1 to 1000000.
pub(crate) fn read_step_count(text: &[u8]) -> Option<u32>
    ensures { result ≡ step_count text.now }
{
    match read_unsigned(text) {
        Some(count) => if_allowed(count),
        None => None,
    }
}

fn if_allowed(count: u64) -> Option<u32>
    ensures { (n : ℕ) → count ≡ min n most → result ≡ if_allowed n }
{
    if count < 1 || count > MOST_STEPS {
        return None;
    }
    Some(count as u32)
}

/// A whole number with its sign, where it has 64 bits.
fn whole_literal(negative: bool, size: u64) -> Literal
    ensures { (n : ℕ) → size ≡ min n most → result ≡ whole_literal negative n }
{
    if negative {
        Literal::Whole(negated(size))
    } else {
        Literal::Whole(positive(size))
    }
}

fn positive(size: u64) -> Option<i64>
    ensures { (n : ℕ) → size ≡ min n most → result ≡ (if int_fits (pos n) then Some (pos n) else None) }
{
    if size > 9223372036854775807 {
        return None;
    }
    Some(size as i64)
}

fn negated(size: u64) -> Option<i64>
    ensures { (n : ℕ) → size ≡ min n most → result ≡ (if int_fits (pos 0 -ℤ pos n) then Some (pos 0 -ℤ pos n) else None) }
{
    if size > 9223372036854775808 {
        return None;
    }
    Some((0 - size as i128) as i64)
}

fn with_sign(negative: bool, number: Frac) -> Frac
    ensures { result ≡ (if negative then neg number else number) }
{
    if negative { number.neg() } else { number }
}

fn fraction_literal(negative: bool, number: Option<Frac>) -> Literal
    ensures { result ≡ fraction_literal negative number }
{
    match number {
        Some(number) => Literal::Fractional(Some(with_sign(negative, number))),
        None => Literal::Fractional(None),
    }
}

/// What stands behind the first digits is `/` and digits, and their number isn't zero.
fn is_divided(text: &[u8]) -> bool
    ensures { result ≡ is_divided text.now }
{
    match text {
        [b'/', digits @ ..] => is_some_number(digits),
        _ => false,
    }
}

fn is_some_number(digits: &[u8]) -> bool
    ensures { result ≡ (is_digits digits.now && not (digits_value 10 digits.now == 0)) }
{
    match read_unsigned(digits) {
        Some(number) => number != 0,
        None => false,
    }
}

fn digits_len(text: &[u8]) -> usize
    ensures value { result ≡ prefix_len is_ascii_digit text.now }
    ensures within { result ≤ length text.now }
{
    text.iter().take_while(|c| c.is_ascii_digit()).count()
}

/// Digits over digits, where the divisor isn't zero.
fn is_ratio(text: &[u8]) -> bool
    ensures { result ≡ is_ratio text.now }
{
    let (digits, behind) = text.split_at(digits_len(text));
    read_unsigned(digits).is_some() && is_divided(behind)
}

/// A number without its sign: digits, digits over digits, or a number with a point or an exponent.
fn number_literal(negative: bool, text: &[u8]) -> Option<Literal>
    ensures { result ≡ number_literal negative text.now }
{
    if let Some(size) = read_unsigned(text) {
        return Some(whole_literal(negative, size));
    }
    if is_ratio(text) {
        return Some(fraction_literal(negative, read_ratio(text)));
    }
    if is_decimal(text) {
        return Some(fraction_literal(negative, read_decimal(text)));
    }
    None
}

fn signed_literal(text: &[u8]) -> Option<Literal>
    ensures { result ≡ signed_literal text.now }
{
    match text {
        [] => None,
        [b'-', number @ ..] => number_literal(true, number),
        number => number_literal(false, number),
    }
}

fn is_word(text: &[u8], word: &[u8]) -> bool
    ensures { result ≡ bytes_eq text.now word.now }
{
    text == word
}

/// What the word of a value says. `None` where it is no value's word, a divisor of zero included.
#[tactic(auto, unfolding(crate::specs::Numbers::literal_of))]
pub(crate) fn read_literal(text: &[u8]) -> Option<Literal>
    ensures { result ≡ literal_of text.now }
{
    if is_word(text, b"true") {
        return Some(Literal::Truth(true));
    }
    if is_word(text, b"false") {
        return Some(Literal::Truth(false));
    }
    signed_literal(text)
}

fn whole_float(number: i64) -> Option<Value>
    ensures { result ≡ (if fits (whole number) then Some (F (whole number)) else None) }
{
    match Frac::of_int(number) {
        Ok(number) => Some(Value::F(number)),
        Err(_) => None,
    }
}

/// The value that a word gives to an input of a type, where the input takes it.
pub(crate) fn value_for(ty: Ty, literal: Literal) -> Option<Value>
    ensures { result ≡ value_for ty literal }
{
    match ty {
        Ty::Bool => bool_for(literal),
        Ty::Int => int_for(literal),
        Ty::Float => float_for(literal),
        Ty::Zero => None,
    }
}

fn bool_for(literal: Literal) -> Option<Value>
    ensures { result ≡ value_for BoolTy literal }
{
    match literal {
        Literal::Truth(b) => Some(Value::B(b)),
        _ => None,
    }
}

fn int_for(literal: Literal) -> Option<Value>
    ensures { result ≡ value_for IntTy literal }
{
    match literal {
        Literal::Whole(Some(n)) => Some(Value::I(n)),
        _ => None,
    }
}

fn float_for(literal: Literal) -> Option<Value>
    ensures { result ≡ value_for FloatTy literal }
{
    match literal {
        Literal::Truth(_) => None,
        Literal::Whole(None) => None,
        Literal::Whole(Some(n)) => whole_float(n),
        Literal::Fractional(None) => None,
        Literal::Fractional(Some(f)) => Some(Value::F(f)),
    }
}
