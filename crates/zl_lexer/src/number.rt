ghost use Rattle.std.specs.Prelude.{◌≡◌, ◌<◌, ◌≤◌, ◌^◌, length, true, IfSome};
ghost use Rattle.std.specs.List.{prefix_len};
ghost use Rattle.std.specs.Char.{is_ascii_digit};
ghost use Rattle.std.specs.Str.{chars};
ghost use Rattle.zl_value.specs.Decimal.{is_digits};
ghost use Rattle.zl_lexer.specs.Facts.{IsKind};
ghost use Rattle.zl_lexer.specs.Lengths.{with_mark, signed_len, exponent_len, fraction_len};
ghost use Rattle.zl_lexer.specs.Numbers.{int_kind, float_kind};

use crate::TokenKind;
use crate::character::{skip, split};
use zl_value::read_decimal;

/// How many digits stand at the front.
pub(crate) fn digits_len(text: &str) -> usize
    ensures value { result ≡ prefix_len is_ascii_digit (chars text.now) }
    ensures within { result ≤ length text.now }
{
    text.chars().take_while(|c| c.is_ascii_digit()).count()
}

fn with_mark(len: usize) -> usize
    requires { len < 2 ^ 63 }
    ensures { result ≡ with_mark len }
{
    if len == 0 { 0 } else { len + 1 }
}

fn signed_len(text: &str) -> usize
    ensures value { result ≡ signed_len (chars text.now) }
    ensures within { result ≤ length text.now }
{
    match split(text) {
        Some(('+' | '-', digits)) => with_mark(digits_len(digits)),
        Some(_) => digits_len(text),
        None => 0,
    }
}

fn exponent_len(text: &str) -> usize
    ensures value { result ≡ exponent_len (chars text.now) }
    ensures within { result ≤ length text.now }
{
    match split(text) {
        Some(('e' | 'E', rest)) => with_mark(signed_len(rest)),
        _ => 0,
    }
}

/// How many characters stand behind the first digits that make them a number with a point or an exponent.
pub(crate) fn fraction_len(text: &str) -> usize
    ensures { result ≡ fraction_len (chars text.now) }
{
    match split(text) {
        Some(('.', rest)) => {
            let digits = digits_len(rest);
            1 + digits + exponent_len(skip(rest, digits))
        }
        _ => exponent_len(text),
    }
}

/// The whole number of these digits, unless it is past the greatest one.
pub(crate) fn int_kind(digits: &[u8]) -> Option<TokenKind>
    requires { is_digits digits.now ≡ true }
    ensures value { result ≡ int_kind digits.now }
    ensures kept { IfSome result (IsKind 0) }
{
    let mut number: u128 = 0;
    for digit in digits {
        number = number * 10 + (*digit as u128 - b'0' as u128);
        if number > i64::MAX as u128 {
            return None;
        }
    }
    Some(TokenKind::Int(number as i64))
}

/// The number that a text with a point or an exponent says, unless it is refused.
pub(crate) fn float_kind(text: &str) -> Option<TokenKind>
    ensures value { result ≡ float_kind text.now }
    ensures kept { IfSome result (IsKind 0) }
{
    match read_decimal(text.as_bytes()) {
        Some(number) => Some(TokenKind::Float(number)),
        None => None,
    }
}
