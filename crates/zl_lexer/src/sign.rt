ghost use Rattle.std.specs.Prelude.{◌≡◌, [], ◌∷◌};
ghost use Rattle.std.specs.Str.{chars};
ghost use Rattle.zl_lexer.specs.Signs.{sign_of, long_sign};

use crate::Sign;
use crate::character::split;

/// The sign of one character.
pub(crate) fn short_sign(c: char) -> Option<Sign>
    ensures { result ≡ sign_of (c ∷ []) }
{
    match c {
        '(' => Some(Sign::Open),
        ')' => Some(Sign::Close),
        ',' => Some(Sign::Comma),
        ':' => Some(Sign::Colon),
        '=' => Some(Sign::Equal),
        '<' => Some(Sign::Less),
        '>' => Some(Sign::Greater),
        '|' => Some(Sign::Bar),
        '&' => Some(Sign::Ampersand),
        '+' => Some(Sign::Plus),
        '-' => Some(Sign::Minus),
        '*' => Some(Sign::Star),
        '/' => Some(Sign::Slash),
        _ => None,
    }
}

/// The sign of two characters at the front.
pub(crate) fn long_sign(first: char, rest: &str) -> Option<Sign>
    ensures { result ≡ long_sign first (chars rest.now) }
{
    match split(rest) {
        Some((second, _)) => sign_of_two(first, second),
        None => None,
    }
}

fn sign_of_two(first: char, second: char) -> Option<Sign>
    ensures { result ≡ sign_of (first ∷ second ∷ []) }
{
    match (first, second) {
        ('<', '>') => Some(Sign::Unequal),
        ('<', '=') => Some(Sign::AtMost),
        ('>', '=') => Some(Sign::AtLeast),
        ('-', '>') => Some(Sign::Arrow),
        ('|', '|') => Some(Sign::Bars),
        ('&', '&') => Some(Sign::Ampersands),
        ('+', '.') => Some(Sign::PlusDot),
        ('-', '.') => Some(Sign::MinusDot),
        ('*', '.') => Some(Sign::StarDot),
        ('/', '.') => Some(Sign::SlashDot),
        _ => None,
    }
}
