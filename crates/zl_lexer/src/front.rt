ghost use Rattle.std.specs.Prelude.{◌≡◌, true, false, ◌∷◌};
ghost use Rattle.std.specs.Char.{is_ascii_digit};
ghost use Rattle.std.specs.Str.{chars};
ghost use Rattle.zl_lexer.specs.Names.{is_name_start};
ghost use Rattle.zl_lexer.specs.Tokens.{Begins, IsNext};

use crate::Sign;
use crate::character::{is_name_start, is_white, name_len, skip, split};
use crate::comment::{comment_len, opens_comment};
use crate::number::{digits_len, fraction_len};
use crate::sign::{long_sign, short_sign};

/// What stands at the front of a text.
#[derive(Clone, Copy)]
pub(crate) enum Front {
    End,
    /// White space or a comment of so many characters.
    Passed(usize),
    /// A token of so many characters.
    Token(usize, Form),
    /// A character that begins no token, or a comment that isn't closed.
    Bad,
}

/// The form of a token.
#[derive(Clone, Copy)]
pub(crate) enum Form {
    /// A name or a reserved word.
    Name,
    Int,
    Float,
    Sign(Sign),
}

/// What stands at the front of these characters: white space or a comment, else the longest form of a token.
pub(crate) fn front_of(text: &str) -> Front
    ensures { Begins (chars text.now) result }
{
    match split(text) {
        None => Front::End,
        Some((first, rest)) => front_from(first, rest),
    }
}

fn front_from(first: char, rest: &str) -> Front
    ensures { Begins (first ∷ chars rest.now) result }
{
    if is_white(first) {
        Front::Passed(1)
    } else if opens_comment(first, rest) {
        match comment_len(first, rest) {
            Some(len) => Front::Passed(len),
            None => Front::Bad,
        }
    } else {
        next_token(first, rest)
    }
}

#[tactic(auto, using(crate::proofs::FormLemmas::name_next))]
fn next_token(first: char, rest: &str) -> Front
    ensures { IsNext (first ∷ chars rest.now) result }
{
    if is_name_start(first) {
        Front::Token(1 + name_len(rest), Form::Name)
    } else if first.is_ascii_digit() {
        number(first, rest)
    } else {
        sign(first, rest)
    }
}

fn number(first: char, rest: &str) -> Front
    requires { is_ascii_digit first ≡ true }
    ensures { IsNext (first ∷ chars rest.now) result }
{
    let digits = digits_len(rest);
    let fraction = fraction_len(skip(rest, digits));
    if fraction == 0 {
        Front::Token(1 + digits, Form::Int)
    } else {
        Front::Token(1 + digits + fraction, Form::Float)
    }
}

#[tactic(auto, using(crate::proofs::FormLemmas::long_next, crate::proofs::FormLemmas::short_next, crate::proofs::FormLemmas::bad_next))]
fn sign(first: char, rest: &str) -> Front
    requires name { is_name_start first ≡ false }
    requires number { is_ascii_digit first ≡ false }
    ensures { IsNext (first ∷ chars rest.now) result }
{
    match long_sign(first, rest) {
        Some(sign) => Front::Token(2, Form::Sign(sign)),
        None => match short_sign(first) {
            Some(sign) => Front::Token(1, Form::Sign(sign)),
            None => Front::Bad,
        },
    }
}
