ghost use Rattle.std.specs.Prelude.{◌≡◌, ◌≤◌, [], ◌∷◌, ◌++◌, length, drop, encode_utf8, MatchOption};
ghost use Rattle.std.specs.List.{list_all, prefix_len};
ghost use Rattle.std.specs.Str.{chars};
ghost use Rattle.zl_lexer.specs.Names.{is_name_start, is_name};
ghost use Rattle.zl_lexer.specs.Positions.{is_white};
ghost use Rattle.unicode_ident.specs.Ident.{is_xid_continue};

use unicode_ident::{is_xid_continue, is_xid_start};

/// The first character, and the text behind it.
pub(crate) fn split(text: &str) -> Option<(char, &str)>
    ensures characters { MatchOption result (chars text.now ≡ []) (λ p. chars text.now ≡ p.0 ∷ chars p.1.now) }
    ensures bytes { MatchOption result (text.now ≡ []) (λ p. text.now ≡ encode_utf8 p.0 ++ p.1.now) }
{
    let mut characters = text.chars();
    match characters.next() {
        Some(first) => Some((first, characters.as_str())),
        None => None,
    }
}

/// The text behind so many characters.
pub(crate) fn skip(text: &str, len: usize) -> &str
    ensures { chars result.now ≡ drop len (chars text.now) }
{
    let mut rest = text;
    for _passed in 0..len {
        let Some((_, further)) = split(rest) else {
            break;
        };
        rest = further;
    }
    rest
}

pub(crate) fn is_white(c: char) -> bool
    ensures { result ≡ is_white c }
{
    c == ' ' || c == '\t' || c == '\r' || c == '\n'
}

pub(crate) fn is_name_start(c: char) -> bool
    ensures { result ≡ is_name_start c }
{
    is_xid_start(c) || c == '_'
}

/// Whether a character may continue a name. Most are ASCII, which takes no table.
fn continues_name(c: char) -> bool
    ensures { result ≡ is_xid_continue c }
{
    if c.is_ascii() {
        c.is_ascii_alphanumeric() | (c == '_')
    } else {
        is_xid_continue(c)
    }
}

/// How many characters at the front may continue a name.
pub(crate) fn name_len(text: &str) -> usize
    ensures value { result ≡ prefix_len is_xid_continue (chars text.now) }
    ensures within { result ≤ length text.now }
{
    text.chars().take_while(|c| continues_name(*c)).count()
}

fn all_continue_name(text: &str) -> bool
    ensures { result ≡ list_all is_xid_continue (chars text.now) }
{
    text.chars().all(continues_name)
}

/// Whether the whole text has the form of a name or of a reserved word.
pub(crate) fn is_name(text: &str) -> bool
    ensures { result ≡ is_name (chars text.now) }
{
    match split(text) {
        Some((first, rest)) => is_name_start(first) && all_continue_name(rest),
        None => false,
    }
}
