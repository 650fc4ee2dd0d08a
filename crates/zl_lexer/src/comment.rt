ghost use Rattle.std.specs.Prelude.{◌≡◌, ◌≤◌, ◌∷◌, length, drop, IfSome};
ghost use Rattle.std.specs.Str.{chars};
ghost use Rattle.zl_lexer.specs.Comments.{opens_comment, closes_comment, comment_len, len_to_close};

use crate::character::split;

/// Whether a comment begins with these characters.
#[tactic(auto, using(crate::proofs::CommentLemmas::opens_none))]
pub(crate) fn opens_comment(first: char, rest: &str) -> bool
    ensures { result ≡ opens_comment (first ∷ chars rest.now) }
{
    if first != '(' {
        return false;
    }
    match split(rest) {
        Some((second, _)) => second == '*',
        None => false,
    }
}

/// Whether the mark that ends a comment begins with these characters.
#[tactic(auto, using(crate::proofs::CommentLemmas::closes_none))]
fn closes_comment(first: char, rest: &str) -> bool
    ensures { result ≡ closes_comment (first ∷ chars rest.now) }
{
    if first != '*' {
        return false;
    }
    match split(rest) {
        Some((second, _)) => second == ')',
        None => false,
    }
}

/// How many characters the comment has that these begin, unless it isn't closed.
pub(crate) fn comment_len(first: char, rest: &str) -> Option<usize>
    ensures { result ≡ comment_len (first ∷ chars rest.now) }
{
    match split(rest) {
        Some((_, inside)) => len_to_close(inside).map(|n| n + 2),
        None => None,
    }
}

/// The text behind its first character.
fn tail(text: &str) -> &str
    ensures { chars result.now ≡ drop 1 (chars text.now) }
{
    match split(text) {
        Some((_, rest)) => rest,
        None => text,
    }
}

/// How many characters inside a comment stand up to its end.
fn len_to_close(text: &str) -> Option<usize>
    ensures value { result ≡ len_to_close 1 (chars text.now) }
    ensures within { IfSome result (λ n. n ≤ length text.now) }
{
    let mut depth: usize = 1;
    let mut passed = 0;
    let mut rest = text;
    loop {
        let Some((first, behind)) = split(rest) else {
            return None;
        };
        if opens_comment(first, behind) {
            depth += 1;
            passed += 2;
            rest = tail(behind);
        } else if closes_comment(first, behind) {
            depth -= 1;
            passed += 2;
            rest = tail(behind);
            if depth == 0 {
                return Some(passed);
            }
        } else {
            passed += 1;
            rest = behind;
        }
    }
}
