ghost use Rattle.std.specs.Prelude.{◌≡◌, ◌+◌, ◌≤◌, [], ◌∷◌, true, false, length, MatchOption, MatchResult, IfOk, IfErr, if◌then◌else◌};
ghost use Rattle.std.specs.Str.{is_utf8};
ghost use Rattle.zl_script.specs.Cut.{lines_of, words_of};
ghost use Rattle.zl_script.specs.Items.{items, is_silent, is_skipped};

use crate::cut::{next_word, split_line, without_return};

/// A line that says something.
#[derive(Clone, Copy)]
pub(crate) struct Found<'a> {
    pub(crate) line: u32,
    /// The line without its end, or nothing where it isn't UTF-8.
    pub(crate) words: &'a [u8],
    /// What stands behind the line, and the number of the line there.
    pub(crate) rest: &'a [u8],
    pub(crate) next: u32,
}

/// A line without words, or whose first word begins with `#`.
fn is_silent(line: &[u8]) -> bool
    ensures { result ≡ is_silent (words_of line.now) }
{
    match next_word(line) {
        None => true,
        Some((word, _)) => word.first() == Some(&b'#'),
    }
}

fn is_text(line: &[u8]) -> bool
    ensures { result ≡ is_utf8 line.now }
{
    match std::str::from_utf8(line) {
        Ok(_) => true,
        Err(_) => false,
    }
}

/// What a line says, or `None` where it is skipped. A line that isn't UTF-8 says nothing that is understood.
#[tactic(auto, using(crate::proofs::ItemLemmas::words_none))]
fn said(line: &[u8]) -> Option<&[u8]>
    ensures { MatchOption result (is_skipped line.now ≡ true)
        (λ text. (is_skipped line.now ≡ false) × (words_of text.now ≡ (if is_utf8 line.now then words_of line.now else []))) }
{
    if !is_text(line) {
        return Some(&[]);
    }
    if is_silent(line) {
        return None;
    }
    Some(line)
}

/// The next line that isn't skipped, of a text whose first line has this number. Where there is none, the number behind
/// the last line.
pub(crate) fn next_item(text: &[u8], number: u32) -> Result<Found<'_>, u32>
    requires { number + length text.now ≤ 1048577 }
    ensures items { MatchResult result
        (λ f. items number (lines_of text.now) ≡ record { line = f.line; words = words_of f.words.now } ∷ items f.next (lines_of f.rest.now))
        (λ _. items number (lines_of text.now) ≡ []) }
    ensures end { IfErr result (λ n. n ≡ number + length (lines_of text.now)) }
    ensures within { IfOk result (λ f. f.next + length f.rest.now ≤ number + length text.now) }
    ensures next { IfOk result (λ f. f.next ≡ f.line + 1) }
    ensures from { IfOk result (λ f. number ≤ f.line) }
{
    let mut rest = text;
    let mut line = number;
    while let Some((ended, behind)) = split_line(rest) {
        if let Some(words) = said(without_return(ended)) {
            return Ok(Found {
                line,
                words,
                rest: behind,
                next: line + 1,
            });
        }
        rest = behind;
        line += 1;
    }
    Err(line)
}
