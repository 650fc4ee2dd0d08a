ghost use Rattle.std.specs.Prelude.{◌≡◌, ◌+◌, ◌≤◌, length, take, drop, encode_utf8_all};
ghost use Rattle.std.specs.Char.{len_utf8};
ghost use Rattle.std.specs.List.{prefix_len};
ghost use Rattle.std.specs.Str.{chars};
ghost use Rattle.zl_lexer.specs.Positions.{is_white, first_place, pos_after, place_after, behind};

use crate::character::{is_white, split};
use zl_value::Pos;

/// A place between the characters of a text.
#[derive(Clone, Copy)]
pub(crate) struct Place {
    /// How many bytes stand before it.
    pub byte: usize,
    pub at: Pos,
}

/// The place behind a character: a line ends with a line feed, and a column counts characters.
fn pos_after(mut at: Pos, c: char) -> Pos
    requires line { at.line ≤ 1048577 }
    requires column { at.column ≤ 1048577 }
    ensures { result ≡ pos_after at c }
{
    if c == '\n' {
        at.line += 1;
        at.column = 0;
    }
    at.column += 1;
    at
}

impl Place {
    /// Where a text begins.
    pub(crate) fn first() -> Place
        ensures { result ≡ first_place }
    {
        Place {
            byte: 0,
            at: Pos { line: 1, column: 1 },
        }
    }

    /// The place behind a character.
    fn after(self, c: char) -> Place
        requires bytes { self.byte + len_utf8 c ≤ 1048576 }
        requires line { self.at.line ≤ self.byte + 1 }
        requires column { self.at.column ≤ self.byte + 1 }
        ensures { result ≡ place_after self c }
    {
        Place {
            byte: self.byte + c.len_utf8(),
            at: pos_after(self.at, c),
        }
    }

    /// The place behind the first characters of a text, so many, and the text behind them.
    pub(crate) fn past(self, text: &str, len: usize) -> (Place, &str)
        requires within { len ≤ length (chars text.now) }
        requires bytes { self.byte + length (encode_utf8_all (chars text.now)) ≤ 1048576 }
        requires line { self.at.line ≤ self.byte + 1 }
        requires column { self.at.column ≤ self.byte + 1 }
        ensures place { result.0 ≡ behind self (take len (chars text.now)) }
        ensures rest { chars result.1.now ≡ drop len (chars text.now) }
    {
        let mut at = self.at;
        let mut rest = text;
        for _passed in 0..len {
            let Some((c, further)) = split(rest) else {
                unreachable!()
            };
            at = pos_after(at, c);
            rest = further;
        }
        let byte = self.byte + (text.len() - rest.len());
        (Place { byte, at }, rest)
    }

    /// The place behind the white space at the front of a text, and the text behind it.
    pub(crate) fn past_white(self, text: &str) -> (Place, &str)
        requires bytes { self.byte + length (encode_utf8_all (chars text.now)) ≤ 1048576 }
        requires line { self.at.line ≤ self.byte + 1 }
        requires column { self.at.column ≤ self.byte + 1 }
        ensures place { result.0 ≡ behind self (take (prefix_len is_white (chars text.now)) (chars text.now)) }
        ensures rest { chars result.1.now ≡ drop (prefix_len is_white (chars text.now)) (chars text.now) }
    {
        let mut place = self;
        let mut rest = text;
        loop {
            let Some((c, further)) = split(rest) else {
                return (place, rest);
            };
            if !is_white(c) {
                return (place, rest);
            }
            place = place.after(c);
            rest = further;
        }
    }
}

/// The place behind the last character of a text.
pub fn end_of(text: &str) -> Pos
    requires { length text.now ≤ 1048576 }
    ensures { result ≡ (behind first_place (chars text.now)).at }
{
    let len = text.chars().count();
    let (end, _) = Place::first().past(text, len);
    end.at
}
