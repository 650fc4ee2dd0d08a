use crate::Names;
use std::alloc::{AllocError, AllocFailed};
use zl_value::{Frac, Pos, Sequence};

/// A token of a file.
#[derive(Clone, Copy, Debug, PartialEq, Eq)]
pub struct Token {
    pub kind: TokenKind,
    /// The byte at which the token's text begins, counted from 0.
    pub start: usize,
    /// The byte behind the token's text.
    pub end: usize,
    /// The place of the token's first character.
    pub at: Pos,
}

/// What a token is.
#[derive(Clone, Copy, Debug, PartialEq, Eq)]
pub enum TokenKind {
    /// A name, by its number in the file's list of names.
    Name(u32),
    /// A whole number from 0 to 9223372036854775807.
    Int(i64),
    Float(Frac),
    Word(Word),
    Sign(Sign),
}

/// A reserved word.
#[derive(Clone, Copy, Debug, PartialEq, Eq)]
pub enum Word {
    Let,
    Node,
    Hybrid,
    Where,
    Rec,
    And,
    Der,
    Init,
    Reset,
    Present,
    Automaton,
    Do,
    Done,
    Until,
    Unless,
    Then,
    Continue,
    Else,
    End,
    Every,
    Local,
    In,
    If,
    Last,
    Pre,
    Fby,
    Up,
    Not,
    Mod,
    Or,
    True,
    False,
    Bool,
    Int,
    Float,
    /// Reserved, and used by no rule of the grammar yet.
    Period,
}

/// A sign: an operator or a mark of punctuation.
#[derive(Clone, Copy, Debug, PartialEq, Eq)]
pub enum Sign {
    /// `(`
    Open,
    /// `)`
    Close,
    /// `,`
    Comma,
    /// `:`
    Colon,
    /// `=`
    Equal,
    /// `<>`
    Unequal,
    /// `<=`
    AtMost,
    /// `>=`
    AtLeast,
    /// `<`
    Less,
    /// `>`
    Greater,
    /// `->`
    Arrow,
    /// `|`
    Bar,
    /// `||`
    Bars,
    /// `&`
    Ampersand,
    /// `&&`
    Ampersands,
    /// `+`
    Plus,
    /// `-`
    Minus,
    /// `*`
    Star,
    /// `/`
    Slash,
    /// `+.`
    PlusDot,
    /// `-.`
    MinusDot,
    /// `*.`
    StarDot,
    /// `/.`
    SlashDot,
}

/// A file's tokens.
#[derive(Debug, Drop)]
pub struct Lexed {
    pub tokens: Sequence<Token>,
    pub names: Names,
    /// The place behind the last character of the text.
    pub end: Pos,
}

/// Why a text has no tokens.
#[derive(Clone, Copy, Debug, PartialEq, Eq)]
pub enum LexAnswer {
    /// No token begins here, or a comment that begins here isn't closed.
    BadToken { at: Pos },
    /// The number that begins here is refused.
    Literal { at: Pos },
    Memory,
}

impl From<AllocError> for LexAnswer {
    ghost use Rattle.std.specs.Prelude.{◌≡◌};
    ghost use Rattle.zl_lexer.specs.declared.token.LexAnswer.TheVariants.{Memory};

    ghost from_gives = { λ _ answer. answer ≡ Memory };

    fn from(_: AllocError) -> LexAnswer {
        LexAnswer::Memory
    }
}

impl<T: Drop> From<AllocFailed<T>> for LexAnswer {
    ghost use Rattle.std.specs.Prelude.{◌≡◌};
    ghost use Rattle.zl_lexer.specs.declared.token.LexAnswer.TheVariants.{Memory};

    ghost from_gives = { λ _ answer. answer ≡ Memory };

    fn from(_: AllocFailed<T>) -> LexAnswer {
        LexAnswer::Memory
    }
}
