//! The tokens of a file.
#![tactic(auto)]

mod character;
mod comment;
mod front;
mod lexer;
mod names;
mod number;
mod place;
mod sign;
mod token;
mod word;

pub use lexer::{lex, one_reading};
pub use names::Names;
pub use place::end_of;
pub use token::{LexAnswer, Lexed, Sign, Token, TokenKind, Word};
pub use word::is_identifier;
