ghost use Rattle.std.specs.Prelude.{◌≡◌};
ghost use Rattle.zl_lexer.specs.Words.{word_of, is_identifier};

use crate::Word;
use crate::character::is_name;

/// Whether the whole text is a name: a character that may start one or `_`, then characters that may continue one, as
/// Unicode's UAX 31 has them, and not a reserved word. It takes no memory.
pub fn is_identifier(text: &str) -> bool
    ensures { result ≡ is_identifier text.now }
{
    is_name(text) && word_of(text).is_none()
}

/// The reserved word that a text is.
pub(crate) fn word_of(text: &str) -> Option<Word>
    ensures { result ≡ word_of text.now }
{
    Some(match text {
        "let" => Word::Let,
        "node" => Word::Node,
        "hybrid" => Word::Hybrid,
        "where" => Word::Where,
        "rec" => Word::Rec,
        "and" => Word::And,
        "der" => Word::Der,
        "init" => Word::Init,
        "reset" => Word::Reset,
        "present" => Word::Present,
        "automaton" => Word::Automaton,
        "do" => Word::Do,
        "done" => Word::Done,
        "until" => Word::Until,
        "unless" => Word::Unless,
        "then" => Word::Then,
        "continue" => Word::Continue,
        "else" => Word::Else,
        "end" => Word::End,
        "every" => Word::Every,
        "local" => Word::Local,
        "in" => Word::In,
        "if" => Word::If,
        "last" => Word::Last,
        "pre" => Word::Pre,
        "fby" => Word::Fby,
        "up" => Word::Up,
        "not" => Word::Not,
        "mod" => Word::Mod,
        "or" => Word::Or,
        "true" => Word::True,
        "false" => Word::False,
        "bool" => Word::Bool,
        "int" => Word::Int,
        "float" => Word::Float,
        "period" => Word::Period,
        _ => return None,
    })
}
