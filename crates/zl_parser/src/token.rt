//! Single tokens at the front of those that are left.
ghost use Rattle.std.specs.Prelude.{◌≡◌, false, MatchOption};
ghost use Rattle.zl_lexer.specs.declared.token.TokenKind.TheVariants as kind;
ghost use Rattle.zl_ast.specs.Reading as reading;
ghost use Rattle.zl_parser.specs.Giving.{Gives, IsBehind};

use crate::stop::Stop;
use zl_ast::Name;
use zl_lexer::{Sign, Token, TokenKind, Word};
use zl_value::Pos;

/// Whether this word is next.
#[tactic(auto, unfolding(zl_ast::specs::Reading::next_is))]
pub(crate) fn has_word(tokens: &[Token], word: Word) -> bool
    ensures { result ≡ reading.next_is (kind.Word word) tokens.now }
{
    match tokens.split_first() {
        Some((first, _)) => matches!(first.kind, TokenKind::Word(next) if next == word),
        None => false,
    }
}

/// Whether this sign is next.
#[tactic(auto, unfolding(zl_ast::specs::Reading::next_is))]
pub(crate) fn has_sign(tokens: &[Token], sign: Sign) -> bool
    ensures { result ≡ reading.next_is (kind.Sign sign) tokens.now }
{
    match tokens.split_first() {
        Some((first, _)) => matches!(first.kind, TokenKind::Sign(next) if next == sign),
        None => false,
    }
}

/// The place of this word, and the tokens behind it.
#[tactic(auto, unfolding(zl_ast::specs::Reading::take))]
pub(crate) fn word(tokens: &[Token], word: Word) -> Result<(Pos, &[Token]), Stop>
    ensures { Gives (λ p. (p.0, p.1.now)) result (reading.take (kind.Word word) tokens.now) }
{
    let Some((first, rest)) = tokens.split_first() else {
        return Err(Stop::Parse(0));
    };
    match first.kind {
        TokenKind::Word(next) if next == word => Ok((first.at, rest)),
        _ => Err(Stop::Parse(tokens.len())),
    }
}

/// The place of this sign, and the tokens behind it.
#[tactic(auto, unfolding(zl_ast::specs::Reading::take))]
pub(crate) fn sign(tokens: &[Token], sign: Sign) -> Result<(Pos, &[Token]), Stop>
    ensures { Gives (λ p. (p.0, p.1.now)) result (reading.take (kind.Sign sign) tokens.now) }
{
    let Some((first, rest)) = tokens.split_first() else {
        return Err(Stop::Parse(0));
    };
    match first.kind {
        TokenKind::Sign(next) if next == sign => Ok((first.at, rest)),
        _ => Err(Stop::Parse(tokens.len())),
    }
}

/// The name that is next, and the tokens behind it.
#[tactic(auto, unfolding(zl_ast::specs::Reading::name))]
pub(crate) fn name(tokens: &[Token]) -> Result<(Name, &[Token]), Stop>
    ensures { Gives (λ p. (p.0, p.1.now)) result (reading.name tokens.now) }
{
    let Some((first, rest)) = tokens.split_first() else {
        return Err(Stop::Parse(0));
    };
    match first.kind {
        TokenKind::Name(id) => Ok((Name { id, at: first.at }, rest)),
        _ => Err(Stop::Parse(tokens.len())),
    }
}

/// The tokens behind this word, or all where it isn't next.
#[tactic(auto, unfolding(zl_ast::specs::Reading::pass, zl_ast::specs::Reading::next_is))]
pub(crate) fn past_word(tokens: &[Token], word: Word) -> &[Token]
    ensures { result.now ≡ reading.pass (kind.Word word) tokens.now }
{
    let Some((first, rest)) = tokens.split_first() else {
        return tokens;
    };
    match first.kind {
        TokenKind::Word(next) if next == word => rest,
        _ => tokens,
    }
}

/// The tokens behind this sign, or all where it isn't next.
#[tactic(auto, unfolding(zl_ast::specs::Reading::pass, zl_ast::specs::Reading::next_is))]
pub(crate) fn past_sign(tokens: &[Token], sign: Sign) -> &[Token]
    ensures { result.now ≡ reading.pass (kind.Sign sign) tokens.now }
{
    let Some((first, rest)) = tokens.split_first() else {
        return tokens;
    };
    match first.kind {
        TokenKind::Sign(next) if next == sign => rest,
        _ => tokens,
    }
}

/// The place of this word and the tokens behind it, if it is next.
#[tactic(auto, unfolding(zl_ast::specs::Reading::next_is, zl_ast::specs::Reading::take))]
pub(crate) fn next_word(tokens: &[Token], word: Word) -> Option<(Pos, &[Token])>
    ensures { MatchOption result (reading.next_is (kind.Word word) tokens.now ≡ false)
        (λ p. IsBehind (kind.Word word) tokens.now p.0 p.1.now) }
{
    let (first, rest) = tokens.split_first()?;
    match first.kind {
        TokenKind::Word(next) if next == word => Some((first.at, rest)),
        _ => None,
    }
}

/// The place of this sign and the tokens behind it, if it is next.
#[tactic(auto, unfolding(zl_ast::specs::Reading::next_is, zl_ast::specs::Reading::take))]
pub(crate) fn next_sign(tokens: &[Token], sign: Sign) -> Option<(Pos, &[Token])>
    ensures { MatchOption result (reading.next_is (kind.Sign sign) tokens.now ≡ false)
        (λ p. IsBehind (kind.Sign sign) tokens.now p.0 p.1.now) }
{
    let (first, rest) = tokens.split_first()?;
    match first.kind {
        TokenKind::Sign(next) if next == sign => Some((first.at, rest)),
        _ => None,
    }
}
