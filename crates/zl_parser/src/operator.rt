//! Which tokens are operators, and words that stand for one of several things.
ghost use Rattle.std.specs.Prelude.{◌≡◌, MatchOption};
ghost use Rattle.zl_ast.specs.Operators as table;
ghost use Rattle.zl_parser.specs.Levels.{operator_of, IsMissing, IsNext};

use zl_ast::{DeclKind, FlowOp, Infix, Prefix};
use zl_lexer::{Sign, Token, TokenKind, Word};
use zl_value::{Pos, Ty};

/// A level of operators between operands, from the outermost to the innermost. Comparisons stand alone; the others are
/// grouped from the left.
#[derive(Clone, Copy, Debug, PartialEq, Eq)]
pub(crate) enum Level {
    Disjunction,
    Conjunction,
    Comparison,
    Addition,
    Multiplication,
}

fn disjunction(kind: &TokenKind) -> Option<Infix>
    ensures { result ≡ table.disjunction kind.now }
{
    match kind {
        TokenKind::Sign(Sign::Bars) => Some(Infix::Or),
        TokenKind::Word(Word::Or) => Some(Infix::Or),
        _ => None,
    }
}

fn conjunction(kind: &TokenKind) -> Option<Infix>
    ensures { result ≡ table.conjunction kind.now }
{
    match kind {
        TokenKind::Sign(Sign::Ampersands) => Some(Infix::And),
        TokenKind::Sign(Sign::Ampersand) => Some(Infix::And),
        _ => None,
    }
}

fn comparison(kind: &TokenKind) -> Option<Infix>
    ensures { result ≡ table.comparison kind.now }
{
    match kind {
        TokenKind::Sign(Sign::Equal) => Some(Infix::Equal),
        TokenKind::Sign(Sign::Unequal) => Some(Infix::Unequal),
        TokenKind::Sign(Sign::Less) => Some(Infix::Less),
        TokenKind::Sign(Sign::AtMost) => Some(Infix::AtMost),
        TokenKind::Sign(Sign::Greater) => Some(Infix::Greater),
        TokenKind::Sign(Sign::AtLeast) => Some(Infix::AtLeast),
        _ => None,
    }
}

fn addition(kind: &TokenKind) -> Option<Infix>
    ensures { result ≡ table.addition kind.now }
{
    match kind {
        TokenKind::Sign(Sign::Plus) => Some(Infix::Plus),
        TokenKind::Sign(Sign::Minus) => Some(Infix::Minus),
        TokenKind::Sign(Sign::PlusDot) => Some(Infix::PlusDot),
        TokenKind::Sign(Sign::MinusDot) => Some(Infix::MinusDot),
        _ => None,
    }
}

fn multiplication(kind: &TokenKind) -> Option<Infix>
    ensures { result ≡ table.multiplication kind.now }
{
    match kind {
        TokenKind::Sign(Sign::Star) => Some(Infix::Star),
        TokenKind::Sign(Sign::Slash) => Some(Infix::Slash),
        TokenKind::Word(Word::Mod) => Some(Infix::Mod),
        TokenKind::Sign(Sign::StarDot) => Some(Infix::StarDot),
        TokenKind::Sign(Sign::SlashDot) => Some(Infix::SlashDot),
        _ => None,
    }
}

fn infix(level: Level, kind: &TokenKind) -> Option<Infix>
    ensures { result ≡ operator_of level kind.now }
{
    match level {
        Level::Disjunction => disjunction(kind),
        Level::Conjunction => conjunction(kind),
        Level::Comparison => comparison(kind),
        Level::Addition => addition(kind),
        Level::Multiplication => multiplication(kind),
    }
}

fn flow_op(kind: &TokenKind) -> Option<FlowOp>
    ensures { result ≡ table.flow_operator kind.now }
{
    match kind {
        TokenKind::Sign(Sign::Arrow) => Some(FlowOp::Arrow),
        TokenKind::Word(Word::Fby) => Some(FlowOp::Fby),
        _ => None,
    }
}

fn prefix(kind: &TokenKind) -> Option<Prefix>
    ensures { result ≡ table.prefix kind.now }
{
    match kind {
        TokenKind::Sign(Sign::Minus) => Some(Prefix::Minus),
        TokenKind::Sign(Sign::MinusDot) => Some(Prefix::MinusDot),
        TokenKind::Word(Word::Not) => Some(Prefix::Not),
        TokenKind::Word(Word::Pre) => Some(Prefix::Pre),
        _ => None,
    }
}

fn type_name(kind: &TokenKind) -> Option<Ty>
    ensures { result ≡ table.type_name kind.now }
{
    match kind {
        TokenKind::Word(Word::Bool) => Some(Ty::Bool),
        TokenKind::Word(Word::Int) => Some(Ty::Int),
        TokenKind::Word(Word::Float) => Some(Ty::Float),
        _ => None,
    }
}

fn move_word(kind: &TokenKind) -> Option<bool>
    ensures { result ≡ table.move_word kind.now }
{
    match kind {
        TokenKind::Word(Word::Until) => Some(false),
        TokenKind::Word(Word::Unless) => Some(true),
        _ => None,
    }
}

fn entry_word(kind: &TokenKind) -> Option<bool>
    ensures { result ≡ table.entry_word kind.now }
{
    match kind {
        TokenKind::Word(Word::Then) => Some(true),
        TokenKind::Word(Word::Continue) => Some(false),
        _ => None,
    }
}

fn decl_word(kind: &TokenKind) -> Option<DeclKind>
    ensures { result ≡ table.decl_word kind.now }
{
    match kind {
        TokenKind::Word(Word::Node) => Some(DeclKind::Node),
        TokenKind::Word(Word::Hybrid) => Some(DeclKind::Hybrid),
        _ => None,
    }
}

/// The operator of this level that is next, its place, and the tokens behind it.
#[tactic(auto, unfolding(zl_ast::specs::Reading::next_in, zl_ast::specs::Reading::find))]
pub(crate) fn next_infix(level: Level, tokens: &[Token]) -> Option<(Infix, Pos, &[Token])>
    ensures { MatchOption result (IsMissing (operator_of level) tokens.now)
        (λ p. IsNext (operator_of level) tokens.now p.0 p.1 p.2.now) }
{
    let (first, rest) = tokens.split_first()?;
    let op = infix(level, &first.kind)?;
    Some((op, first.at, rest))
}

/// The operator between a first value and later ones that is next, its place, and the tokens behind it.
#[tactic(auto, unfolding(zl_ast::specs::Reading::next_in, zl_ast::specs::Reading::find))]
pub(crate) fn next_flow_op(tokens: &[Token]) -> Option<(FlowOp, Pos, &[Token])>
    ensures { MatchOption result (IsMissing table.flow_operator tokens.now)
        (λ p. IsNext table.flow_operator tokens.now p.0 p.1 p.2.now) }
{
    let (first, rest) = tokens.split_first()?;
    let op = flow_op(&first.kind)?;
    Some((op, first.at, rest))
}

/// The prefix operator that is next, its place, and the tokens behind it.
#[tactic(auto, unfolding(zl_ast::specs::Reading::next_in, zl_ast::specs::Reading::find))]
pub(crate) fn next_prefix(tokens: &[Token]) -> Option<(Prefix, Pos, &[Token])>
    ensures { MatchOption result (IsMissing table.prefix tokens.now)
        (λ p. IsNext table.prefix tokens.now p.0 p.1 p.2.now) }
{
    let (first, rest) = tokens.split_first()?;
    let op = prefix(&first.kind)?;
    Some((op, first.at, rest))
}

/// The type whose name is next, its place, and the tokens behind it.
#[tactic(auto, unfolding(zl_ast::specs::Reading::next_in, zl_ast::specs::Reading::find))]
pub(crate) fn next_type(tokens: &[Token]) -> Option<(Ty, Pos, &[Token])>
    ensures { MatchOption result (IsMissing table.type_name tokens.now)
        (λ p. IsNext table.type_name tokens.now p.0 p.1 p.2.now) }
{
    let (first, rest) = tokens.split_first()?;
    let ty = type_name(&first.kind)?;
    Some((ty, first.at, rest))
}

/// Whether the move whose first word is next is strong, the word's place, and the tokens behind it.
#[tactic(auto, unfolding(zl_ast::specs::Reading::next_in, zl_ast::specs::Reading::find))]
pub(crate) fn next_move(tokens: &[Token]) -> Option<(bool, Pos, &[Token])>
    ensures { MatchOption result (IsMissing table.move_word tokens.now)
        (λ p. IsNext table.move_word tokens.now p.0 p.1 p.2.now) }
{
    let (first, rest) = tokens.split_first()?;
    let strong = move_word(&first.kind)?;
    Some((strong, first.at, rest))
}

/// Whether the entry whose word is next starts its target anew, the word's place, and the tokens behind it.
#[tactic(auto, unfolding(zl_ast::specs::Reading::next_in, zl_ast::specs::Reading::find))]
pub(crate) fn next_entry(tokens: &[Token]) -> Option<(bool, Pos, &[Token])>
    ensures { MatchOption result (IsMissing table.entry_word tokens.now)
        (λ p. IsNext table.entry_word tokens.now p.0 p.1 p.2.now) }
{
    let (first, rest) = tokens.split_first()?;
    let anew = entry_word(&first.kind)?;
    Some((anew, first.at, rest))
}

/// The kind of declaration whose word is next, the word's place, and the tokens behind it.
#[tactic(auto, unfolding(zl_ast::specs::Reading::next_in, zl_ast::specs::Reading::find))]
pub(crate) fn next_decl_kind(tokens: &[Token]) -> Option<(DeclKind, Pos, &[Token])>
    ensures { MatchOption result (IsMissing table.decl_word tokens.now)
        (λ p. IsNext table.decl_word tokens.now p.0 p.1 p.2.now) }
{
    let (first, rest) = tokens.split_first()?;
    let kind = decl_word(&first.kind)?;
    Some((kind, first.at, rest))
}
