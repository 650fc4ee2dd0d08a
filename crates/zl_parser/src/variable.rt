//! Equations of variables. Each function begins behind the equation's first token. The depth is how many constructs may
//! still be opened.
ghost use Rattle.std.specs.Prelude.{◌≡◌};
ghost use Rattle.zl_lexer.specs.declared.token.TokenKind.TheVariants as kind;
ghost use Rattle.zl_lexer.specs.declared.token.Sign.TheVariants as sign;
ghost use Rattle.zl_lexer.specs.declared.token.Word.TheVariants as word;
ghost use Rattle.zl_ast.specs.Phrases.{listed};
ghost use Rattle.zl_ast.specs.Reading as reading;
ghost use Rattle.zl_ast.specs.ReadingExpressions.{read_expr};
ghost use Rattle.zl_ast.specs.ReadingEquations as spec;
ghost use Rattle.zl_parser.specs.Giving.{Gives};

use crate::cond::event;
use crate::expr::{args, expr};
use crate::list::single;
use crate::names::tuple;
use crate::stop::Stop;
use crate::token::{name, next_sign, next_word, sign};
use sqlite_items::Items;
use std::alloc::Global;
use zl_ast::{Eqn, Expr, Name, ResetArm};
use zl_lexer::{Sign, Token, Word};
use zl_value::Pos;

/// An equation of one name, which was read.
#[tactic(auto, unfolding(zl_ast::specs::ReadingEquations::eqn_at, crate::proofs::Opening::steps))]
pub(crate) fn one(
    alloc: Global,
    depth: u8,
    name: Name,
    tokens: &[Token],
) -> Result<(Eqn, &[Token]), Stop>
    ensures { Gives (λ p. (p.0, p.1.now)) result
        (spec.eqn_at depth reading.nothing tokens.now name.at tokens.now (kind.Name name.id)) }
{
    let (_, rest) = sign(tokens, Sign::Equal)?;
    let (right, rest) = expr(alloc, depth, rest)?;
    let left = Items::from_vec(single(alloc, name)?);
    Ok((Eqn::Plain { left, right }, rest))
}

/// An equation of several names, from its `(` on.
#[tactic(auto, unfolding(zl_ast::specs::ReadingEquations::eqn_at, crate::proofs::Opening::steps))]
pub(crate) fn several(
    alloc: Global,
    depth: u8,
    at: Pos,
    tokens: &[Token],
) -> Result<(Eqn, &[Token]), Stop>
    ensures { Gives (λ p. (p.0, p.1.now)) result
        (spec.eqn_at depth reading.nothing tokens.now at tokens.now (kind.Sign sign.Open)) }
{
    let (left, rest) = tuple(alloc, depth, tokens)?;
    let (_, rest) = sign(rest, Sign::Equal)?;
    let (name, rest) = name(rest)?;
    let (_, rest) = sign(rest, Sign::Open)?;
    let (args, rest) = args(alloc, depth, rest)?;
    let right = Expr::Call { name, args };
    Ok((Eqn::Plain { left, right }, rest))
}

/// `der x = slope init start reset event -> value | ..`
#[tactic(auto, unfolding(zl_ast::specs::ReadingEquations::eqn_at, crate::proofs::Opening::steps))]
pub(crate) fn der(
    alloc: Global,
    depth: u8,
    at: Pos,
    tokens: &[Token],
) -> Result<(Eqn, &[Token]), Stop>
    ensures { Gives (λ p. (p.0, p.1.now)) result
        (spec.eqn_at depth reading.nothing tokens.now at tokens.now (kind.Word word.Der)) }
{
    let (name, rest) = name(tokens)?;
    let (_, rest) = sign(rest, Sign::Equal)?;
    let (slope, rest) = expr(alloc, depth, rest)?;
    let (start, rest) = start(alloc, depth, rest)?;
    let (resets, rest) = resets(alloc, depth, rest)?;
    let der = Eqn::Der {
        at,
        name,
        slope,
        start,
        resets: listed(alloc, resets),
    };
    Ok((der, rest))
}

/// `init x = value`
#[tactic(auto, unfolding(zl_ast::specs::ReadingEquations::eqn_at, crate::proofs::Opening::steps))]
pub(crate) fn init(
    alloc: Global,
    depth: u8,
    at: Pos,
    tokens: &[Token],
) -> Result<(Eqn, &[Token]), Stop>
    ensures { Gives (λ p. (p.0, p.1.now)) result
        (spec.eqn_at depth reading.nothing tokens.now at tokens.now (kind.Word word.Init)) }
{
    let (name, rest) = name(tokens)?;
    let (_, rest) = sign(rest, Sign::Equal)?;
    let (value, rest) = expr(alloc, depth, rest)?;
    Ok((Eqn::Start { at, name, value }, rest))
}

/// The expression of `init start`, if it is next.
#[tactic(auto, unfolding(zl_ast::specs::Reading::maybe, crate::proofs::Opening::steps))]
fn start(alloc: Global, depth: u8, tokens: &[Token]) -> Result<(Option<Expr>, &[Token]), Stop>
    ensures { Gives (λ p. (p.0, p.1.now)) result
        (reading.maybe (kind.Word word.Init) (read_expr depth) tokens.now) }
{
    let Some((_, rest)) = next_word(tokens, Word::Init) else {
        return Ok((None, tokens));
    };
    let (start, rest) = expr(alloc, depth, rest)?;
    Ok((Some(start), rest))
}

/// The arms of `reset event -> value | ..`, if it is next.
#[tactic(auto, unfolding(zl_ast::specs::Reading::maybe, crate::proofs::Opening::steps))]
fn resets(
    alloc: Global,
    depth: u8,
    tokens: &[Token],
) -> Result<(Option<Items<ResetArm>>, &[Token]), Stop>
    ensures { Gives (λ p. (p.0, p.1.now)) result
        (reading.maybe (kind.Word word.Reset) (reading.list_of (kind.Sign sign.Bar) (spec.reset_arm depth)) tokens.now) }
{
    let Some((_, rest)) = next_word(tokens, Word::Reset) else {
        return Ok((None, tokens));
    };
    let (arms, rest) = reset_arms(alloc, depth, rest)?;
    Ok((Some(arms), rest))
}

#[tactic(auto, unfolding(zl_ast::specs::Reading::list_of, crate::proofs::Opening::steps))]
fn reset_arms(
    alloc: Global,
    depth: u8,
    tokens: &[Token],
) -> Result<(Items<ResetArm>, &[Token]), Stop>
    ensures { Gives (λ p. (p.0, p.1.now)) result
        (reading.list_of (kind.Sign sign.Bar) (spec.reset_arm depth) tokens.now) }
{
    let (first, after) = reset_arm(alloc, depth, tokens)?;
    let mut arms = single(alloc, first)?;
    let mut rest = after;
    for _turn in 0..after.len() {
        let Some((_, behind)) = next_sign(rest, Sign::Bar) else {
            break;
        };
        let (next, behind) = reset_arm(alloc, depth, behind)?;
        arms.push(next)?;
        rest = behind;
    }
    Ok((Items::from_vec(arms), rest))
}

/// `event -> value`
#[tactic(auto, unfolding(zl_ast::specs::ReadingEquations::reset_arm, crate::proofs::Opening::steps))]
fn reset_arm(alloc: Global, depth: u8, tokens: &[Token]) -> Result<(ResetArm, &[Token]), Stop>
    ensures { Gives (λ p. (p.0, p.1.now)) result (spec.reset_arm depth tokens.now) }
{
    let (event, rest) = event(alloc, depth, tokens)?;
    let (_, rest) = sign(rest, Sign::Arrow)?;
    let (value, rest) = expr(alloc, depth, rest)?;
    Ok((ResetArm { event, value }, rest))
}

/// What an optional list holds.
pub(crate) fn listed<T>(alloc: Global, items: Option<Items<T>>) -> Items<T>
    ensures { result ≡ listed items }
{
    match items {
        Some(items) => items,
        None => Items::new(alloc),
    }
}
