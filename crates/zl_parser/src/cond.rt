//! Conditions. The depth is how many constructs may still be opened.
ghost use Rattle.zl_ast.specs.ReadingEquations as spec;
ghost use Rattle.zl_parser.specs.Giving.{Gives};

use crate::expr::below;
use crate::list::single;
use crate::stop::Stop;
use crate::token::{has_sign, next_sign, sign, word};
use sqlite_items::Items;
use std::alloc::Global;
use zl_ast::{Cond, Up};
use zl_lexer::{Sign, Token, Word};

/// A zero-crossing `up(expr)`.
#[tactic(auto, unfolding(zl_ast::specs::ReadingEquations::up, crate::proofs::Opening::steps))]
fn up(alloc: Global, depth: u8, tokens: &[Token]) -> Result<(Up, &[Token]), Stop>
    ensures { Gives (λ p. (p.0, p.1.now)) result (spec.up depth tokens.now) }
{
    let (at, rest) = word(tokens, Word::Up)?;
    let (_, rest) = sign(rest, Sign::Open)?;
    let (arg, rest) = below(alloc, depth, rest)?;
    let (_, rest) = sign(rest, Sign::Close)?;
    Ok((Up { at, arg }, rest))
}

/// Zero-crossings with bars between them.
#[tactic(auto, unfolding(zl_ast::specs::Reading::list_of, crate::proofs::Opening::steps))]
pub(crate) fn event(
    alloc: Global,
    depth: u8,
    tokens: &[Token],
) -> Result<(Items<Up>, &[Token]), Stop>
    ensures { Gives (λ p. (p.0, p.1.now)) result (spec.event depth tokens.now) }
{
    let (first, after) = up(alloc, depth, tokens)?;
    let mut ups = single(alloc, first)?;
    let mut rest = after;
    for _turn in 0..after.len() {
        let Some((_, behind)) = next_sign(rest, Sign::Bar) else {
            break;
        };
        let (next, behind) = up(alloc, depth, behind)?;
        ups.push(next)?;
        rest = behind;
    }
    Ok((Items::from_vec(ups), rest))
}

/// Zero-crossings, or an expression in parentheses.
#[tactic(auto, unfolding(zl_ast::specs::ReadingEquations::cond, crate::proofs::Opening::steps))]
pub(crate) fn cond(alloc: Global, depth: u8, tokens: &[Token]) -> Result<(Cond, &[Token]), Stop>
    ensures { Gives (λ p. (p.0, p.1.now)) result (spec.cond depth tokens.now) }
{
    if has_sign(tokens, Sign::Open) {
        let (at, rest) = sign(tokens, Sign::Open)?;
        let (arg, rest) = below(alloc, depth, rest)?;
        let (_, rest) = sign(rest, Sign::Close)?;
        return Ok((Cond::Test { at, arg }, rest));
    }
    let (ups, rest) = event(alloc, depth, tokens)?;
    Ok((Cond::Event(ups), rest))
}
