//! Moves between the states of an automaton. The depth is how many constructs may still be opened.
ghost use Rattle.std.specs.Prelude.{length};
ghost use Rattle.zl_ast.specs.ReadingEquations as spec;
ghost use Rattle.zl_parser.specs.Giving.{Gives, with_front};

use crate::cond::cond;
use crate::list::single;
use crate::operator::{next_entry, next_move};
use crate::stop::Stop;
use crate::token::{name, next_word};
use sqlite_items::Items;
use std::alloc::Global;
use zl_ast::Move;
use zl_lexer::{Token, Word};
use zl_value::Pos;

/// An alternative of a move, of which the word at the place says whether it is strong.
#[tactic(auto, unfolding(zl_ast::specs::ReadingEquations::alt, crate::proofs::Opening::steps))]
fn alternative(
    alloc: Global,
    depth: u8,
    strong: bool,
    at: Pos,
    tokens: &[Token],
) -> Result<(Move, &[Token]), Stop>
    ensures { Gives (λ p. (p.0, p.1.now)) result (spec.alt depth strong at tokens.now) }
{
    let (cond, rest) = cond(alloc, depth, tokens)?;
    let Some((reset, _, rest)) = next_entry(rest) else {
        return Err(Stop::Parse(rest.len()));
    };
    let (target, rest) = name(rest)?;
    let alternative = Move {
        strong,
        reset,
        at,
        cond,
        target,
    };
    Ok((alternative, rest))
}

/// The alternatives of a move, behind its first word.
#[tactic(auto, unfolding(zl_ast::specs::ReadingEquations::move_from, crate::proofs::Opening::steps))]
fn alternatives(
    alloc: Global,
    depth: u8,
    strong: bool,
    at: Pos,
    tokens: &[Token],
) -> Result<(Items<Move>, &[Token]), Stop>
    ensures { Gives (λ p. (p.0, p.1.now)) result (spec.move_from depth strong at tokens.now) }
{
    let (first, after) = alternative(alloc, depth, strong, at, tokens)?;
    let mut moves = single(alloc, first)?;
    let mut rest = after;
    for _turn in 0..after.len() {
        let Some((at, behind)) = next_word(rest, Word::Else) else {
            break;
        };
        let (next, behind) = alternative(alloc, depth, strong, at, behind)?;
        moves.push(next)?;
        rest = behind;
    }
    Ok((Items::from_vec(moves), rest))
}

/// `done`, or at least one move.
#[tactic(auto, unfolding(zl_ast::specs::ReadingEquations::state_end, crate::proofs::Opening::steps))]
pub(crate) fn state_end(
    alloc: Global,
    depth: u8,
    tokens: &[Token],
) -> Result<(Items<Move>, &[Token]), Stop>
    ensures { Gives (λ p. (p.0, p.1.now)) result (spec.state_end depth tokens.now) }
{
    if let Some((_, rest)) = next_word(tokens, Word::Done) {
        return Ok((Items::new(alloc), rest));
    }
    let Some((strong, at, rest)) = next_move(tokens) else {
        return Err(Stop::Parse(tokens.len()));
    };
    let (first, rest) = alternatives(alloc, depth, strong, at, rest)?;
    more_moves(alloc, depth, first, rest)
}

/// Moves, put behind those that were read before.
#[tactic(auto, unfolding(crate::proofs::Opening::steps))]
fn more_moves(
    alloc: Global,
    depth: u8,
    moves: Items<Move>,
    tokens: &[Token],
) -> Result<(Items<Move>, &[Token]), Stop>
    ensures { Gives (λ p. (p.0, p.1.now)) result
        (with_front moves (spec.moves depth (length tokens.now) tokens.now)) }
{
    let mut moves = moves;
    let mut rest = tokens;
    for _turn in 0..tokens.len() {
        let Some((strong, at, behind)) = next_move(rest) else {
            break;
        };
        let (next, behind) = alternatives(alloc, depth, strong, at, behind)?;
        moves.append(next)?;
        rest = behind;
    }
    Ok((moves, rest))
}
