//! Lists of names.
ghost use Rattle.std.specs.Prelude.{◌≡◌};
ghost use Rattle.zl_lexer.specs.declared.token.TokenKind.TheVariants as kind;
ghost use Rattle.zl_lexer.specs.declared.token.Sign.TheVariants as sign;
ghost use Rattle.zl_lexer.specs.declared.token.Word.TheVariants as word;
ghost use Rattle.zl_ast.specs.Reading as reading;
ghost use Rattle.zl_ast.specs.ReadingEquations as spec;
ghost use Rattle.zl_parser.specs.Giving.{Gives, with_front};

use crate::list::put;
use crate::stop::Stop;
use crate::token::{name, next_sign, next_word, sign, word};
use sqlite_items::Items;
use std::alloc::Global;
use zl_ast::Name;
use zl_lexer::{Sign, Token, Word};

/// Names with commas between them, put behind those that were read before.
#[tactic(auto, unfolding(zl_ast::specs::Reading::list_of, crate::proofs::Opening::steps))]
fn more_names(names: Vec<Name>, tokens: &[Token]) -> Result<(Items<Name>, &[Token]), Stop>
    ensures { Gives (λ p. (p.0, p.1.now)) result
        (with_front names.items (reading.list_of (kind.Sign sign.Comma) reading.name tokens.now)) }
{
    let (first, after) = name(tokens)?;
    let mut names = names;
    put(&mut names, first)?;
    let mut rest = after;
    for _turn in 0..after.len() {
        let Some((_, behind)) = next_sign(rest, Sign::Comma) else {
            break;
        };
        let (next, behind) = name(behind)?;
        names.push(next)?;
        rest = behind;
    }
    Ok((Items::from_vec(names), rest))
}

/// At least two names in parentheses.
#[tactic(auto, unfolding(zl_ast::specs::Reading::tuple, crate::proofs::Opening::steps))]
pub(crate) fn tuple(
    alloc: Global,
    depth: u8,
    tokens: &[Token],
) -> Result<(Items<Name>, &[Token]), Stop>
    ensures { Gives (λ p. (p.0, p.1.now)) result (reading.tuple depth tokens.now) }
{
    let (_, rest) = sign(tokens, Sign::Open)?;
    let (first, rest) = name_inside(depth, rest)?;
    let (_, rest) = sign(rest, Sign::Comma)?;
    let mut names = Vec::new(alloc);
    names.push(first)?;
    let (names, rest) = more_names(names, rest)?;
    let (_, rest) = sign(rest, Sign::Close)?;
    Ok((names, rest))
}

/// A name behind a `(` that opens a construct.
#[tactic(auto, unfolding(zl_ast::specs::Reading::inside))]
fn name_inside(depth: u8, tokens: &[Token]) -> Result<(Name, &[Token]), Stop>
    ensures { Gives (λ p. (p.0, p.1.now)) result (reading.inside depth reading.name tokens.now) }
{
    if depth == 0 {
        return Err(Stop::Deep(tokens.len() + 1));
    }
    name(tokens)
}

/// The names of `local x, y in`, if it is next.
#[tactic(auto, unfolding(zl_ast::specs::Reading::maybe, zl_ast::specs::ReadingEquations::locals, crate::proofs::Opening::steps))]
pub(crate) fn locals(
    alloc: Global,
    tokens: &[Token],
) -> Result<(Option<Items<Name>>, &[Token]), Stop>
    ensures { Gives (λ p. (p.0, p.1.now)) result (reading.maybe (kind.Word word.Local) spec.locals tokens.now) }
{
    let Some((_, rest)) = next_word(tokens, Word::Local) else {
        return Ok((None, tokens));
    };
    let (names, rest) = more_names(Vec::new(alloc), rest)?;
    let (_, rest) = word(rest, Word::In)?;
    Ok((Some(names), rest))
}
