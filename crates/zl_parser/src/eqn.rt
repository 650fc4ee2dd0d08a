//! Equations. Each function reads at the front of the tokens and answers what it read with the tokens behind it. The
//! depth is how many constructs may still be opened.
ghost use Rattle.std.specs.Prelude.{◌≡◌, ◌<◌, OnOk};
ghost use Rattle.zl_lexer.specs.declared.token.TokenKind.TheVariants as kind;
ghost use Rattle.zl_lexer.specs.declared.token.Sign.TheVariants as sign;
ghost use Rattle.zl_lexer.specs.declared.token.Word.TheVariants as word;
ghost use Rattle.zl_ast.specs.Reading as reading;
ghost use Rattle.zl_ast.specs.ReadingEquations as spec;
ghost use Rattle.zl_parser.specs.Giving.{Gives};
ghost use Rattle.zl_parser.specs.Blocks.{eqs_below};

use crate::cond::cond;
use crate::list::single;
use crate::moves::state_end;
use crate::names::locals;
use crate::stop::Stop;
use crate::token::{name, next_sign, next_word, past_sign, past_word, sign, word};
use crate::variable::{der, init, listed, one, several};
use sqlite_items::Items;
use std::alloc::Global;
use zl_ast::{Arm, Body, Eqn, Name, State};
use zl_lexer::{Sign, Token, TokenKind, Word};
use zl_value::Pos;

/// Equations with `and` between them.
#[cycle(eqn)]
#[tactic(auto, unfolding(zl_ast::specs::Reading::list_of, crate::proofs::Opening::steps))]
pub(crate) fn eqs(
    alloc: Global,
    depth: u8,
    tokens: &[Token],
) -> Result<(Items<Eqn>, &[Token]), Stop>
    ensures { Gives (λ p. (p.0, p.1.now)) result (spec.read_eqs depth tokens.now) }
{
    let (first, after) = eqn(alloc, depth, tokens)?;
    let mut eqs = single(alloc, first)?;
    let mut rest = after;
    for _turn in 0..after.len() {
        let Some((_, behind)) = next_word(rest, Word::And) else {
            break;
        };
        let (next, behind) = eqn(alloc, depth, behind)?;
        eqs.push(next)?;
        rest = behind;
    }
    Ok((Items::from_vec(eqs), rest))
}

#[cycle(eqn)]
#[tactic(auto, unfolding(zl_ast::specs::ReadingEquations::eqn, zl_ast::specs::ReadingEquations::eqn_at, crate::proofs::Opening::steps))]
fn eqn(alloc: Global, depth: u8, tokens: &[Token]) -> Result<(Eqn, &[Token]), Stop>
    ensures { Gives (λ p. (p.0, p.1.now)) result (spec.eqn depth (eqs_below depth) tokens.now) }
{
    let Some((first, rest)) = tokens.split_first() else {
        return Err(Stop::Parse(0));
    };
    let at = first.at;
    match first.kind {
        TokenKind::Name(id) => one(alloc, depth, Name { id, at }, rest),
        TokenKind::Sign(Sign::Open) => several(alloc, depth, at, tokens),
        TokenKind::Word(Word::Der) => der(alloc, depth, at, rest),
        TokenKind::Word(Word::Init) => init(alloc, depth, at, rest),
        TokenKind::Word(Word::Present) => present(alloc, depth, at, rest),
        TokenKind::Word(Word::Automaton) => automaton(alloc, depth, at, rest),
        TokenKind::Word(Word::Reset) => reset(alloc, depth, at, rest),
        _ => Err(Stop::Parse(tokens.len())),
    }
}

/// `present cond -> body | .. else other end`, behind its first word.
#[cycle(eqn)]
#[tactic(auto, unfolding(zl_ast::specs::ReadingEquations::eqn_at, crate::proofs::Opening::steps))]
fn present(alloc: Global, depth: u8, at: Pos, tokens: &[Token]) -> Result<(Eqn, &[Token]), Stop>
    ensures { Gives (λ p. (p.0, p.1.now)) result
        (spec.eqn_at depth (eqs_below depth) tokens.now at tokens.now (kind.Word word.Present)) }
{
    let (arms, rest) = arms(alloc, depth, past_sign(tokens, Sign::Bar))?;
    let (other, rest) = other(alloc, depth, rest)?;
    Ok((Eqn::Present { at, arms, other }, past_word(rest, Word::End)))
}

#[cycle(eqn)]
#[tactic(auto, unfolding(zl_ast::specs::Reading::list_of, crate::proofs::Opening::steps))]
fn arms(alloc: Global, depth: u8, tokens: &[Token]) -> Result<(Items<Arm>, &[Token]), Stop>
    ensures { Gives (λ p. (p.0, p.1.now)) result
        (reading.list_of (kind.Sign sign.Bar) (spec.arm depth (eqs_below depth)) tokens.now) }
{
    let (first, after) = arm(alloc, depth, tokens)?;
    let mut arms = single(alloc, first)?;
    let mut rest = after;
    for _turn in 0..after.len() {
        let Some((_, behind)) = next_sign(rest, Sign::Bar) else {
            break;
        };
        let (next, behind) = arm(alloc, depth, behind)?;
        arms.push(next)?;
        rest = behind;
    }
    Ok((Items::from_vec(arms), rest))
}

/// `cond -> body`
#[cycle(eqn)]
#[tactic(auto, unfolding(zl_ast::specs::ReadingEquations::arm, crate::proofs::Opening::steps))]
fn arm(alloc: Global, depth: u8, tokens: &[Token]) -> Result<(Arm, &[Token]), Stop>
    ensures { Gives (λ p. (p.0, p.1.now)) result (spec.arm depth (eqs_below depth) tokens.now) }
{
    let (cond, rest) = cond(alloc, depth, tokens)?;
    let (_, rest) = sign(rest, Sign::Arrow)?;
    let (body, rest) = body(alloc, depth, rest)?;
    Ok((Arm { cond, body }, rest))
}

/// The body behind `else`, if it is next.
#[cycle(eqn)]
#[tactic(auto, unfolding(zl_ast::specs::Reading::maybe, crate::proofs::Opening::steps))]
fn other(alloc: Global, depth: u8, tokens: &[Token]) -> Result<(Option<Body>, &[Token]), Stop>
    ensures { Gives (λ p. (p.0, p.1.now)) result
        (reading.maybe (kind.Word word.Else) (spec.body depth (eqs_below depth)) tokens.now) }
{
    let Some((_, rest)) = next_word(tokens, Word::Else) else {
        return Ok((None, tokens));
    };
    let (body, rest) = body(alloc, depth, rest)?;
    Ok((Some(body), rest))
}

/// `local x, y in do eqs done`
#[cycle(eqn)]
#[tactic(auto, unfolding(zl_ast::specs::ReadingEquations::body, crate::proofs::Opening::steps))]
fn body(alloc: Global, depth: u8, tokens: &[Token]) -> Result<(Body, &[Token]), Stop>
    ensures { Gives (λ p. (p.0, p.1.now)) result (spec.body depth (eqs_below depth) tokens.now) }
{
    let (locals, rest) = locals(alloc, tokens)?;
    let (_, rest) = word(rest, Word::Do)?;
    let (eqs, rest) = do_eqs(alloc, depth, rest)?;
    let (_, rest) = word(rest, Word::Done)?;
    let locals = listed(alloc, locals);
    Ok((Body { locals, eqs }, rest))
}

/// `automaton state -> body | .. end`, behind its first word.
#[cycle(eqn)]
#[tactic(auto, unfolding(zl_ast::specs::ReadingEquations::eqn_at, crate::proofs::Opening::steps))]
fn automaton(alloc: Global, depth: u8, at: Pos, tokens: &[Token]) -> Result<(Eqn, &[Token]), Stop>
    ensures { Gives (λ p. (p.0, p.1.now)) result
        (spec.eqn_at depth (eqs_below depth) tokens.now at tokens.now (kind.Word word.Automaton)) }
{
    let (states, rest) = states(alloc, depth, past_sign(tokens, Sign::Bar))?;
    Ok((Eqn::Automaton { at, states }, past_word(rest, Word::End)))
}

#[cycle(eqn)]
#[tactic(auto, unfolding(zl_ast::specs::Reading::list_of, crate::proofs::Opening::steps))]
fn states(alloc: Global, depth: u8, tokens: &[Token]) -> Result<(Items<State>, &[Token]), Stop>
    ensures { Gives (λ p. (p.0, p.1.now)) result
        (reading.list_of (kind.Sign sign.Bar) (spec.state depth (eqs_below depth)) tokens.now) }
{
    let (first, after) = state(alloc, depth, tokens)?;
    let mut states = single(alloc, first)?;
    let mut rest = after;
    for _turn in 0..after.len() {
        let Some((_, behind)) = next_sign(rest, Sign::Bar) else {
            break;
        };
        let (next, behind) = state(alloc, depth, behind)?;
        states.push(next)?;
        rest = behind;
    }
    Ok((Items::from_vec(states), rest))
}

/// `name -> local x, y in do eqs`, and `done` or moves.
#[cycle(eqn)]
#[tactic(auto, using(crate::proofs::BlockDepths::less_is), unfolding(zl_ast::specs::ReadingEquations::state, crate::proofs::Opening::steps))]
fn state(alloc: Global, depth: u8, tokens: &[Token]) -> Result<(State, &[Token]), Stop>
    ensures { Gives (λ p. (p.0, p.1.now)) result (spec.state depth (eqs_below depth) tokens.now) }
{
    let (name, rest) = name(tokens)?;
    let (_, rest) = sign(rest, Sign::Arrow)?;
    let (locals, rest) = locals(alloc, rest)?;
    let (_, rest) = word(rest, Word::Do)?;
    let (eqs, rest) = do_eqs(alloc, depth, rest)?;
    let (moves, rest) = state_end(alloc, depth - 1, rest)?;
    let locals = listed(alloc, locals);
    let body = Body { locals, eqs };
    Ok((State { name, body, moves }, rest))
}

/// `reset eqs every cond`, behind its first word.
#[cycle(eqn)]
#[tactic(auto, using(crate::proofs::BlockDepths::less_is), unfolding(zl_ast::specs::ReadingEquations::eqn_at, crate::proofs::Opening::steps))]
fn reset(alloc: Global, depth: u8, at: Pos, tokens: &[Token]) -> Result<(Eqn, &[Token]), Stop>
    ensures { Gives (λ p. (p.0, p.1.now)) result
        (spec.eqn_at depth (eqs_below depth) tokens.now at tokens.now (kind.Word word.Reset)) }
{
    let (eqs, rest) = below(alloc, depth, tokens)?;
    let (_, rest) = word(rest, Word::Every)?;
    let (cond, rest) = cond(alloc, depth - 1, rest)?;
    Ok((Eqn::Reset { at, eqs, cond }, rest))
}

/// The equations behind a `do`, of which there may be none.
#[cycle(eqn)]
fn do_eqs(alloc: Global, depth: u8, tokens: &[Token]) -> Result<(Items<Eqn>, &[Token]), Stop>
    ensures eqs { Gives (λ p. (p.0, p.1.now)) result
        (reading.inside depth (spec.do_eqs (eqs_below depth)) tokens.now) }
    ensures opened { OnOk result (0 < depth) }
{
    if depth == 0 {
        return Err(Stop::Deep(tokens.len() + 1));
    }
    if ends_do(tokens) {
        return Ok((Items::new(alloc), tokens));
    }
    eqs(alloc, depth - 1, tokens)
}

/// Whether `done`, `until` or `unless` is next.
#[tactic(auto, unfolding(zl_ast::specs::ReadingEquations::do_ends, crate::proofs::Opening::steps))]
fn ends_do(tokens: &[Token]) -> bool
    ensures { result ≡ spec.do_ends tokens.now }
{
    match tokens.split_first() {
        Some((first, _)) => match first.kind {
            TokenKind::Word(Word::Done) => true,
            TokenKind::Word(Word::Until) => true,
            TokenKind::Word(Word::Unless) => true,
            _ => false,
        },
        None => false,
    }
}

/// Equations inside a construct that the token just before opens.
#[cycle(eqn)]
fn below(alloc: Global, depth: u8, tokens: &[Token]) -> Result<(Items<Eqn>, &[Token]), Stop>
    ensures eqs { Gives (λ p. (p.0, p.1.now)) result (reading.inside depth (eqs_below depth) tokens.now) }
    ensures opened { OnOk result (0 < depth) }
{
    if depth == 0 {
        return Err(Stop::Deep(tokens.len() + 1));
    }
    eqs(alloc, depth - 1, tokens)
}
