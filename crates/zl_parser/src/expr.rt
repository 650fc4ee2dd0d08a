//! Expressions. Each function reads at the front of the tokens and answers what it read with the tokens behind it. The
//! depth is how many constructs may still be opened.
ghost use Rattle.std.specs.Prelude.{◌≡◌, true, false, drop, None, MatchOption, IfOk};
ghost use Rattle.zl_lexer.specs.declared.token.TokenKind.TheVariants as kind;
ghost use Rattle.zl_lexer.specs.declared.token.Sign.TheVariants as sign;
ghost use Rattle.zl_ast.specs.Expressions.{chained};
ghost use Rattle.zl_ast.specs.Reading as reading;
ghost use Rattle.zl_ast.specs.ReadingExpressions as spec;
ghost use Rattle.zl_ast.specs.ReadingEquations.{expr_below};
ghost use Rattle.zl_parser.specs.Giving.{Gives};
ghost use Rattle.zl_parser.specs.Levels.{operator_of, part_of, pref_below, IsNegative};

use crate::list::{put, single};
use crate::operator::{Level, next_flow_op, next_infix, next_prefix};
use crate::stop::Stop;
use crate::token::{has_sign, has_word, name, next_sign, sign, word};
use sqlite_items::{Boxed, Items};
use std::alloc::{AllocError, Global};
use zl_ast::{Expr, Link, Name, Prefix};
use zl_lexer::{Sign, Token, TokenKind, Word};
use zl_value::{Pos, Value};

/// `if`, or a disjunction that may have `->` or `fby` behind it.
#[cycle(expr)]
#[tactic(auto, unfolding(zl_ast::specs::ReadingExpressions::expr_of))]
pub(crate) fn expr(alloc: Global, depth: u8, tokens: &[Token]) -> Result<(Expr, &[Token]), Stop>
    ensures { Gives (λ p. (p.0, p.1.now)) result (spec.read_expr depth tokens.now) }
{
    if has_word(tokens, Word::If) {
        choice(alloc, depth, tokens)
    } else {
        flow(alloc, depth, tokens)
    }
}

#[cycle(expr)]
#[tactic(auto, unfolding(crate::proofs::Opening::steps))]
fn choice(alloc: Global, depth: u8, tokens: &[Token]) -> Result<(Expr, &[Token]), Stop>
    ensures { Gives (λ p. (p.0, p.1.now)) result
        (spec.expr_at true depth (expr_below depth) (pref_below depth) tokens.now) }
{
    let (at, rest) = word(tokens, Word::If)?;
    let (cond, rest) = below(alloc, depth, rest)?;
    let (_, rest) = word(rest, Word::Then)?;
    let (yes, rest) = below(alloc, depth, rest)?;
    let (_, rest) = word(rest, Word::Else)?;
    let (no, rest) = below(alloc, depth, rest)?;
    let choice = Expr::If {
        at,
        cond: Boxed::new(alloc, cond)?,
        yes: Boxed::new(alloc, yes)?,
        no: Boxed::new(alloc, no)?,
    };
    Ok((choice, rest))
}

#[cycle(expr)]
#[tactic(auto, unfolding(crate::proofs::Opening::steps))]
fn flow(alloc: Global, depth: u8, tokens: &[Token]) -> Result<(Expr, &[Token]), Stop>
    ensures { Gives (λ p. (p.0, p.1.now)) result
        (spec.expr_at false depth (expr_below depth) (pref_below depth) tokens.now) }
{
    let (left, rest) = chain(alloc, Level::Disjunction, depth, tokens)?;
    let Some((op, at, after)) = next_flow_op(rest) else {
        return Ok((left, rest));
    };
    let (right, rest) = below(alloc, depth, after)?;
    let flow = Expr::Flow {
        op,
        at,
        left: Boxed::new(alloc, left)?,
        right: Boxed::new(alloc, right)?,
    };
    Ok((flow, rest))
}

/// Operands with operators of one level between them, grouped from the left.
#[cycle(expr)]
#[tactic(auto, unfolding(zl_ast::specs::ReadingExpressions::level, crate::proofs::Opening::steps))]
fn chain(alloc: Global, level: Level, depth: u8, tokens: &[Token]) -> Result<(Expr, &[Token]), Stop>
    ensures { Gives (λ p. (p.0, p.1.now)) result
        (spec.level (operator_of level) (part_of level depth) tokens.now) }
{
    let (first, after) = part(alloc, level, depth, tokens)?;
    let mut links = Vec::new(alloc);
    let mut rest = after;
    for _turn in 0..after.len() {
        let Some((op, at, behind)) = next_infix(level, rest) else {
            break;
        };
        let (arg, behind) = part(alloc, level, depth, behind)?;
        put(&mut links, Link { op, at, arg })?;
        rest = behind;
    }
    Ok((chained(alloc, first, links)?, rest))
}

/// A first operand with operators and operands behind it.
fn chained(alloc: Global, first: Expr, links: Vec<Link>) -> Result<Expr, AllocError>
    ensures { IfOk result (λ x. x ≡ chained first links.items) }
{
    if links.is_empty() {
        return Ok(first);
    }
    Ok(Expr::Chain {
        first: Boxed::new(alloc, first)?,
        rest: Items::from_vec(links),
    })
}

/// What stands between the operators of a level.
#[cycle(expr)]
fn part(alloc: Global, level: Level, depth: u8, tokens: &[Token]) -> Result<(Expr, &[Token]), Stop>
    ensures { Gives (λ p. (p.0, p.1.now)) result (part_of level depth tokens.now) }
{
    match level {
        Level::Disjunction => chain(alloc, Level::Conjunction, depth, tokens),
        Level::Conjunction => comparison(alloc, depth, tokens),
        Level::Comparison => chain(alloc, Level::Addition, depth, tokens),
        Level::Addition => chain(alloc, Level::Multiplication, depth, tokens),
        Level::Multiplication => pref(alloc, depth, tokens),
    }
}

/// A sum, or two with an operator of comparison between them.
#[cycle(expr)]
#[tactic(auto, unfolding(zl_ast::specs::ReadingExpressions::cmp, crate::proofs::Opening::steps))]
fn comparison(alloc: Global, depth: u8, tokens: &[Token]) -> Result<(Expr, &[Token]), Stop>
    ensures { Gives (λ p. (p.0, p.1.now)) result (part_of Level.Conjunction depth tokens.now) }
{
    let (left, rest) = part(alloc, Level::Comparison, depth, tokens)?;
    let Some((op, at, after)) = next_infix(Level::Comparison, rest) else {
        return Ok((left, rest));
    };
    let (arg, rest) = part(alloc, Level::Comparison, depth, after)?;
    let links = Items::from_vec(single(alloc, Link { op, at, arg })?);
    let compared = Expr::Chain {
        first: Boxed::new(alloc, left)?,
        rest: links,
    };
    Ok((compared, rest))
}

/// An atom with prefix operators before it. `-` and a FLOAT are one number.
#[cycle(expr)]
#[tactic(auto, unfolding(crate::proofs::Opening::steps))]
fn pref(alloc: Global, depth: u8, tokens: &[Token]) -> Result<(Expr, &[Token]), Stop>
    ensures { Gives (λ p. (p.0, p.1.now)) result
        (spec.pref depth (expr_below depth) (pref_below depth) tokens.now) }
{
    let Some((op, at, rest)) = next_prefix(tokens) else {
        return atom(alloc, depth, tokens);
    };
    if let Some(literal) = negative(op, at, rest) {
        return Ok(literal);
    }
    let (arg, rest) = operand(alloc, depth, rest)?;
    let arg = Boxed::new(alloc, arg)?;
    Ok((Expr::Prefix { op, at, arg }, rest))
}

/// The literal of a `-` at this place and a FLOAT that is next, and the tokens behind it.
#[tactic(auto, unfolding(zl_ast::specs::Reading::next_in))]
fn negative(op: Prefix, at: Pos, tokens: &[Token]) -> Option<(Expr, &[Token])>
    ensures { MatchOption result (spec.negated op tokens.now ≡ None)
        (λ p. IsNegative (spec.negated op tokens.now) at p.0 × (p.1.now ≡ drop 1 tokens.now)) }
{
    if op != Prefix::Minus {
        return None;
    }
    let (first, rest) = tokens.split_first()?;
    match first.kind {
        TokenKind::Float(number) => Some((literal(Value::F(number.neg()), at), rest)),
        _ => None,
    }
}

/// The operand of a prefix operator that opens a construct.
#[cycle(expr)]
#[tactic(auto, unfolding(zl_ast::specs::Reading::inside))]
fn operand(alloc: Global, depth: u8, tokens: &[Token]) -> Result<(Expr, &[Token]), Stop>
    ensures { Gives (λ p. (p.0, p.1.now)) result (reading.inside depth (pref_below depth) tokens.now) }
{
    if depth == 0 {
        return Err(Stop::Deep(tokens.len() + 1));
    }
    pref(alloc, depth - 1, tokens)
}

#[cycle(expr)]
#[tactic(auto, unfolding(zl_ast::specs::ReadingExpressions::atom, zl_ast::specs::ReadingExpressions::atom_at, crate::proofs::Opening::steps))]
fn atom(alloc: Global, depth: u8, tokens: &[Token]) -> Result<(Expr, &[Token]), Stop>
    ensures { Gives (λ p. (p.0, p.1.now)) result (spec.atom depth (expr_below depth) tokens.now) }
{
    let Some((first, rest)) = tokens.split_first() else {
        return Err(Stop::Parse(0));
    };
    let at = first.at;
    match first.kind {
        TokenKind::Int(value) => Ok((literal(Value::I(value), at), rest)),
        TokenKind::Float(value) => Ok((literal(Value::F(value), at), rest)),
        TokenKind::Word(Word::True) => Ok((literal(Value::B(true), at), rest)),
        TokenKind::Word(Word::False) => Ok((literal(Value::B(false), at), rest)),
        TokenKind::Name(id) => name_or_call(alloc, depth, Name { id, at }, rest),
        TokenKind::Word(Word::Last) => {
            let (name, rest) = name(rest)?;
            Ok((Expr::Last { name, at }, rest))
        }
        TokenKind::Sign(Sign::Open) => {
            let (inner, rest) = below(alloc, depth, rest)?;
            let (_, rest) = sign(rest, Sign::Close)?;
            Ok((inner, rest))
        }
        _ => Err(Stop::Parse(tokens.len())),
    }
}

fn literal(value: Value, at: Pos) -> Expr
    ensures { result ≡ Expr.Lit value at }
{
    Expr::Lit { value, at }
}

/// A name that was read, or a call of it.
#[cycle(expr)]
#[tactic(auto, unfolding(crate::proofs::Opening::steps))]
fn name_or_call(
    alloc: Global,
    depth: u8,
    name: Name,
    tokens: &[Token],
) -> Result<(Expr, &[Token]), Stop>
    ensures { Gives (λ p. (p.0, p.1.now)) result
        (spec.name_or_call (reading.next_is (kind.Sign sign.Open) tokens.now) depth (expr_below depth) name tokens.now) }
{
    if !has_sign(tokens, Sign::Open) {
        return Ok((Expr::Var(name), tokens));
    }
    let (_, rest) = sign(tokens, Sign::Open)?;
    let (args, rest) = args(alloc, depth, rest)?;
    Ok((Expr::Call { name, args }, rest))
}

/// The arguments of a call, behind the `(` that opens it, and the `)`.
#[cycle(expr)]
#[tactic(auto, unfolding(zl_ast::specs::Reading::inside, zl_ast::specs::Reading::to_close, crate::proofs::Opening::steps))]
pub(crate) fn args(
    alloc: Global,
    depth: u8,
    tokens: &[Token],
) -> Result<(Items<Expr>, &[Token]), Stop>
    ensures { Gives (λ p. (p.0, p.1.now)) result
        (reading.inside depth (reading.to_close (expr_below depth)) tokens.now) }
{
    if depth == 0 {
        return Err(Stop::Deep(tokens.len() + 1));
    }
    if has_sign(tokens, Sign::Close) {
        let (_, rest) = sign(tokens, Sign::Close)?;
        return Ok((Items::new(alloc), rest));
    }
    let (args, rest) = exprs(alloc, depth, tokens)?;
    let (_, rest) = sign(rest, Sign::Close)?;
    Ok((args, rest))
}

#[cycle(expr)]
#[tactic(auto, unfolding(zl_ast::specs::Reading::list_of, crate::proofs::Opening::steps))]
fn exprs(alloc: Global, depth: u8, tokens: &[Token]) -> Result<(Items<Expr>, &[Token]), Stop>
    ensures { Gives (λ p. (p.0, p.1.now)) result
        (reading.list_of (kind.Sign sign.Comma) (expr_below depth) tokens.now) }
{
    let (first, after) = below(alloc, depth, tokens)?;
    let mut exprs = single(alloc, first)?;
    let mut rest = after;
    for _turn in 0..after.len() {
        let Some((_, behind)) = next_sign(rest, Sign::Comma) else {
            break;
        };
        let (next, behind) = below(alloc, depth, behind)?;
        exprs.push(next)?;
        rest = behind;
    }
    Ok((Items::from_vec(exprs), rest))
}

/// An expression inside a construct that the token just before opens.
#[cycle(expr)]
pub(crate) fn below(alloc: Global, depth: u8, tokens: &[Token]) -> Result<(Expr, &[Token]), Stop>
    ensures expr { Gives (λ p. (p.0, p.1.now)) result (expr_below depth tokens.now) }
    ensures inside { Gives (λ p. (p.0, p.1.now)) result (reading.inside depth (expr_below depth) tokens.now) }
{
    if depth == 0 {
        return Err(Stop::Deep(tokens.len() + 1));
    }
    expr(alloc, depth - 1, tokens)
}
