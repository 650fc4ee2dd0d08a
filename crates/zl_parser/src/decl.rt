//! Declarations. The depth is how many constructs may still be opened.
ghost use Rattle.std.specs.Prelude.{◌≡◌, map, IfOk};
ghost use Rattle.zl_lexer.specs.declared.token.TokenKind.TheVariants as kind;
ghost use Rattle.zl_lexer.specs.declared.token.Sign.TheVariants as sign;
ghost use Rattle.zl_lexer.specs.declared.token.Word.TheVariants as word;
ghost use Rattle.zl_ast.specs.Declarations.{tuple_next};
ghost use Rattle.zl_ast.specs.Reading as reading;
ghost use Rattle.zl_ast.specs.ReadingEquations.{read_eqs};
ghost use Rattle.zl_ast.specs.ReadingDeclarations as spec;
ghost use Rattle.zl_parser.specs.Giving.{Gives};

use crate::eqn::eqs;
use crate::expr::expr;
use crate::list::single;
use crate::names::tuple;
use crate::operator::{next_decl_kind, next_type};
use crate::stop::Stop;
use crate::token::{has_sign, name, next_sign, next_word, past_word, sign, word};
use crate::variable::listed;
use sqlite_items::Items;
use std::alloc::{AllocError, Global};
use zl_ast::{Decl, DeclKind, Eqn, Expr, Name, Param};
use zl_lexer::{Sign, Token, TokenKind, Word};
use zl_value::Ty;

/// All declarations of a program.
pub(crate) fn decls(alloc: Global, depth: u8, tokens: &[Token]) -> Result<Items<Decl>, Stop>
    ensures { Gives (λ x. x) result (spec.read_program depth tokens.now) }
{
    let mut decls = Vec::new(alloc);
    let mut rest = tokens;
    for _turn in 0..tokens.len() {
        if rest.is_empty() {
            break;
        }
        let (next, behind) = decl(alloc, depth, rest)?;
        decls.push(next)?;
        rest = behind;
    }
    if !rest.is_empty() {
        return Err(Stop::Parse(rest.len()));
    }
    Ok(Items::from_vec(decls))
}

#[tactic(auto, unfolding(zl_ast::specs::ReadingDeclarations::decl, crate::proofs::Opening::steps))]
fn decl(alloc: Global, depth: u8, tokens: &[Token]) -> Result<(Decl, &[Token]), Stop>
    ensures { Gives (λ p. (p.0, p.1.now)) result (spec.decl depth tokens.now) }
{
    let (_, rest) = word(tokens, Word::Let)?;
    if let Some((kind, _, rest)) = next_decl_kind(rest) {
        let (name, rest) = name(rest)?;
        return function(alloc, depth, kind, name, rest);
    }
    let (name, rest) = name(rest)?;
    if has_sign(rest, Sign::Equal) {
        constant(alloc, depth, name, rest)
    } else {
        function(alloc, depth, DeclKind::Function, name, rest)
    }
}

/// The value of a constant, behind its name.
#[tactic(auto, unfolding(crate::proofs::Opening::steps))]
fn constant(
    alloc: Global,
    depth: u8,
    name: Name,
    tokens: &[Token],
) -> Result<(Decl, &[Token]), Stop>
    ensures { Gives (λ p. (p.0, p.1.now)) result (spec.constant depth name tokens.now) }
{
    let (_, rest) = sign(tokens, Sign::Equal)?;
    let (value, rest) = expr(alloc, depth, rest)?;
    let results = Items::from_vec(single(alloc, value)?);
    let constant = Decl {
        kind: DeclKind::Constant,
        name,
        params: Items::new(alloc),
        results,
        eqs: Items::new(alloc),
    };
    Ok((constant, rest))
}

/// A function, a node or a hybrid, behind its name.
#[tactic(auto, unfolding(crate::proofs::Opening::steps))]
fn function(
    alloc: Global,
    depth: u8,
    kind: DeclKind,
    name: Name,
    tokens: &[Token],
) -> Result<(Decl, &[Token]), Stop>
    ensures { Gives (λ p. (p.0, p.1.now)) result (spec.function depth kind name tokens.now) }
{
    let (_, rest) = sign(tokens, Sign::Open)?;
    let (params, rest) = params(alloc, depth, rest)?;
    let (_, rest) = sign(rest, Sign::Equal)?;
    let (results, rest) = results(alloc, depth, rest)?;
    let (eqs, rest) = where_part(alloc, depth, rest)?;
    let function = Decl {
        kind,
        name,
        params,
        results,
        eqs: listed(alloc, eqs),
    };
    Ok((function, rest))
}

/// The parameters of a function, behind the `(` that opens them, and the `)`.
#[tactic(auto, unfolding(zl_ast::specs::Reading::inside, zl_ast::specs::Reading::to_close, crate::proofs::Opening::steps))]
fn params(alloc: Global, depth: u8, tokens: &[Token]) -> Result<(Items<Param>, &[Token]), Stop>
    ensures { Gives (λ p. (p.0, p.1.now)) result
        (reading.inside depth (reading.to_close spec.param) tokens.now) }
{
    if depth == 0 {
        return Err(Stop::Deep(tokens.len() + 1));
    }
    if has_sign(tokens, Sign::Close) {
        let (_, rest) = sign(tokens, Sign::Close)?;
        return Ok((Items::new(alloc), rest));
    }
    let (params, rest) = some_params(alloc, tokens)?;
    let (_, rest) = sign(rest, Sign::Close)?;
    Ok((params, rest))
}

#[tactic(auto, unfolding(zl_ast::specs::Reading::list_of, crate::proofs::Opening::steps))]
fn some_params(alloc: Global, tokens: &[Token]) -> Result<(Items<Param>, &[Token]), Stop>
    ensures { Gives (λ p. (p.0, p.1.now)) result (reading.list_of (kind.Sign sign.Comma) spec.param tokens.now) }
{
    let (first, after) = param(tokens)?;
    let mut params = single(alloc, first)?;
    let mut rest = after;
    for _turn in 0..after.len() {
        let Some((_, behind)) = next_sign(rest, Sign::Comma) else {
            break;
        };
        let (next, behind) = param(behind)?;
        params.push(next)?;
        rest = behind;
    }
    Ok((Items::from_vec(params), rest))
}

/// A name, with its type if that is written.
#[tactic(auto, unfolding(zl_ast::specs::ReadingDeclarations::param, crate::proofs::Opening::steps))]
fn param(tokens: &[Token]) -> Result<(Param, &[Token]), Stop>
    ensures { Gives (λ p. (p.0, p.1.now)) result (spec.param tokens.now) }
{
    let (name, rest) = name(tokens)?;
    let (ty, rest) = annotation(rest)?;
    Ok((Param { name, ty }, rest))
}

/// The type behind `:`, if it is next.
#[tactic(auto, unfolding(zl_ast::specs::Reading::maybe, zl_ast::specs::ReadingDeclarations::type_of, crate::proofs::Opening::steps))]
fn annotation(tokens: &[Token]) -> Result<(Option<Ty>, &[Token]), Stop>
    ensures { Gives (λ p. (p.0, p.1.now)) result (reading.maybe (kind.Sign sign.Colon) spec.type_of tokens.now) }
{
    let Some((_, rest)) = next_sign(tokens, Sign::Colon) else {
        return Ok((None, tokens));
    };
    match next_type(rest) {
        Some((ty, _, rest)) => Ok((Some(ty), rest)),
        None => Err(Stop::Parse(rest.len())),
    }
}

/// One expression, or at least two names in parentheses.
#[tactic(auto, unfolding(zl_ast::specs::ReadingDeclarations::result, crate::proofs::Opening::steps))]
fn results(alloc: Global, depth: u8, tokens: &[Token]) -> Result<(Items<Expr>, &[Token]), Stop>
    ensures { Gives (λ p. (p.0, p.1.now)) result (spec.result depth tokens.now) }
{
    if begins_tuple(tokens) {
        let (names, rest) = tuple(alloc, depth, tokens)?;
        return Ok((variables(alloc, names.as_slice())?, rest));
    }
    let (value, rest) = expr(alloc, depth, tokens)?;
    let results = Items::from_vec(single(alloc, value)?);
    Ok((results, rest))
}

/// Whether a `(`, a name and a comma are next.
fn begins_tuple(tokens: &[Token]) -> bool
    ensures { result ≡ tuple_next tokens.now }
{
    let Some((open, rest)) = tokens.split_first() else {
        return false;
    };
    let Some((name, rest)) = rest.split_first() else {
        return false;
    };
    let Some((comma, _)) = rest.split_first() else {
        return false;
    };
    matches!(open.kind, TokenKind::Sign(Sign::Open))
        && matches!(name.kind, TokenKind::Name(_))
        && matches!(comma.kind, TokenKind::Sign(Sign::Comma))
}

/// The variables of these names.
fn variables(alloc: Global, names: &[Name]) -> Result<Items<Expr>, AllocError>
    ensures { IfOk result (λ variables. variables ≡ map Expr.Var names.now) }
{
    let mut variables = Vec::new(alloc);
    for name in names {
        variables.push(Expr::Var(*name))?;
    }
    Ok(Items::from_vec(variables))
}

/// The equations of `where rec eqs`, if it is next.
#[tactic(auto, unfolding(zl_ast::specs::Reading::maybe, zl_ast::specs::ReadingDeclarations::where_part, crate::proofs::Opening::steps))]
fn where_part(
    alloc: Global,
    depth: u8,
    tokens: &[Token],
) -> Result<(Option<Items<Eqn>>, &[Token]), Stop>
    ensures { Gives (λ p. (p.0, p.1.now)) result
        (reading.maybe (kind.Word word.Where) (spec.where_part depth) tokens.now) }
{
    let Some((_, rest)) = next_word(tokens, Word::Where) else {
        return Ok((None, tokens));
    };
    let (eqs, rest) = eqs(alloc, depth, past_word(rest, Word::Rec))?;
    Ok((Some(eqs), rest))
}
