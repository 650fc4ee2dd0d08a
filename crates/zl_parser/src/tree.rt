ghost use Rattle.std.specs.Prelude.{◌≡◌, length, IfOk, IfErr};
ghost use Rattle.zl_lexer.specs.Facts.{AreTokens};
ghost use Rattle.zl_ast.specs.declared.program.Program.{Program as TheProgram};
ghost use Rattle.zl_ast.specs.Declarations.{IsProgram, nesting_limit};
ghost use Rattle.zl_ast.specs.Parsed.{IsParsed};
ghost use Rattle.zl_ast.specs.ReadingDeclarations.{read_program};
ghost use Rattle.zl_parser.specs.Giving.{Gives};
ghost use Rattle.zl_parser.specs.ParseAnswers.{IsAnswered, HasNoTree, StandsAt, ReadingStops, NoneGoesOn, IsWithin, answer_of, place_of};

use crate::ParseAnswer;
use crate::decl::decls;
use crate::stop::Stop;
use sqlite_items::Items;
use std::alloc::Global;
use zl_ast::{Decl, Program};
use zl_lexer::{Lexed, Token};
use zl_value::Pos;

/// How many constructs may be open at a token. This project's own.
const NESTING_LIMIT: u8 = 64;

/// The tree of a file's tokens, with at most 64 constructs open at a token. `Parse` at a token with which no program goes
/// on, or at the end of the text, and `Deep` at a token that would open a construct too many; each only where the tokens
/// have no tree. The grammar is a part of Zélus's, and the limit this project's own.
pub fn parse(alloc: Global, lexed: Lexed) -> Result<Program, ParseAnswer>
    ensures found { IfOk result (IsProgram nesting_limit lexed.tokens) }
    ensures names { IfOk result (λ p. p.names ≡ lexed.names) }
    ensures parsed { AreTokens lexed.tokens lexed.names lexed.end → IfOk result IsParsed }
    // A tree of the tokens is the answer, unless memory runs out.
    ensures only { (p : TheProgram) → IsProgram nesting_limit lexed.tokens p → IsAnswered result p.decls }
    ensures refused { IfErr result (HasNoTree lexed.tokens) }
    ensures place { IfErr result (StandsAt lexed.tokens lexed.end) }
    ensures stops { IfErr result (ReadingStops lexed.tokens) }
    ensures ends { IfErr result (NoneGoesOn lexed.tokens) }
{
    let Lexed { tokens, names, end } = lexed;
    match program(alloc, tokens.as_slice()) {
        Ok(decls) => Ok(Program { decls, names }),
        Err(stop) => Err(answer(stop, tokens.as_slice(), end)),
    }
}

/// What reading the tokens gives.
fn program(alloc: Global, tokens: &[Token]) -> Result<Items<Decl>, Stop>
    ensures { Gives (λ x. x) result (read_program nesting_limit tokens.now) }
{
    decls(alloc, NESTING_LIMIT, tokens)
}

/// The answer for a stop, with the place at which it stands.
fn answer(stop: Stop, tokens: &[Token], end: Pos) -> ParseAnswer
    requires { IsWithin stop (length tokens.now) }
    ensures { result ≡ answer_of tokens.now end stop }
{
    match stop {
        Stop::Parse(left) => {
            let token = tokens.len() - left;
            let at = place(tokens, token, end);
            ParseAnswer::Parse { token, at }
        }
        Stop::Deep(left) => {
            let token = tokens.len() - left;
            let at = place(tokens, token, end);
            ParseAnswer::Deep { token, at }
        }
        Stop::Memory => ParseAnswer::Memory,
    }
}

/// The place of a token, or the end of the text behind the last one.
fn place(tokens: &[Token], token: usize, end: Pos) -> Pos
    ensures { result ≡ place_of tokens.now end token }
{
    match tokens.get(token) {
        Some(token) => token.at,
        None => end,
    }
}
