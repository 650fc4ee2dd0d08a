//! From the bytes of a file to the tree of its tokens.
ghost use Rattle.std.specs.Prelude.{◌≡◌, ◌≤◌, length, IfOk, IfErr};
ghost use Rattle.zl_lexer.specs.Facts.{AreTokens};
ghost use Rattle.zl_ast.specs.Parsed.{IsParsed};
ghost use Rattle.zl_compile.specs.Breaks.{RefusesBytes};
ghost use Rattle.zl_compile.specs.FileText.{IsText};
ghost use Rattle.zl_compile.specs.FileTree.{IsTreeOf};
ghost use Rattle.zl_compile.specs.Steps.{GivesTokens, GivesTree};

use crate::CompileAnswer;
use std::alloc::Global;
use zl_ast::Program;
use zl_lexer::{LexAnswer, Lexed, end_of, lex};
use zl_parser::{ParseAnswer, parse};
use zl_value::{Pos, Rule};

/// The most bytes that a file has.
const LONGEST_FILE: usize = 1_048_576;

/// The first place of a file.
const START: Pos = Pos { line: 1, column: 1 };

/// The bytes as text, or the first rule that they break before their tokens.
fn text_of(bytes: &[u8]) -> Result<&str, CompileAnswer>
    ensures text { IfOk result (λ text. IsText bytes.now × (text.now ≡ bytes.now)) }
    ensures refused { IfErr result (RefusesBytes bytes.now) }
{
    if bytes.len() > LONGEST_FILE {
        return Err(CompileAnswer::Refused {
            rule: Rule::Size,
            at: START,
        });
    }
    match std::str::from_utf8(bytes) {
        Ok(text) => Ok(text),
        Err(error) => {
            let Ok(valid) = std::str::from_utf8(&bytes[..error.valid_up_to()]) else {
                unreachable!()
            };
            Err(CompileAnswer::Refused {
                rule: Rule::Utf8,
                at: end_of(valid),
            })
        }
    }
}

/// The tokens of a text, or the first place at which it has none.
fn tokens_of(alloc: Global, text: &str) -> Result<Lexed, CompileAnswer>
    requires { length text.now ≤ 1048576 }
    ensures tokens { GivesTokens text.now result }
    ensures facts { IfOk result (λ l. AreTokens l.tokens l.names l.end) }
{
    match lex(alloc, text) {
        Ok(lexed) => Ok(lexed),
        Err(LexAnswer::BadToken { at }) => Err(CompileAnswer::Refused {
            rule: Rule::Token,
            at,
        }),
        Err(LexAnswer::Literal { at }) => Err(CompileAnswer::Refused {
            rule: Rule::Literal,
            at,
        }),
        Err(LexAnswer::Memory) => Err(CompileAnswer::Memory),
    }
}

/// The tree of a text's tokens, if they have one.
fn tree_of(alloc: Global, lexed: Lexed) -> Result<Program, CompileAnswer>
    requires { AreTokens lexed.tokens lexed.names lexed.end }
    ensures tree { GivesTree lexed.tokens lexed.names lexed.end result }
    ensures parsed { IfOk result IsParsed }
{
    match parse(alloc, lexed) {
        Ok(program) => Ok(program),
        Err(ParseAnswer::Parse { at, .. }) => Err(CompileAnswer::Refused {
            rule: Rule::Parse,
            at,
        }),
        Err(ParseAnswer::Deep { at, .. }) => Err(CompileAnswer::Refused {
            rule: Rule::Deep,
            at,
        }),
        Err(ParseAnswer::Memory) => Err(CompileAnswer::Memory),
    }
}

/// The tree of a file's bytes, or the first rule that they break before they have one.
pub(crate) fn program_of(alloc: Global, bytes: &[u8]) -> Result<Program, CompileAnswer>
    ensures tree { IfOk result (IsTreeOf bytes.now) }
    ensures parsed { IfOk result IsParsed }
    ensures refused { IfErr result (RefusesBytes bytes.now) }
{
    let text = text_of(bytes)?;
    let lexed = tokens_of(alloc, text)?;
    tree_of(alloc, lexed)
}
