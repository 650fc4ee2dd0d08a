//! The way of a text through the calls of the front.
ghost use Rattle.std.specs.Prelude.{IfOk};
ghost use Rattle.zl_lexer.specs.Facts.{AreTokens};
ghost use Rattle.zl_ast.specs.Parsed.{IsParsed};
ghost use Rattle.zl_flat.specs.Checked.{IsChecked};

use std::alloc::Global;
use std::test::Fail;
use zl_ast::Program;
use zl_expand::expand;
use zl_init::check_init;
use zl_lexer::{Lexed, lex};
use zl_meaning::Flat;
use zl_names::check_names;
use zl_parser::parse;
use zl_types::check_types;
use zl_value::Refusal;

/// The longest file.
const LONGEST: usize = 1_048_576;

/// The tree of tokens.
fn tree(alloc: Global, lexed: Lexed) -> Result<Program, Fail>
    requires { AreTokens lexed.tokens lexed.names lexed.end }
    ensures { IfOk result IsParsed }
{
    Ok(parse(alloc, lexed)?)
}

/// The flat form of a tree that keeps the rules.
#[tactic(auto, using(crate::proofs::Checked::checked_by))]
pub(crate) fn expanded(alloc: Global, program: &Program) -> Result<Flat, Refusal>
    requires { IsParsed program.now }
{
    let scopes = check_names(alloc, program)?;
    let typing = check_types(alloc, program, &scopes)?;
    check_init(alloc, program, &scopes)?;
    expand(alloc, program, &scopes, &typing)
}

/// The tokens of a text that isn't too long for a file.
pub(crate) fn tokens(alloc: Global, text: &str) -> Result<Lexed, Fail>
    ensures { IfOk result (λ l. AreTokens l.tokens l.names l.end) }
{
    if text.len() > LONGEST {
        return Err("the text is too long".into());
    }
    Ok(lex(alloc, text)?)
}

/// The tree of a text.
pub(crate) fn read(alloc: Global, text: &str) -> Result<Program, Fail>
    ensures { IfOk result IsParsed }
{
    let lexed = tokens(alloc, text)?;
    tree(alloc, lexed)
}

/// The flat form of a text that every call of the front accepts.
pub(crate) fn flat(alloc: Global, text: &str) -> Result<Flat, Fail> {
    let program = read(alloc, text)?;
    Ok(expanded(alloc, &program)?)
}
