//! The files that break no rule.
ghost use Rattle.std.specs.Prelude.{IfOk, IfErr, OnOk};
ghost use Rattle.zl_meaning.specs.GradesLaw.{IsGradable};
ghost use Rattle.zl_compile.specs.Breaks.{RefusesBytes};
ghost use Rattle.zl_compile.specs.Accepts.{IsAccepted, BreaksNoRule};
ghost use Rattle.zl_compile.specs.Steps.{GivesAccepted};
ghost use Rattle.zl_ast.specs.Parsed.{IsParsed};

use crate::CompileAnswer;
use crate::stages::accept_tree;
use crate::text::program_of;
use std::alloc::Global;
use zl_ast::Program;
use zl_grade::Grades;
use zl_meaning::{Flat, Ranks};
use zl_value::Refusal;

/// What a file that breaks no rule comes to.
#[derive(Drop)]
pub struct Accepted {
    /// The tree of its tokens.
    pub program: Program,
    /// The flat form of the tree.
    pub flat: Flat,
    /// Ranks of the form's places and blocks.
    pub ranks: Ranks,
    /// The grades of the form's occurrences and places.
    pub grades: Grades,
}

/// What a tree comes to, or the first rule that it breaks.
fn accepted_of(alloc: Global, program: Program) -> Result<Accepted, CompileAnswer>
    requires { IsParsed program }
    ensures accepted { GivesAccepted program result }
    ensures gradable { IfOk result (λ a. IsGradable a.flat) }
{
    match accept_tree(alloc, program) {
        Ok(accepted) => Ok(accepted),
        Err(Refusal::Broken { rule, at }) => Err(CompileAnswer::Refused { rule, at }),
        Err(Refusal::Memory) => Err(CompileAnswer::Memory),
    }
}

/// What the bytes of a file come to: the tree of their tokens, its flat form with every call copied, ranks of that along its
/// dependencies, and its grades. Or the first rule that they break, in the order of [`Rule`](zl_value::Rule), `token` and
/// `literal` at the first place of either, and with its place; `Unbuilt` is not among these rules. Or want of memory. The order
/// is this project's own.
#[tactic(auto, using(crate::proofs::TreeRefusals::accepted_by, crate::proofs::TreeRefusals::refused_by))]
pub fn accept(alloc: Global, bytes: &[u8]) -> Result<Accepted, CompileAnswer>
    ensures accepted { IfOk result (IsAccepted bytes.now) }
    ensures gradable { IfOk result (λ a. IsGradable a.flat) }
    ensures refused { IfErr result (RefusesBytes bytes.now) }
{
    let program = program_of(alloc, bytes)?;
    accepted_of(alloc, program)
}

/// Whether the bytes of a file break no rule; else the first that they break, with its place, as [`accept`] answers it, or want
/// of memory.
pub fn check(alloc: Global, bytes: &[u8]) -> Result<(), CompileAnswer>
    ensures kept { OnOk result (BreaksNoRule bytes.now) }
    ensures refused { IfErr result (RefusesBytes bytes.now) }
{
    let _accepted = accept(alloc, bytes)?;
    Ok(())
}
