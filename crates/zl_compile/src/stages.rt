//! The rules by which a tree is tried, stage by stage.
ghost use Rattle.std.specs.Prelude.{◌≡◌, IfOk, IfErr};
ghost use Rattle.zl_ast.specs.Assignments.{IsTyping};
ghost use Rattle.zl_ast.specs.Parsed.{IsParsed};
ghost use Rattle.zl_ast.specs.Scopes as scope_spec;
ghost use Rattle.zl_ast.specs.TypeEqualities.{equalities};
ghost use Rattle.zl_meaning.specs.GradesLaw.{IsGradable};
ghost use Rattle.zl_compile.specs.FirstBroken.{IsBrokenBy};
ghost use Rattle.zl_compile.specs.Rules.{KeepsNames, KeepsTypes, KeepsInitialisation, KeepsRules};
ghost use Rattle.zl_compile.specs.Steps.{GivesTypes, GivesLevels, GivesFlat};

use crate::file::Accepted;
use std::alloc::Global;
use zl_ast::{Program, Scopes, Typing};
use zl_causal::ranks;
use zl_expand::expand;
use zl_grade::grades;
use zl_init::check_init;
use zl_meaning::Flat;
use zl_names::check_names;
use zl_types::check_types;
use zl_value::Refusal;

/// The types of a tree that keeps the rules of names.
#[tactic(auto, using(crate::proofs::LaterRefusals::types_broken))]
fn types_of(alloc: Global, program: &Program, scopes: &Scopes) -> Result<Typing, Refusal>
    requires scopes { scopes.now.decls ≡ scope_spec.scopes program.now }
    requires names { KeepsNames program.now }
    ensures { GivesTypes program.now result }
{
    check_types(alloc, program, scopes)
}

/// Tries the initialisation of a tree that keeps the rules of names and of types.
#[tactic(auto, using(crate::proofs::LaterRefusals::levels_broken))]
fn try_initialisation(alloc: Global, program: &Program, scopes: &Scopes) -> Result<(), Refusal>
    requires scopes { scopes.now.decls ≡ scope_spec.scopes program.now }
    requires names { KeepsNames program.now }
    requires types { KeepsTypes program.now }
    ensures { GivesLevels program.now result }
{
    check_init(alloc, program, scopes)
}

/// The flat form of a tree that keeps the rules before, unless it passes the limits of expansion.
#[tactic(auto, using(crate::proofs::LaterRefusals::flat_by, crate::proofs::LaterRefusals::limits_broken, crate::proofs::LaterRefusals::tree_checked))]
fn flat_of(
    alloc: Global,
    program: &Program,
    scopes: &Scopes,
    typing: &Typing,
) -> Result<Flat, Refusal>
    requires parsed { IsParsed program.now }
    requires scopes { scopes.now.decls ≡ scope_spec.scopes program.now }
    requires typing { IsTyping (equalities program.now) (scope_spec.scopes program.now) typing.now.decls }
    requires names { KeepsNames program.now }
    requires types { KeepsTypes program.now }
    requires initialisation { KeepsInitialisation program.now }
    ensures { GivesFlat program.now typing.now.decls result }
{
    expand(alloc, program, scopes, typing)
}

/// Tries the rules of a tree, stage by stage: names, types and contexts, initialisation, the limits of expansion, causality,
/// grades. The refusal is by the first rule that the tree breaks. The stages and their order are this project's own.
#[tactic(auto, using(crate::proofs::NamesRefusals::names_broken, crate::proofs::LaterRefusals::rules_kept, crate::proofs::LaterRefusals::gradable_by, crate::proofs::LaterRefusals::circle_broken, crate::proofs::LaterRefusals::grade_broken))]
pub(crate) fn accept_tree(alloc: Global, program: Program) -> Result<Accepted, Refusal>
    requires { IsParsed program }
    ensures program { IfOk result (λ a. a.program ≡ program) }
    ensures kept { IfOk result KeepsRules }
    ensures gradable { IfOk result (λ a. IsGradable a.flat) }
    ensures refused { IfErr result (IsBrokenBy program) }
{
    let scopes = check_names(alloc, &program)?;
    let typing = types_of(alloc, &program, &scopes)?;
    try_initialisation(alloc, &program, &scopes)?;
    let flat = flat_of(alloc, &program, &scopes, &typing)?;
    let ranks = ranks(alloc, &flat)?;
    let grades = grades(alloc, &flat, &ranks)?;
    Ok(Accepted {
        program,
        flat,
        ranks,
        grades,
    })
}
