//! The rules of types and kinds over a whole program.
ghost use Rattle.std.specs.Prelude.{◌≡◌, [], IfOk, IfErr, OnOk};
ghost use Rattle.zl_ast.specs.Scopes as scope_spec;
ghost use Rattle.zl_ast.specs.Assignments.{IsTyping};
ghost use Rattle.zl_ast.specs.Kinds.{misplaced};
ghost use Rattle.zl_ast.specs.TypeEqualities as spec;
ghost use Rattle.zl_ast.specs.TypesRules.{IsTypesRefusedBy};

use crate::equalities::equalities;
use crate::kind::first_misplaced;
use crate::solve::solve;
use std::alloc::Global;
use zl_ast::{Program, Scopes, Typing};
use zl_value::{Refusal, Rule};

/// Checks the rules of types and kinds, and gives the types of the variables of a program that keeps them. The rules are those
/// of Zélus for three plain types and without type schemes; the places of refusals are this project's own. Types come first:
/// the first place up to which they can't be had, then the first variable with two, then the first misplaced construct.
#[tactic(auto, using(crate::proofs::RefusedLemmas::refusing))]
pub fn check_types(alloc: Global, program: &Program, scopes: &Scopes) -> Result<Typing, Refusal>
    requires scopes { scopes.now.decls ≡ scope_spec.scopes program.now }
    ensures typed { IfOk result (λ t. IsTyping (spec.equalities program.now) scopes.now.decls t.decls) }
    ensures kinds { OnOk result (misplaced program.now ≡ []) }
    ensures refused { IfErr result (IsTypesRefusedBy program.now) }
{
    let Ok(list) = equalities(alloc, program, scopes) else {
        return Err(Refusal::Memory);
    };
    let typing = solve(alloc, list.as_slice(), scopes)?;
    match first_misplaced(alloc, program) {
        Ok(None) => Ok(typing),
        Ok(Some(at)) => Err(Refusal::Broken {
            rule: Rule::Kind,
            at,
        }),
        Err(_) => Err(Refusal::Memory),
    }
}
