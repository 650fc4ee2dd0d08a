//! The rule of initialisation over a whole program.
ghost use Rattle.std.specs.Prelude.{◌≡◌, IfOk, IfErr, OnOk};
ghost use Rattle.zl_ast.specs.Initialised.{requirements};
ghost use Rattle.zl_ast.specs.Levels.{HasLevels, IsUninitialisedBy};
ghost use Rattle.zl_ast.specs.Scopes as rules;
ghost use Rattle.zl_init.specs.Solve.{Solves};

use crate::requirements::requirements_of;
use crate::solve::solve;
use std::alloc::{AllocError, Global};
use zl_ast::{Program, Scopes};
use zl_value::{Pos, Refusal, Rule};

/// The place of the first constraint up to which no levels meet the constraints of the program.
fn unmet(alloc: Global, program: &Program, scopes: &Scopes) -> Result<Option<Pos>, AllocError>
    requires { scopes.now.decls ≡ rules.scopes program.now }
    ensures { IfOk result (λ unmet. Solves (requirements program.now) unmet) }
{
    let list = requirements_of(alloc, program, scopes)?;
    solve(alloc, list.as_slice())
}

/// Checks that each variable and each result of a program has a value from the first instant on. The scopes are those that
/// the rules of names give. The rule goes back to the initialisation analysis of Zélus; its order and places are this project's
/// own: it refuses at the first place up to which no levels meet the constraints, taken in the order of the text.
pub fn check_init(alloc: Global, program: &Program, scopes: &Scopes) -> Result<(), Refusal>
    requires scopes { scopes.now.decls ≡ rules.scopes program.now }
    ensures kept { OnOk result (HasLevels (requirements program.now)) }
    ensures refused { IfErr result (IsUninitialisedBy (requirements program.now)) }
{
    let Ok(place) = unmet(alloc, program, scopes) else {
        return Err(Refusal::Memory);
    };
    match place {
        Some(at) => Err(Refusal::Broken {
            rule: Rule::Init,
            at,
        }),
        None => Ok(()),
    }
}
