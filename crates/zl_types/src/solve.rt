//! The types that equalities leave.
ghost use Rattle.std.specs.Prelude.{◌≡◌, List, map, IfOk, IfErr, OnOk};
ghost use Rattle.zl_ast.specs.Assignments.{IsTyping, IsUntypedBy, variable_places};
ghost use Rattle.zl_ast.specs.declared.constraint.Equality.{Equality as TheEquality};
ghost use Rattle.zl_ast.specs.declared.scope.VarInfo.{VarInfo as TheVarInfo};
ghost use Rattle.zl_types.specs.Classes.{IsSound, Represents, Meeting};
ghost use Rattle.zl_types.specs.Solving.{IsUnmetBy, IsTyped, IsUntypedAt, IsOpenBy, TypesVariables, TypesEach};

use crate::classes::Classes;
use std::alloc::Global;
use zl_ast::{Equality, Scopes, Typing, VarInfo};
use zl_value::{Pos, Refusal, Rule, Sequence, Ty};

fn take_in(classes: &mut Classes, equality: &Equality) -> Result<(), Refusal>
    requires { IsSound classes.old }
    ensures met { OnOk result (Meeting equality.now classes.old classes.new) }
    ensures refused { IfErr result (IsUnmetBy equality.now classes.old) }
{
    match classes.meet(equality) {
        Ok(true) => Ok(()),
        Ok(false) => Err(Refusal::Broken {
            rule: Rule::TypeClash,
            at: equality.at,
        }),
        Err(_) => Err(Refusal::Memory),
    }
}

/// The classes of the variables and occurrences that the equalities name.
fn classes_of(alloc: Global, equalities: &[Equality]) -> Result<Classes, Refusal>
    ensures sound { IfOk result IsSound }
    ensures represents { IfOk result (Represents equalities.now) }
    ensures refused { IfErr result (λ refusal. (vars : List (List TheVarInfo)) → IsUntypedBy equalities.now vars refusal) }
{
    let mut classes = Classes::new(alloc);
    for equality in equalities {
        take_in(&mut classes, equality)?;
    }
    Ok(classes)
}

fn variable_type(classes: &mut Classes, at: Pos) -> Result<Ty, Refusal>
    requires { IsSound classes.old }
    ensures typed { IfOk result (IsTyped at classes.old classes.new) }
    ensures refused { IfErr result (IsUntypedAt at classes.old) }
{
    match classes.type_at(at) {
        Ok(Some(ty)) => Ok(ty),
        Ok(None) => Err(Refusal::Broken {
            rule: Rule::TypeOpen,
            at,
        }),
        Err(_) => Err(Refusal::Memory),
    }
}

/// The types of the variables of a declaration.
fn variable_types(
    alloc: Global,
    classes: &mut Classes,
    vars: &[VarInfo],
) -> Result<Sequence<Ty>, Refusal>
    requires { IsSound classes.old }
    ensures typed { IfOk result (TypesVariables vars.now classes.old classes.new) }
    ensures refused { IfErr result (λ refusal. (es : List TheEquality) → Represents es classes.old → IsOpenBy es (map (λ v. v.at) vars.now) refusal) }
{
    let mut types = Vec::new(alloc);
    for var in vars {
        let ty = variable_type(classes, var.at)?;
        let Ok(()) = types.push(ty) else {
            return Err(Refusal::Memory);
        };
    }
    Ok(Sequence::from_vec(types))
}

fn types_of_each(
    alloc: Global,
    classes: &mut Classes,
    scopes: &Scopes,
) -> Result<Sequence<Sequence<Ty>>, Refusal>
    requires { IsSound classes.old }
    ensures typed { IfOk result (TypesEach scopes.now.decls classes.old classes.new) }
    ensures refused { IfErr result (λ refusal. (es : List TheEquality) → Represents es classes.old → IsOpenBy es (variable_places scopes.now.decls) refusal) }
{
    let mut decls = Vec::new(alloc);
    for vars in scopes.decls.as_slice() {
        let types = variable_types(alloc, classes, vars.as_slice())?;
        let Ok(()) = decls.push(types) else {
            return Err(Refusal::Memory);
        };
    }
    Ok(Sequence::from_vec(decls))
}

/// The one typing of the variables. It is refused at the first equality up to which no types meet them all, or else at the
/// first variable whose type they leave open. This project's own.
pub(crate) fn solve(
    alloc: Global,
    equalities: &[Equality],
    scopes: &Scopes,
) -> Result<Typing, Refusal>
    ensures typed { IfOk result (λ t. IsTyping equalities.now scopes.now.decls t.decls) }
    ensures refused { IfErr result (IsUntypedBy equalities.now scopes.now.decls) }
{
    let mut classes = classes_of(alloc, equalities)?;
    let decls = types_of_each(alloc, &mut classes, scopes)?;
    Ok(Typing { decls })
}
