//! The equalities of types that a program gives.
#![tactic(auto, using(crate::proofs::DeclLemmas::decl_steps))]

ghost use Rattle.std.specs.Prelude.{◌≡◌, ◌++◌, IfOk, OnOk};
ghost use Rattle.zl_ast.specs.Scopes as scope_spec;
ghost use Rattle.zl_ast.specs.TypeEqualities as spec;
ghost use Rattle.zl_ast.specs.TypeEqualities.{annotation, params_equalities, decl_equalities, with_variables, with_declared};
ghost use Rattle.zl_types.specs.Environments.{environment_of};

use crate::environment::Environment;
use crate::eqn_equalities::push_eqns;
use crate::equality_list::EqualityList;
use crate::expr_equalities::push_exprs;
use std::alloc::{AllocError, Global};
use zl_ast::{Decl, Param, Program, Scopes, VarInfo};
use zl_value::{Pos, Ty};

fn push_annotation(list: &mut EqualityList, at: Pos, ty: Option<Ty>) -> Result<(), AllocError>
    ensures { OnOk result (list.new ≡ list.old ++ annotation at ty) }
{
    match ty {
        Some(ty) => list.fix(at, ty, at),
        None => Ok(()),
    }
}

fn push_params(list: &mut EqualityList, params: &[Param]) -> Result<(), AllocError>
    ensures { OnOk result (list.new ≡ list.old ++ params_equalities params.now) }
{
    for param in params {
        push_annotation(list, param.name.at, param.ty)?;
    }
    Ok(())
}

fn push_decl(list: &mut EqualityList, env: &Environment, decl: &Decl) -> Result<(), AllocError>
    ensures { OnOk result (list.new ≡ list.old ++ decl_equalities (environment_of env.now) decl.now) }
{
    push_params(list, decl.params.as_slice())?;
    push_exprs(list, env, decl.results.as_slice())?;
    push_eqns(list, env, decl.eqs.as_slice())
}

/// Adds the equalities of a declaration with these variables, and takes note of it.
fn push_next(
    alloc: Global,
    list: &mut EqualityList,
    env: &mut Environment,
    vars: &[VarInfo],
    decl: &Decl,
) -> Result<(), AllocError>
    ensures list { OnOk result (list.new ≡ list.old ++ decl_equalities (with_variables (environment_of env.old) vars.now) decl.now) }
    ensures env { OnOk result (environment_of env.new ≡ with_declared (with_variables (environment_of env.old) vars.now) decl.now) }
{
    env.enter(alloc, vars)?;
    push_decl(list, env, decl)?;
    env.declare(alloc, decl)
}

/// The equalities of a program with these variables.
pub(crate) fn equalities(
    alloc: Global,
    program: &Program,
    scopes: &Scopes,
) -> Result<EqualityList, AllocError>
    requires scopes { scopes.now.decls ≡ scope_spec.scopes program.now }
    ensures { IfOk result (λ list. list ≡ spec.equalities program.now) }
{
    let mut list = EqualityList::new(alloc);
    let mut env = Environment::new(alloc, &program.names);
    let mut index = 0;
    for decl in program.decls.as_slice() {
        push_next(alloc, &mut list, &mut env, scopes.vars(index), decl)?;
        index += 1;
    }
    Ok(list)
}
