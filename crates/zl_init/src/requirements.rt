//! The constraints of a program.
#![tactic(auto, using(crate::proofs::NeedLemmas::need_steps))]

ghost use Rattle.std.specs.Prelude.{◌≡◌, [], ◌++◌, IfOk, OnOk};
ghost use Rattle.zl_ast.specs.Initialised.{params_needs, exprs_constraints, free_at, decl_parts, decl_requirements, requirements};
ghost use Rattle.zl_ast.specs.NamesDefined as defined;
ghost use Rattle.zl_ast.specs.NamesDefined.{with_defined};
ghost use Rattle.zl_ast.specs.NamesRules as rules;
ghost use Rattle.zl_ast.specs.Scopes as rules_of_scopes;
ghost use Rattle.zl_ast.specs.Scopes.{variables};
ghost use Rattle.zl_init.specs.Kept.{known_of, setting_of};

use crate::eqn::push_eqns;
use crate::expr::{push, push_early_each, push_exprs};
use crate::known::{Free, Known, Setting};
use std::alloc::{AllocError, Global};
use zl_ast::{
    Asked, Decl, DeclKind, Expr, NameSet, Param, Program, Requirement, Scopes, VarClass, VarInfo,
};
use zl_lexer::Names;

fn is_hybrid(kind: DeclKind) -> bool
    ensures { result ≡ rules.is_hybrid kind }
{
    match kind {
        DeclKind::Hybrid => true,
        _ => false,
    }
}

fn is_top(class: VarClass) -> bool
    ensures { result ≡ defined.is_top class }
{
    match class {
        VarClass::Top => true,
        _ => false,
    }
}

/// Adds the variables that the body of the declaration declares.
fn insert_tops(ids: &mut NameSet, vars: &[VarInfo]) -> Result<(), AllocError>
    ensures { OnOk result (ids.new ≡ with_defined ids.old vars.now) }
{
    for var in vars {
        ids.insert_if(is_top(var.class), var.name)?;
    }
    Ok(())
}

fn push_params(params: &[Param], out: &mut Vec<Requirement>) -> Result<(), AllocError>
    ensures { OnOk result (out.new.items ≡ out.old.items ++ params_needs params.now) }
{
    for param in params {
        push(param.name.at, param.name.at, Asked::Early, out)?;
    }
    Ok(())
}

/// Adds the constraints in results.
fn push_results(
    alloc: Global,
    known: &Known,
    setting: Setting,
    results: &[Expr],
    out: &mut Vec<Requirement>,
) -> Result<(), AllocError>
    ensures { OnOk result (out.new.items ≡ out.old.items ++ exprs_constraints (known_of known.now) results.now (free_at setting.handler [])) }
{
    let inside = NameSet::new(alloc);
    push_results_in(known, setting, &inside, results, out)
}

fn push_results_in(
    known: &Known,
    setting: Setting,
    inside: &NameSet,
    results: &[Expr],
    out: &mut Vec<Requirement>,
) -> Result<(), AllocError>
    ensures { OnOk result (out.new.items ≡ out.old.items ++ exprs_constraints (known_of known.now) results.now (free_at setting.handler inside.now)) }
{
    let free = Free {
        all: false,
        handler: setting.handler,
        inside,
    };
    push_exprs(known, &free, results, out)
}

/// Adds the constraints in a declaration, by what is known in it and where its equations stand.
#[tactic(auto, using(crate::proofs::NeedLemmas::need_steps), unfolding(zl_ast::specs::Initialised::decl_parts))]
pub(crate) fn push_parts(
    alloc: Global,
    known: &Known,
    setting: Setting,
    own: &NameSet,
    decl: &Decl,
    out: &mut Vec<Requirement>,
) -> Result<(), AllocError>
    ensures { OnOk result (out.new.items ≡ out.old.items ++ decl_parts (known_of known.now) (setting_of setting [] own.now) decl.now) }
{
    let results = decl.results.as_slice();
    push_early_each(decl.name.at, results, out)?;
    push_params(decl.params.as_slice(), out)?;
    push_results(alloc, known, setting, results, out)?;
    let mut inside = NameSet::new(alloc);
    push_eqns(
        alloc,
        known,
        setting,
        &mut inside,
        own,
        decl.eqs.as_slice(),
        out,
    )
}

/// Adds the constraints in a declaration with these variables.
#[tactic(auto, using(crate::proofs::NeedLemmas::need_steps), unfolding(zl_ast::specs::Initialised::decl_requirements))]
fn push_decl(
    alloc: Global,
    names: &Names,
    decl: &Decl,
    vars: &[VarInfo],
    out: &mut Vec<Requirement>,
) -> Result<(), AllocError>
    requires { vars.now ≡ variables decl.now }
    ensures { OnOk result (out.new.items ≡ out.old.items ++ decl_requirements names.now decl.now) }
{
    let known = Known::of(alloc, names, decl, vars)?;
    let mut own = NameSet::new(alloc);
    insert_tops(&mut own, vars)?;
    let setting = Setting {
        hybrid: is_hybrid(decl.kind),
        handler: false,
    };
    push_parts(alloc, &known, setting, &own, decl, out)
}

/// The constraints of a program with these scopes, in the order of the text.
#[tactic(auto, using(crate::proofs::ScopeLemmas::scope_steps))]
pub(crate) fn requirements_of(
    alloc: Global,
    program: &Program,
    scopes: &Scopes,
) -> Result<Vec<Requirement>, AllocError>
    requires { scopes.now.decls ≡ rules_of_scopes.scopes program.now }
    ensures { IfOk result (λ list. list.items ≡ requirements program.now) }
{
    let mut out = Vec::new(alloc);
    let mut number = 0;
    for decl in program.decls.as_slice() {
        push_decl(alloc, &program.names, decl, scopes.vars(number), &mut out)?;
        number += 1;
    }
    Ok(out)
}
