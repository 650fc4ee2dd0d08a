//! The rules of names over a whole program.
ghost use Rattle.std.specs.Prelude.{◌≡◌, [], None, if◌then◌else◌, map, IfOk, IfErr, OnOk};
ghost use Rattle.zl_ast.specs.Names as spec;
ghost use Rattle.zl_ast.specs.NamesRules.{main_broken, variables_broken, uses_broken, decl_broken, inside_of, declared_with, violations, IsRefusedBy};
ghost use Rattle.zl_ast.specs.Scopes as scopes;
ghost use Rattle.zl_names.specs.Earliest.{earliest};
ghost use Rattle.zl_names.specs.Kept.{known_of};

use crate::defined::outline_eqns;
use crate::first::First;
use crate::known::{Known, is_main};
use crate::main_rule::note_main;
use crate::outline::note_first_places;
use crate::used::note_exprs;
use crate::used_eqn::note_eqns;
use crate::variables::{insert_visible, note_twice, param_ids, variables};
use std::alloc::{AllocError, Global};
use zl_ast::{Decl, NameSet, Program, Scopes, VarInfo};
use zl_lexer::Names;
use zl_value::{Pos, Refusal, Rule, Sequence};

/// The variables of a declaration, and what its name and they break.
#[tactic(auto, using(crate::proofs::EarliestLemmas::noting), unfolding(zl_ast::specs::NamesRules::variables_broken, zl_ast::specs::Scopes::variables))]
fn check_variables(
    alloc: Global,
    known: &Known,
    decl: &Decl,
    first: &mut First,
) -> Result<Vec<VarInfo>, AllocError>
    ensures vars { IfOk result (λ vars. vars.items ≡ scopes.variables decl.now) }
    ensures noted { OnOk result (first.new.found ≡ earliest first.old.found (variables_broken (known_of known.now) decl.now)) }
{
    first.note_if(
        known.is_declared(decl.name.id),
        Rule::NameTwice,
        decl.name.at,
    );
    let outline = outline_eqns(alloc, decl.eqs.as_slice(), first)?;
    let entries = outline.entries.as_slice();
    let parameters = param_ids(alloc, decl.params.as_slice())?;
    note_first_places(alloc, &parameters, entries, first)?;
    let vars = variables(alloc, decl.params.as_slice(), entries)?;
    note_twice(alloc, &known.constants, vars.as_slice(), first)?;
    Ok(vars)
}

#[tactic(auto, using(crate::proofs::EarliestLemmas::noting))]
fn check_main(names: &Names, visible: &NameSet, decl: &Decl, first: &mut First)
    ensures { first.new.found ≡ earliest first.old.found (if spec.is_main names.now decl.now.name.id then main_broken visible.now decl.now else []) }
{
    if is_main(names, decl.name.id) {
        note_main(visible, decl, first);
    }
}

/// What a declaration with these variables breaks by its uses of names.
#[tactic(auto, using(crate::proofs::EarliestLemmas::noting), unfolding(zl_ast::specs::NamesRules::uses_broken))]
fn check_uses(
    alloc: Global,
    known: &Known,
    vars: &[VarInfo],
    decl: &Decl,
    first: &mut First,
) -> Result<(), AllocError>
    requires { vars.now ≡ scopes.variables decl.now }
    ensures { OnOk result (first.new.found ≡ earliest first.old.found (uses_broken known.now.names.now (known_of known.now) decl.now)) }
{
    let mut visible = NameSet::new(alloc);
    insert_visible(&mut visible, vars)?;
    note_exprs(known, &visible, decl.results.as_slice(), first);
    note_eqns(known, &mut visible, decl.eqs.as_slice(), first)?;
    check_main(known.names, &visible, decl, first);
    Ok(())
}

/// The variables of a declaration, and what it breaks, where this is known of the earlier ones.
#[tactic(auto, using(crate::proofs::EarliestLemmas::noting))]
fn check_decl(
    alloc: Global,
    known: &mut Known,
    decl: &Decl,
    first: &mut First,
) -> Result<Sequence<VarInfo>, AllocError>
    ensures vars { IfOk result (λ vars. vars ≡ scopes.variables decl.now) }
    ensures noted { OnOk result (first.new.found ≡ earliest first.old.found (decl_broken known.old.names.now (known_of known.old) decl.now)) }
    ensures known { OnOk result (known_of known.new ≡ declared_with (known_of known.old) decl.now) }
    ensures names { known.new.names.now ≡ known.old.names.now }
{
    let vars = check_variables(alloc, known, decl, first)?;
    known.parameters = param_ids(alloc, decl.params.as_slice())?;
    check_uses(alloc, known, vars.as_slice(), decl, first)?;
    known.declare(alloc, decl)?;
    Ok(Sequence::from_vec(vars))
}

/// The scopes of a program, and its first violation.
#[tactic(auto, using(crate::proofs::EarliestLemmas::deciding))]
fn check_decls(
    alloc: Global,
    program: &Program,
) -> Result<(Sequence<Sequence<VarInfo>>, First), AllocError>
    ensures scopes { IfOk result (λ r. r.0 ≡ scopes.scopes program.now) }
    ensures first { IfOk result (λ r. r.1.found ≡ earliest None (violations program.now)) }
{
    let mut known = Known::new(alloc, &program.names);
    let mut first = First::none();
    let mut decls = Vec::new(alloc);
    let mut has_main = false;
    for decl in program.decls.as_slice() {
        has_main = has_main || is_main(&program.names, decl.name.id);
        let vars = check_decl(alloc, &mut known, decl, &mut first)?;
        decls.push(vars)?;
    }
    first.note_if(!has_main, Rule::Main, Pos { line: 1, column: 1 });
    Ok((Sequence::from_vec(decls), first))
}

/// Checks the rules of names, and gives the scopes of a program that keeps them. The rules are this project's own, and are
/// tried in the order of `Rule`: the refusal is by the first that is broken, at the least place where it is.
#[tactic(auto, using(crate::proofs::RefusedLemmas::refused_at, crate::proofs::RefusedLemmas::kept_by))]
pub fn check_names(alloc: Global, program: &Program) -> Result<Scopes, Refusal>
    ensures kept { OnOk result (violations program.now ≡ []) }
    ensures scopes { IfOk result (λ s. s.decls ≡ scopes.scopes program.now) }
    ensures refused { IfErr result (IsRefusedBy program.now) }
{
    let Ok((decls, first)) = check_decls(alloc, program) else {
        return Err(Refusal::Memory);
    };
    match first.found {
        Some((rule, at)) => Err(Refusal::Broken { rule, at }),
        None => Ok(Scopes { decls }),
    }
}
