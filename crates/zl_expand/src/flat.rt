//! The flat form of a program that keeps the rules.
#![tactic(auto, using(zl_flat::proofs::CheckedPrograms::flat_is_well_formed, zl_flat::proofs::CheckedPrograms::flat_is_single, zl_flat::proofs::CheckedPrograms::flat_is_regular))]

ghost use Rattle.std.specs.Prelude.{◌≡◌, IfOk, IfErr};
ghost use Rattle.zl_ast.specs.Scopes as rules;
ghost use Rattle.zl_meaning.specs.Regular.{IsRegular};
ghost use Rattle.zl_meaning.specs.Single.{IsSingle};
ghost use Rattle.zl_flat.specs.Checked.{IsChecked};
ghost use Rattle.zl_flat.specs.Flat.{IsFlatOf};
ghost use Rattle.zl_flat.specs.Limits.{IsExpandRefusedBy};

use crate::expansion::expand_tables;
use std::alloc::Global;
use zl_ast::{Program, Scopes, Typing};
use zl_meaning::Flat;
use zl_value::Refusal;

/// The flat form of a program that keeps the rules of names, types and contexts: `main`, with each call replaced by a copy of
/// the called body. The scopes and types are those of the program. `expand-size`, at the name of `main`, where a count of it
/// passes its limit. That calls are copied is Zélus's inlining; the numbering and the limits are this project's own.
pub fn expand(
    alloc: Global,
    program: &Program,
    scopes: &Scopes,
    typing: &Typing,
) -> Result<Flat, Refusal>
    requires scopes { scopes.now.decls ≡ rules.scopes program.now }
    requires checked { IsChecked program.now typing.now.decls }
    ensures flat { IfOk result (IsFlatOf program.now scopes.now.decls typing.now.decls) }
    ensures single { IfOk result IsSingle }
    ensures regular { IfOk result IsRegular }
    ensures refused { IfErr result (IsExpandRefusedBy program.now scopes.now.decls typing.now.decls) }
{
    let tables = expand_tables(alloc, program, scopes, typing)?;
    Ok(Flat {
        blocks: tables.blocks,
        places: tables.places,
        occs: tables.occs,
        sites: tables.sites,
        choices: tables.choices,
        automata: tables.automata,
        again: tables.again,
        ins: tables.ins,
        outs: tables.outs,
    })
}
