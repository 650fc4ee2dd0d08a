//! The flat form of a program.
#![tactic(auto, using(crate::proofs::ExpandLemmas::expanding))]

ghost use Rattle.std.specs.Prelude.{◌≡◌, ◌^◌, ◌<◌, ◌++◌, length, OnOk, IfOk, IfErr};
ghost use Rattle.zl_value.specs.Lists.{listed};
ghost use Rattle.zl_ast.specs.NamesRules as rules_of_names;
ghost use Rattle.zl_ast.specs.Scopes as rules;
ghost use Rattle.zl_flat.specs.Checked.{IsChecked};
ghost use Rattle.zl_flat.specs.Parts.{joined, nothing, some_definers};
ghost use Rattle.zl_flat.specs.Expansion.{input_definers, result_place, result_places};
ghost use Rattle.zl_flat.specs.Numbering.{decl_numbering};
ghost use Rattle.zl_expand.specs.Kept.{instance_in};
ghost use Rattle.zl_expand.specs.KeptDecls.{infos_in, known_in, program_in, IsMeasured};
ghost use Rattle.zl_flat.specs.Limits.{FitsIn, IsExpandRefusedBy};
ghost use Rattle.zl_flat.specs.Flat.{IsFlatOf};
ghost use Rattle.zl_expand.specs.Tables.{form_in, main_in, parts_in};
ghost use Rattle.zl_expand.specs.Room.{HasRoom};

use crate::copy::add_params;
use crate::decls::{Declared, Known};
use crate::instance::Instance;
use crate::limits::{Measured, measure, refuse_too_large};
use crate::numbering::own_places;
use crate::parts::{Parts, number};
use crate::tables::{Tables, make_tables};
use crate::walker::walk_body;
use std::alloc::{AllocError, Global};
use zl_ast::{Decl, DeclKind, Expr, Param, Program, Scopes, Typing};
use zl_flat::Here;
use zl_meaning::{Block, BlockKind, Definer};
use zl_value::Refusal;

/// The parameters of `main` are inputs. It answers their places.
fn add_inputs(alloc: Global, params: &[Param], out: &mut Parts) -> Result<Vec<u32>, AllocError>
    requires { length params.now < 2 ^ 32 }
    ensures made { OnOk result (out.new ≡ joined out.old (some_definers (input_definers 0 params.now))) }
    ensures ins { IfOk result (λ ins. ins.items ≡ listed (length params.now) 0 (λ n. n)) }
{
    let mut ins = Vec::new(alloc);
    let mut n = 0;
    for _param in params {
        out.define(n, Definer::Input(n))?;
        ins.push(n)?;
        n += 1;
    }
    Ok(ins)
}

fn is_hybrid(kind: DeclKind) -> bool
    ensures { result ≡ rules_of_names.is_hybrid kind }
{
    match kind {
        DeclKind::Hybrid => true,
        _ => false,
    }
}

/// The place of a result, if that is a variable.
#[tactic(auto, using(crate::proofs::ExpandLemmas::expanding), unfolding(zl_flat::specs::Expansion::result_place))]
fn add_result(instance: &Instance, expr: &Expr, places: &mut Vec<u32>) -> Result<(), AllocError>
    ensures { OnOk result (places.new.items ≡ places.old.items ++ result_place (instance_in instance.now).variables expr.now) }
{
    match expr {
        Expr::Var(name) => match instance.variable(name.id) {
            Some(x) => {
                places.push(x.place)?;
                Ok(())
            }
            None => {
                places.push(0)?;
                Ok(())
            }
        },
        _ => Ok(()),
    }
}

/// The places of `main`'s results, which are variables.
fn result_places(
    alloc: Global,
    instance: &Instance,
    results: &[Expr],
) -> Result<Vec<u32>, AllocError>
    ensures { IfOk result (λ places. places.items ≡ result_places (instance_in instance.now).variables results.now) }
{
    let mut places = Vec::new(alloc);
    for one in results {
        add_result(instance, one, &mut places)?;
    }
    Ok(places)
}

/// What `main` expands to, where the hidden occurrences are numbered from `base` on.
fn walk_main(alloc: Global, known: &Known, decl: &Decl, base: u32) -> Result<Tables, AllocError>
    requires room { HasRoom 2 base nothing (parts_in known.now decl.now base) }
    requires numbers { (decl_numbering (infos_in known.now) (known_in known.now) decl.now 0).next < 2 ^ 32 }
    ensures { IfOk result (λ t. form_in t ≡ main_in known.now decl.now base) }
{
    let own = own_places(alloc, known, decl, 0)?;
    let instance = Instance {
        known,
        own: own.as_slice(),
        base,
        block: 0,
    };
    let hybrid = is_hybrid(decl.kind);
    let here = Here {
        block: 0,
        hybrid,
        call: None,
    };
    let mut out = Parts::new(alloc);
    out.add_block(Block {
        parent: None,
        kind: BlockKind::Main,
        hybrid,
    })?;
    add_params(alloc, &instance, here, decl.params.as_slice(), &mut out)?;
    let ins = add_inputs(alloc, decl.params.as_slice(), &mut out)?;
    walk_body(alloc, &instance, here, decl, &mut out)?;
    let outs = result_places(alloc, &instance, decl.results.as_slice())?;
    make_tables(alloc, out, ins, outs)
}

/// What `main` expands to, where its counts keep their limits.
fn expand_main(
    alloc: Global,
    declared: &Declared,
    measured: &Measured,
) -> Result<Tables, AllocError>
    requires measured { IsMeasured declared.now measured.now }
    requires fits { FitsIn (program_in declared.now) declared.now.scopes.now declared.now.types.now }
    requires scopes { declared.now.scopes.now ≡ rules.scopes (program_in declared.now) }
    requires checked { IsChecked (program_in declared.now) declared.now.types.now }
    ensures { IfOk result (λ t. IsFlatOf (program_in declared.now) declared.now.scopes.now declared.now.types.now (form_in t)) }
{
    let known = Known {
        declared,
        sizes: measured.sizes.as_slice(),
        number: measured.main,
    };
    let base = number(measured.size.occs as usize);
    walk_main(alloc, &known, &declared.decls[measured.main], base)
}

/// The tables of a program's flat form.
#[tactic(auto, using(crate::proofs::CheckedLemmas::checking))]
pub fn expand_tables(
    alloc: Global,
    program: &Program,
    scopes: &Scopes,
    typing: &Typing,
) -> Result<Tables, Refusal>
    requires scopes { scopes.now.decls ≡ rules.scopes program.now }
    requires checked { IsChecked program.now typing.now.decls }
    ensures flat { IfOk result (λ t. IsFlatOf program.now scopes.now.decls typing.now.decls (form_in t)) }
    ensures refused { IfErr result (IsExpandRefusedBy program.now scopes.now.decls typing.now.decls) }
{
    let decls = program.decls.as_slice();
    let scopes = scopes.decls.as_slice();
    let types = typing.decls.as_slice();
    let Ok(declared) = Declared::new(alloc, decls, &program.names, scopes, types) else {
        return Err(Refusal::Memory);
    };
    let Ok(measured) = measure(alloc, &declared) else {
        return Err(Refusal::Memory);
    };
    refuse_too_large(&declared, &measured)?;
    match expand_main(alloc, &declared, &measured) {
        Ok(tables) => Ok(tables),
        Err(_) => Err(Refusal::Memory),
    }
}
