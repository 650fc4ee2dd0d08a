//! The variables of a declaration.
#![tactic(auto, using(crate::proofs::EarliestLemmas::noting))]

ghost use Rattle.std.specs.Prelude.{◌≡◌, [], ◌∷◌, ◌++◌, if◌then◌else◌, map, IfOk, OnOk};
ghost use Rattle.zl_ast.specs.Names.{with_ids};
ghost use Rattle.zl_ast.specs.NamesRules as rules;
ghost use Rattle.zl_ast.specs.NamesRules.{twice, with_visible};
ghost use Rattle.zl_ast.specs.Scopes as scopes;
ghost use Rattle.zl_ast.specs.Scopes.{first_entries};
ghost use Rattle.zl_names.specs.Earliest.{earliest};

use crate::first::First;
use crate::outline::is_defined;
use std::alloc::{AllocError, Global};
use zl_ast::{NameSet, Param, VarClass, VarInfo};
use zl_value::Rule;

pub(crate) fn param_ids(alloc: Global, params: &[Param]) -> Result<NameSet, AllocError>
    ensures { IfOk result (λ ids. ids ≡ with_ids [] (scopes.param_ids params.now)) }
{
    let mut ids = NameSet::new(alloc);
    for param in params {
        ids.insert(param.name.id)?;
    }
    Ok(ids)
}

fn push_params(vars: &mut Vec<VarInfo>, params: &[Param]) -> Result<(), AllocError>
    ensures { OnOk result (vars.new.items ≡ vars.old.items ++ map scopes.parameter params.now) }
{
    for param in params {
        vars.push(VarInfo {
            name: param.name.id,
            at: param.name.at,
            class: VarClass::Param,
        })?;
    }
    Ok(())
}

fn push_unless(vars: &mut Vec<VarInfo>, again: bool, entry: VarInfo) -> Result<(), AllocError>
    ensures { OnOk result (vars.new.items ≡ vars.old.items ++ (if again then [] else entry ∷ [])) }
{
    if !again {
        vars.push(entry)?;
    }
    Ok(())
}

/// Adds the entries that are variables, where names were seen before.
fn push_entries(
    vars: &mut Vec<VarInfo>,
    mut seen: NameSet,
    entries: &[VarInfo],
) -> Result<(), AllocError>
    ensures { OnOk result (vars.new.items ≡ vars.old.items ++ first_entries seen entries.now) }
{
    for entry in entries {
        let again = is_defined(entry) && seen.contains(entry.name);
        push_unless(vars, again, *entry)?;
        seen.insert_if(is_defined(entry), entry.name)?;
    }
    Ok(())
}

/// The variables of a declaration with these parameters and entries.
pub(crate) fn variables(
    alloc: Global,
    params: &[Param],
    entries: &[VarInfo],
) -> Result<Vec<VarInfo>, AllocError>
    ensures { IfOk result (λ vars. vars.items ≡ map scopes.parameter params.now ++ first_entries (with_ids [] (scopes.param_ids params.now)) entries.now) }
{
    let mut vars = Vec::new(alloc);
    push_params(&mut vars, params)?;
    push_entries(&mut vars, param_ids(alloc, params)?, entries)?;
    Ok(vars)
}

/// Takes note of the variables with the number of one before them, or of a constant.
pub(crate) fn note_twice(
    alloc: Global,
    constants: &NameSet,
    vars: &[VarInfo],
    first: &mut First,
) -> Result<(), AllocError>
    ensures { OnOk result (first.new.found ≡ earliest first.old.found (twice constants.now [] vars.now)) }
{
    let mut seen = NameSet::new(alloc);
    for var in vars {
        let again = seen.contains(var.name) || constants.contains(var.name);
        first.note_if(again, Rule::NameTwice, var.at);
        seen.insert(var.name)?;
    }
    Ok(())
}

fn is_local(class: VarClass) -> bool
    ensures { result ≡ rules.is_local class }
{
    match class {
        VarClass::Local => true,
        _ => false,
    }
}

/// Adds the variables that are visible in the whole declaration.
pub(crate) fn insert_visible(ids: &mut NameSet, vars: &[VarInfo]) -> Result<(), AllocError>
    ensures { OnOk result (ids.new ≡ with_visible ids.old vars.now) }
{
    for var in vars {
        ids.insert_if(!is_local(var.class), var.name)?;
    }
    Ok(())
}
