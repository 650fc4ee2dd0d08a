ghost use Rattle.std.specs.Prelude.{◌≡◌, [], IfOk, OnOk};
ghost use Rattle.zl_ast.specs.Names.{repeats, strangers, with_ids, ids_of};
ghost use Rattle.zl_names.specs.Earliest.{earliest};

use crate::first::First;
use std::alloc::{AllocError, Global};
use zl_ast::{Name, NameSet};
use zl_value::Rule;

/// Takes note of the names whose number came before, and gives the numbers.
#[tactic(auto, using(crate::proofs::EarliestLemmas::noting))]
pub(crate) fn note_repeats(
    alloc: Global,
    rule: Rule,
    names: &[Name],
    first: &mut First,
) -> Result<NameSet, AllocError>
    ensures noted { OnOk result (first.new.found ≡ earliest first.old.found (repeats rule [] names.now)) }
    ensures seen { IfOk result (λ seen. seen ≡ with_ids [] (ids_of names.now)) }
{
    let mut seen = NameSet::new(alloc);
    for name in names {
        first.note_if(seen.contains(name.id), rule, name.at);
        seen.insert(name.id)?;
    }
    Ok(seen)
}

/// Takes note of the names whose number isn't in the set.
#[tactic(auto, using(crate::proofs::EarliestLemmas::noting))]
pub(crate) fn note_strangers(rule: Rule, ids: &NameSet, names: &[Name], first: &mut First)
    ensures { first.new.found ≡ earliest first.old.found (strangers rule ids.now names.now) }
{
    for name in names {
        first.note_if(!ids.contains(name.id), rule, name.at);
    }
}

/// Adds the numbers of names.
pub(crate) fn insert_all(ids: &mut NameSet, names: &[Name]) -> Result<(), AllocError>
    ensures { OnOk result (ids.new ≡ with_ids ids.old (ids_of names.now)) }
{
    for name in names {
        ids.insert(name.id)?;
    }
    Ok(())
}
