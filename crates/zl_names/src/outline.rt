#![tactic(auto, using(crate::proofs::EarliestLemmas::noting))]

ghost use Rattle.std.specs.Prelude.{◌≡◌, [], map, IfOk, OnOk};
ghost use Rattle.zl_ast.specs.Names.{ids_of as names_ids, with_ids, strangers};
ghost use Rattle.zl_ast.specs.NamesDefined as spec;
ghost use Rattle.zl_ast.specs.NamesDefined.{with_defined, with_shared, first_places};
ghost use Rattle.zl_names.specs.Earliest.{earliest};
ghost use Rattle.zl_names.specs.Kept.{kept, joined, kept_under};

use crate::first::First;
use crate::repeats::{insert_all, note_strangers};
use sqlite_items::Items;
use std::alloc::{AllocError, Global};
use zl_ast::{Name, NameSet, VarClass, VarInfo};
use zl_value::Rule;

/// What equations declare and define, less what their locals hold.
#[derive(Drop)]
pub(crate) struct Outline {
    /// Each local, and each definition of another name, in the order of the text.
    pub(crate) entries: Items<VarInfo>,
    /// The numbers of the defined names that are defined other than by `init`.
    pub(crate) valued: Items<u32>,
    /// The numbers of the defined names that are given an `init`.
    pub(crate) started: Items<u32>,
}

impl Outline {
    pub(crate) fn empty(alloc: Global) -> Outline
        ensures { result ≡ kept spec.nothing }
    {
        Outline {
            entries: Items::new(alloc),
            valued: Items::new(alloc),
            started: Items::new(alloc),
        }
    }

    /// Adds another outline behind this one.
    pub(crate) fn append(&mut self, more: Outline) -> Result<(), AllocError>
        ensures { OnOk result (self.new ≡ joined self.old more) }
    {
        let Outline {
            entries,
            valued,
            started,
        } = more;
        self.entries.append(entries)?;
        self.valued.append(valued)?;
        self.started.append(started)
    }

    /// The outline of one name that is defined as a value, by an `init`, or both.
    pub(crate) fn of_name(
        alloc: Global,
        name: Name,
        is_valued: bool,
        is_started: bool,
    ) -> Result<Outline, AllocError>
        ensures { IfOk result (λ o. o ≡ kept (spec.one_defined name is_valued is_started)) }
    {
        let mut entries = Items::new(alloc);
        entries.push(entry(VarClass::Top, name))?;
        Ok(Outline {
            entries,
            valued: id_if(alloc, is_valued, name.id)?,
            started: id_if(alloc, is_started, name.id)?,
        })
    }
}

fn id_if(alloc: Global, wanted: bool, id: u32) -> Result<Items<u32>, AllocError>
    ensures { IfOk result (λ ids. ids ≡ spec.id_if wanted id) }
{
    let mut ids = Items::new(alloc);
    if wanted {
        ids.push(id)?;
    }
    Ok(ids)
}

fn entry(class: VarClass, name: Name) -> VarInfo
    ensures { result ≡ spec.entry class name }
{
    VarInfo {
        name: name.id,
        at: name.at,
        class,
    }
}

pub(crate) fn entries_of(
    alloc: Global,
    class: VarClass,
    names: &[Name],
) -> Result<Items<VarInfo>, AllocError>
    ensures { IfOk result (λ entries. entries ≡ map (spec.entry class) names.now) }
{
    let mut entries = Items::new(alloc);
    for name in names {
        entries.push(entry(class, *name))?;
    }
    Ok(entries)
}

pub(crate) fn ids_of(alloc: Global, names: &[Name]) -> Result<Items<u32>, AllocError>
    ensures { IfOk result (λ ids. ids ≡ names_ids names.now) }
{
    let ids = names.iter().map(|name| name.id).collect(alloc)?;
    Ok(Items::from_vec(ids))
}

/// Whether the entry is a name that is defined.
pub(crate) fn is_defined(entry: &VarInfo) -> bool
    ensures { result ≡ spec.is_defined entry.now }
{
    match entry.class {
        VarClass::Top => true,
        _ => false,
    }
}

/// The entries that are left where locals hold these numbers.
fn free_entries(
    alloc: Global,
    held: &NameSet,
    entries: &[VarInfo],
) -> Result<Items<VarInfo>, AllocError>
    ensures { IfOk result (λ free. free ≡ spec.free_entries held.now entries.now) }
{
    let free = entries
        .iter()
        .copied()
        .filter(|entry| !(is_defined(entry) && held.contains(entry.name)))
        .collect(alloc)?;
    Ok(Items::from_vec(free))
}

fn free_ids(alloc: Global, held: &NameSet, ids: &[u32]) -> Result<Items<u32>, AllocError>
    ensures { IfOk result (λ free. free ≡ spec.free_ids held.now ids.now) }
{
    let free = ids
        .iter()
        .copied()
        .filter(|id| !held.contains(*id))
        .collect(alloc)?;
    Ok(Items::from_vec(free))
}

pub(crate) fn insert_ids(set: &mut NameSet, ids: &[u32]) -> Result<(), AllocError>
    ensures { OnOk result (set.new ≡ with_ids set.old ids.now) }
{
    for id in ids {
        set.insert(*id)?;
    }
    Ok(())
}

/// Adds the numbers of the defined names.
fn insert_defined(ids: &mut NameSet, entries: &[VarInfo]) -> Result<(), AllocError>
    ensures { OnOk result (ids.new ≡ with_defined ids.old entries.now) }
{
    for entry in entries {
        ids.insert_if(is_defined(entry), entry.name)?;
    }
    Ok(())
}

/// Adds the numbers of the list that the known set has.
fn insert_shared(ids: &mut NameSet, known: &NameSet, more: &[u32]) -> Result<(), AllocError>
    ensures { OnOk result (ids.new ≡ with_shared ids.old known.now more.now) }
{
    for id in more {
        ids.insert_if(known.contains(*id), *id)?;
    }
    Ok(())
}

/// Takes note of where wanted names are first defined.
pub(crate) fn note_first_places(
    alloc: Global,
    wanted: &NameSet,
    entries: &[VarInfo],
    first: &mut First,
) -> Result<(), AllocError>
    ensures { OnOk result (first.new.found ≡ earliest first.old.found (first_places wanted.now [] entries.now)) }
{
    let mut seen = NameSet::new(alloc);
    for entry in entries {
        let here = is_defined(entry) && wanted.contains(entry.name) && !seen.contains(entry.name);
        first.note_if(here, Rule::DefinedTwice, entry.at);
        seen.insert_if(here, entry.name)?;
    }
    Ok(())
}

/// Takes note of the names that equations before define as this one does.
pub(crate) fn note_clash(
    alloc: Global,
    valued: &NameSet,
    started: &NameSet,
    outline: &Outline,
    first: &mut First,
) -> Result<(), AllocError>
    ensures { OnOk result (first.new.found ≡ earliest first.old.found (first_places (with_shared (with_shared [] valued.now outline.now.valued) started.now outline.now.started) [] outline.now.entries)) }
{
    let mut wanted = NameSet::new(alloc);
    insert_shared(&mut wanted, valued, outline.valued.as_slice())?;
    insert_shared(&mut wanted, started, outline.started.as_slice())?;
    note_first_places(alloc, &wanted, outline.entries.as_slice(), first)
}

/// The outline of equations under locals.
pub(crate) fn under(
    alloc: Global,
    locals: &[Name],
    inside: Outline,
    first: &mut First,
) -> Result<Outline, AllocError>
    ensures outline { IfOk result (λ o. o ≡ kept_under locals.now inside) }
    ensures noted { OnOk result (first.new.found ≡ earliest first.old.found (strangers Rule.Undefined (with_defined [] inside.entries) locals.now)) }
{
    let mut defined = NameSet::new(alloc);
    insert_defined(&mut defined, inside.entries.as_slice())?;
    note_strangers(Rule::Undefined, &defined, locals, first);
    let mut held = NameSet::new(alloc);
    insert_all(&mut held, locals)?;
    let mut entries = entries_of(alloc, VarClass::Local, locals)?;
    entries.append(free_entries(alloc, &held, inside.entries.as_slice())?)?;
    Ok(Outline {
        entries,
        valued: free_ids(alloc, &held, inside.valued.as_slice())?,
        started: free_ids(alloc, &held, inside.started.as_slice())?,
    })
}
