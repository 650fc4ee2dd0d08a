ghost use Rattle.std.specs.Prelude.{◌≡◌, None, IfOk, OnOk};
ghost use Rattle.zl_ast.specs.Initialised as spec;
ghost use Rattle.zl_ast.specs.Names as words;
ghost use Rattle.zl_ast.specs.Scopes.{variables};
ghost use Rattle.zl_init.specs.Kept.{known_of, free_of, place_in};

use crate::anchored::{Settled, settled_by};
use indexmap::IndexMap;
use std::alloc::{AllocError, Global};
use zl_ast::{Decl, Name, NameSet, VarInfo};
use zl_lexer::Names;
use zl_value::Pos;

/// The places of variables, by their numbers.
#[derive(Drop)]
pub(crate) struct Places {
    of_names: IndexMap<u32, Pos>,
}

/// What is known of the names in a declaration.
#[derive(Drop)]
pub(crate) struct Known<'a> {
    pub(crate) names: &'a Names,
    pub(crate) places: Places,
    /// The variables that are anchored.
    pub(crate) anchored: NameSet,
    /// The variables that are anchored or surely defined.
    pub(crate) settled: NameSet,
}

/// The variables of which `last` is early although they aren't anchored.
#[derive(Drop)]
pub(crate) struct Free<'a> {
    /// All of them, as in reset values.
    pub(crate) all: bool,
    /// In an arm of a `present` in hybrid context, those that aren't declared inside it.
    pub(crate) handler: bool,
    pub(crate) inside: &'a NameSet,
}

/// Where a list of equations stands.
#[derive(Clone, Copy)]
pub(crate) struct Setting {
    /// In hybrid context.
    pub(crate) hybrid: bool,
    /// In an arm of a `present` in hybrid context.
    pub(crate) handler: bool,
}

impl Free<'_> {
    pub(crate) fn has(&self, id: u32) -> bool
        ensures { result ≡ free_of self.now id }
    {
        self.all || (self.handler && !self.inside.contains(id))
    }
}

impl Places {
    fn new(alloc: Global) -> Places
        ensures { place_in result ≡ (λ q. None) }
    {
        Places {
            of_names: IndexMap::new(alloc),
        }
    }

    fn insert(&mut self, var: &VarInfo) -> Result<(), AllocError>
        ensures { OnOk result (place_in self.new ≡ spec.with_place (place_in self.old) var.now) }
    {
        self.of_names.insert(var.name, var.at)?;
        Ok(())
    }

    fn get(&self, id: u32) -> Option<Pos>
        ensures { result ≡ place_in self.now id }
    {
        self.of_names.get(&id).copied()
    }
}

/// The places of variables.
pub(crate) fn places_of(alloc: Global, vars: &[VarInfo]) -> Result<Places, AllocError>
    ensures { IfOk result (λ places. place_in places ≡ spec.with_places (λ q. None) vars.now) }
{
    let mut places = Places::new(alloc);
    for var in vars {
        places.insert(var)?;
    }
    Ok(places)
}

impl<'a> Known<'a> {
    /// What is known in a declaration with these variables.
    pub(crate) fn of(
        alloc: Global,
        names: &'a Names,
        decl: &Decl,
        vars: &[VarInfo],
    ) -> Result<Known<'a>, AllocError>
        requires { vars.now ≡ variables decl.now }
        ensures { IfOk result (λ known. known_of known ≡ spec.known_in names.now decl.now) }
    {
        let Settled { anchored, settled } = settled_by(alloc, decl.eqs.as_slice())?;
        Ok(Known {
            names,
            places: places_of(alloc, vars)?,
            anchored,
            settled,
        })
    }
}

impl Known<'_> {
    /// The place of the variable with this number.
    pub(crate) fn place(&self, id: u32) -> Option<Pos>
        ensures { result ≡ (known_of self.now).place id }
    {
        self.places.get(id)
    }

    /// Whether this is the place of the variable of this name.
    pub(crate) fn is_place(&self, name: Name) -> bool
        ensures { result ≡ spec.is_place ((known_of self.now).place name.id) name.at }
    {
        match self.place(name.id) {
            Some(place) => place == name.at,
            None => false,
        }
    }

    /// Whether it is the name of one of the two functions that every program has.
    pub(crate) fn is_built_in(&self, id: u32) -> bool
        ensures { result ≡ words.is_built_in self.now.names.now id }
    {
        has_text(self.names, id, "float_of_int") || has_text(self.names, id, "truncate")
    }
}

fn has_text(names: &Names, id: u32, text: &str) -> bool
    ensures { result ≡ words.has_text names.now id text.now }
{
    match names.text(id) {
        Some(name) => name == text,
        None => false,
    }
}
