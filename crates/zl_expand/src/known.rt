//! What is known of declarations by name.
#![tactic(auto, using(crate::proofs::KnownLemmas::knowing))]

ghost use Rattle.std.specs.Prelude.{◌≡◌, ◌<◌, length, map, nat_eq, is_some, IfOk, IfSome};
ghost use Rattle.std.specs.List.{position};
ghost use Rattle.zl_flat.specs.Sizes as spec;
ghost use Rattle.zl_flat.specs.FirstPlaces.{place_in_text, is_first};
ghost use Rattle.zl_flat.specs.Capped.{capped};
ghost use Rattle.zl_flat.specs.Counted.{NumberingsEnd};
ghost use Rattle.zl_flat.specs.ScopedDecls.{scoped};
ghost use Rattle.zl_expand.specs.KeptDecls.{infos_in, known_in};

use crate::decls::{Declared, Known};
use crate::name_index::NameIndex;
use std::alloc::{AllocError, Global};
use zl_ast::{Decl, Name, VarInfo};
use zl_flat::Size;
use zl_lexer::Names;
use zl_value::{Pos, Sequence, Ty};

fn index_vars(alloc: Global, infos: &[VarInfo]) -> Result<NameIndex, AllocError>
    ensures { IfOk result (λ index. index ≡ map (λ v. v.name) infos.now) }
{
    let ids = infos.iter().map(|info| info.name).collect(alloc)?;
    NameIndex::new(alloc, ids)
}

fn index_scopes(alloc: Global, scopes: &[Sequence<VarInfo>]) -> Result<Vec<NameIndex>, AllocError>
    ensures { IfOk result (λ vars. vars.items ≡ map (λ infos. map (λ v. v.name) infos) scopes.now) }
{
    let mut vars = Vec::new(alloc);
    for infos in scopes {
        vars.push(index_vars(alloc, infos.as_slice())?)?;
    }
    Ok(vars)
}

fn index_decls(alloc: Global, decls: &[Decl]) -> Result<NameIndex, AllocError>
    ensures { IfOk result (λ index. index ≡ map (λ d. d.name.id) decls.now) }
{
    let ids = decls.iter().map(|decl| decl.name.id).collect(alloc)?;
    NameIndex::new(alloc, ids)
}

impl<'a> Declared<'a> {
    pub(crate) fn new(
        alloc: Global,
        decls: &'a [Decl],
        names: &'a Names,
        scopes: &'a [Sequence<VarInfo>],
        types: &'a [Sequence<Ty>],
    ) -> Result<Declared<'a>, AllocError>
        requires scoped { length scopes.now ≡ length decls.now }
        requires typed { length types.now ≡ length decls.now }
        requires numbered { NumberingsEnd names.now (scoped decls.now scopes.now types.now) }
        ensures decls { IfOk result (λ d. d.decls.now ≡ decls.now) }
        ensures names { IfOk result (λ d. d.names.now ≡ names.now) }
        ensures scopes { IfOk result (λ d. d.scopes.now ≡ scopes.now) }
        ensures types { IfOk result (λ d. d.types.now ≡ types.now) }
    {
        let index = index_decls(alloc, decls)?;
        let vars = index_scopes(alloc, scopes)?;
        Ok(Declared {
            decls,
            names,
            scopes,
            types,
            index,
            vars,
        })
    }
}

impl Declared<'_> {
    /// The number of the first declaration of this name.
    pub(crate) fn find(&self, id: u32) -> Option<usize>
        ensures is { result ≡ position (nat_eq id) (map (λ d. d.name.id) self.now.decls.now) }
        ensures within { IfSome result (λ n. n < length self.now.decls.now) }
    {
        self.index.find(id)
    }
}

impl Known<'_> {
    /// Which variable of the declaration has this name, from 0.
    pub(crate) fn variable(&self, id: u32) -> Option<usize>
        ensures { result ≡ position (nat_eq id) (map (λ v. v.name) (infos_in self.now)) }
    {
        let index = self.declared.vars.get(self.number)?;
        index.find(id)
    }

    pub(crate) fn is_variable(&self, id: u32) -> bool
        ensures { result ≡ is_some (place_in_text (infos_in self.now) id) }
    {
        self.variable(id).is_some()
    }

    fn place_in_text(&self, id: u32) -> Option<Pos>
        ensures { result ≡ place_in_text (infos_in self.now) id }
    {
        let k = self.variable(id)?;
        let infos = self.declared.scopes.get(self.number)?;
        let info = infos.as_slice().get(k)?;
        Some(info.at)
    }

    /// Whether the name is that of a variable, where this first stands in the text.
    pub(crate) fn is_first(&self, name: Name) -> bool
        ensures { result ≡ is_first (infos_in self.now) name }
    {
        match self.place_in_text(name.id) {
            Some(at) => at == name.at,
            None => false,
        }
    }

    /// The size of a copy of a declaration before this one.
    pub(crate) fn called_size(&self, id: u32) -> Size
        ensures { result ≡ capped (spec.called_size (known_in self.now id)) }
    {
        let Some(callee) = self.declared.find(id) else {
            return Size::none();
        };
        if callee >= self.number {
            return Size::none();
        }
        match self.sizes.get(callee) {
            Some(size) => size.called(),
            None => Size::none(),
        }
    }
}
