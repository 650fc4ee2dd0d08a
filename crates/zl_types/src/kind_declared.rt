//! What the declarations before declare.
ghost use Rattle.std.specs.Prelude.{◌≡◌, OnOk};
ghost use Rattle.zl_ast.specs.Kinds.{none_declared, declared_with};
ghost use Rattle.zl_types.specs.Contexts.{declared_of};

use indexmap::IndexMap;
use std::alloc::{AllocError, Global};
use zl_ast::{Decl, DeclKind};

/// What each name of an earlier declaration declares, by its number.
#[derive(Drop)]
pub(crate) struct Declared {
    pub(crate) kinds: IndexMap<u32, DeclKind>,
}

impl Declared {
    /// Before the first declaration.
    #[tactic(auto, unfolding(crate::specs::Contexts::declared_of, zl_ast::specs::Kinds::none_declared))]
    pub(crate) fn new(alloc: Global) -> Declared
        ensures { declared_of result ≡ none_declared }
    {
        Declared {
            kinds: IndexMap::new(alloc),
        }
    }

    /// What a name declares; nothing, for a built-in function.
    #[tactic(auto, unfolding(crate::specs::Contexts::declared_of))]
    pub(crate) fn kind(&self, id: u32) -> Option<DeclKind>
        ensures { result ≡ declared_of self.now id }
    {
        match self.kinds.get(&id) {
            Some(kind) => Some(*kind),
            None => None,
        }
    }

    /// Takes note of a declaration.
    #[tactic(auto, unfolding(crate::specs::Contexts::declared_of, zl_ast::specs::Kinds::declared_with))]
    pub(crate) fn declare(&mut self, decl: &Decl) -> Result<(), AllocError>
        ensures { OnOk result (declared_of self.new ≡ declared_with (declared_of self.old) decl.now) }
    {
        self.kinds.insert(decl.name.id, decl.kind)?;
        Ok(())
    }
}
