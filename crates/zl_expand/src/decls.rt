//! The declarations of a program, with their variables, by number and by name.
ghost use Rattle.std.specs.Prelude.{◌≡◌, [], length, map, take};
ghost use Rattle.zl_flat.specs.Capped.{capped};
ghost use Rattle.zl_flat.specs.Counted.{NumberingsEnd};
ghost use Rattle.zl_flat.specs.ScopedDecls.{scoped, with_sizes};

use crate::name_index::NameIndex;
use zl_ast::{Decl, VarInfo};
use zl_flat::Size;
use zl_lexer::Names;
use zl_value::{Sequence, Ty};

/// Declarations with their variables and the types of these.
#[derive(Drop)]
pub(crate) struct Declared<'a> {
    pub(crate) decls: &'a [Decl],
    pub(crate) names: &'a Names,
    pub(crate) scopes: &'a [Sequence<VarInfo>],
    pub(crate) types: &'a [Sequence<Ty>],
    /// The names of the declarations.
    pub(crate) index: NameIndex,
    /// The names of the variables of each declaration.
    pub(crate) vars: Vec<NameIndex>,
    ghost all_scoped: { length scopes.now ≡ length decls.now },
    ghost all_typed: { length types.now ≡ length decls.now },
    ghost of_decls: { index ≡ map (λ d. d.name.id) decls.now },
    ghost of_vars: { vars.items ≡ map (λ infos. map (λ v. v.name) infos) scopes.now },
    ghost numbered: { NumberingsEnd names.now (scoped decls.now scopes.now types.now) },
}

/// A declaration, by its number, and the sizes of the declarations before it.
#[derive(Clone, Copy)]
pub(crate) struct Known<'a> {
    pub(crate) declared: &'a Declared<'a>,
    pub(crate) sizes: &'a [Size],
    pub(crate) number: usize,
    ghost sized: { take number sizes.now ≡ map (λ x. capped x.what) (with_sizes [] (take number (scoped declared.now.decls.now declared.now.scopes.now declared.now.types.now))) },
}
