//! The list of equalities in the making.
ghost use Rattle.std.specs.Prelude.{◌≡◌, [], ◌∷◌, ◌++◌, map, OnOk};
ghost use Rattle.zl_ast.specs.TypeEqualities as spec;
ghost use Rattle.zl_ast.specs.TypeEqualities.{fixed, same, same_as_found, both_same};

use std::alloc::{AllocError, Global};
use std::marker::Model;
use zl_ast::{Equality, Side};
use zl_value::{Pos, Ty};

/// Equalities of types, in the order of the text.
#[derive(Drop)]
pub(crate) struct EqualityList {
    list: Vec<Equality>,
}

impl Model for EqualityList {
    ghost use Rattle.std.specs.Prelude.{List};
    ghost use Rattle.zl_ast.specs.declared.constraint.Equality.{Equality};

    ghost Value = { List Equality };

    ghost view = { λ s. s.list.items };
}

impl EqualityList {
    pub(crate) fn new(alloc: Global) -> EqualityList
        ensures { result ≡ [] }
    {
        EqualityList {
            list: Vec::new(alloc),
        }
    }

    pub(crate) fn as_slice(&self) -> &[Equality]
        ensures { result.now ≡ self.now }
    {
        self.list.as_slice()
    }

    /// What stands at the node has this type.
    pub(crate) fn fix(&mut self, at: Pos, ty: Ty, node: Pos) -> Result<(), AllocError>
        ensures { OnOk result (self.new ≡ self.old ++ fixed at ty node ∷ []) }
    {
        let side = Side::Fixed(ty);
        self.list.push(Equality { at, node, side })?;
        Ok(())
    }

    /// What stands at the two places has this type.
    pub(crate) fn fix_both(
        &mut self,
        at: Pos,
        ty: Ty,
        left: Pos,
        right: Pos,
    ) -> Result<(), AllocError>
        ensures { OnOk result (self.new ≡ self.old ++ fixed at ty left ∷ fixed at ty right ∷ []) }
    {
        self.fix(at, ty, left)?;
        self.fix(at, ty, right)
    }

    /// What stands at the node has the type of the other.
    pub(crate) fn tie(&mut self, at: Pos, node: Pos, other: Pos) -> Result<(), AllocError>
        ensures { OnOk result (self.new ≡ self.old ++ same at node other ∷ []) }
    {
        let side = Side::SameAs(other);
        self.list.push(Equality { at, node, side })?;
        Ok(())
    }

    /// What stands at the node has the type of what was found.
    pub(crate) fn tie_found(
        &mut self,
        at: Pos,
        node: Pos,
        found: Option<Pos>,
    ) -> Result<(), AllocError>
        ensures { OnOk result (self.new ≡ self.old ++ same_as_found at node found) }
    {
        match found {
            Some(other) => self.tie(at, node, other),
            None => Ok(()),
        }
    }

    /// What stands at this place, and the two parts, have one type.
    pub(crate) fn tie_both(&mut self, at: Pos, left: Pos, right: Pos) -> Result<(), AllocError>
        ensures { OnOk result (self.new ≡ self.old ++ both_same at left right) }
    {
        self.tie(at, at, left)?;
        self.tie(at, at, right)
    }
}
