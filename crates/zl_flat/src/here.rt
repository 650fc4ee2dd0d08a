//! Where a walk stands.
ghost use Rattle.std.specs.Prelude.{◌≡◌, Some};
ghost use Rattle.zl_flat.specs.Instances as spec;

use std::alloc::Global;
use zl_meaning::{Block, BlockKind, Form, Occ, PlaceInfo, SiteInfo};
use zl_value::{Pos, Sequence, Ty};

/// Where a walk stands.
#[derive(Clone, Copy, Debug, PartialEq, Eq)]
pub struct Here {
    /// The number of the block.
    pub block: u32,
    /// Whether the block is hybrid.
    pub hybrid: bool,
    /// The innermost call, by the number of its occurrence.
    pub call: Option<u32>,
}

/// The occurrence that an expression is, and its type.
#[derive(Clone, Copy, Debug, PartialEq, Eq)]
pub struct Root {
    /// The number of the occurrence.
    pub occ: u32,
    pub ty: Ty,
}

impl Here {
    /// In the arguments and the copy of a call.
    pub fn in_call(self, call: u32) -> Here
        ensures { result ≡ spec.in_call call self }
    {
        Here {
            block: self.block,
            hybrid: self.hybrid,
            call: Some(call),
        }
    }

    /// In a block of its own.
    pub fn in_block(self, block: u32, hybrid: bool) -> Here
        ensures { result ≡ spec.in_block block hybrid self }
    {
        Here {
            block,
            hybrid,
            call: self.call,
        }
    }

    /// The block of this kind that begins here.
    pub fn inner_block(self, kind: BlockKind, hybrid: bool) -> Block
        ensures { result ≡ spec.inner_block self kind hybrid }
    {
        Block {
            parent: Some(self.block),
            kind,
            hybrid,
        }
    }

    /// A place that is made here, whose definers come later: a variable of this type, with the number of its name, at this position.
    pub fn place(self, alloc: Global, ty: Ty, name: u32, at: Pos) -> PlaceInfo
        ensures { result ≡ spec.place_here self ty name at }
    {
        PlaceInfo {
            block: self.block,
            call: self.call,
            ty,
            name,
            at,
            definers: Sequence::from_vec(Vec::new(alloc)),
        }
    }

    /// An occurrence that is made here, of this type, at this position.
    pub fn occ(self, ty: Ty, at: Pos, form: Form) -> Occ
        ensures { result ≡ spec.occ_here self ty at form }
    {
        Occ {
            block: self.block,
            call: self.call,
            ty,
            at,
            form,
        }
    }

    /// The site of an `up` that stands here, at this position, with the number of its argument.
    pub fn site(self, arg: u32, at: Pos) -> SiteInfo
        ensures { result ≡ spec.site_here self arg at }
    {
        SiteInfo {
            block: self.block,
            arg,
            at,
        }
    }
}
