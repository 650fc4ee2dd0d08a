ghost use Rattle.std.specs.Prelude.{◌≡◌, ◌<◌, length, slice_get, IfSome};

use zl_value::{Pos, Sequence, Ty};

/// How a variable comes into a declaration.
#[derive(Clone, Copy, Debug, PartialEq, Eq)]
pub enum VarClass {
    Param,
    /// A name that an equation defines and that no `local` declares.
    Top,
    Local,
}

/// A variable of a declaration.
#[derive(Clone, Copy, Debug, PartialEq, Eq)]
pub struct VarInfo {
    /// The name's number in the file's list of names.
    pub name: u32,
    /// The place of the first token that declares or defines it.
    pub at: Pos,
    pub class: VarClass,
}

/// The variables of each declaration, in order of place.
#[derive(Debug, Drop)]
pub struct Scopes {
    pub decls: Sequence<Sequence<VarInfo>>,
}

impl Scopes {
    /// The variables of a declaration, by its number from 0.
    pub fn vars(&self, decl: usize) -> &[VarInfo]
        requires { decl < length self.now.decls }
        ensures { slice_get self.now.decls decl ≡ Some result.now }
    {
        let variables = &self.decls.as_slice()[decl];
        variables.as_slice()
    }
}

/// The type of each variable of each declaration, in the order of its scopes.
#[derive(Debug, Drop)]
pub struct Typing {
    pub decls: Sequence<Sequence<Ty>>,
}

impl Typing {
    /// The type of a variable, by the declaration's number and its own number there, both from 0.
    pub fn ty(&self, decl: usize, var: usize) -> Ty
        requires decl_exists { decl < length self.now.decls }
        requires var_exists { IfSome (slice_get self.now.decls decl) (λ types. var < length types) }
        ensures { IfSome (slice_get self.now.decls decl) (λ types. slice_get types var ≡ Some result) }
    {
        self.decls.as_slice()[decl].as_slice()[var]
    }
}
