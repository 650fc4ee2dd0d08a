use crate::{Eqn, Expr, Name};
use sqlite_items::Items;
use zl_lexer::Names;
use zl_value::Ty;

/// A file's declarations, and the names in it.
#[derive(Drop)]
pub struct Program {
    pub decls: Items<Decl>,
    pub names: Names,
}

/// What a declaration declares.
#[derive(Clone, Copy, Debug, PartialEq, Eq)]
pub enum DeclKind {
    /// `let x = e`
    Constant,
    /// `let f(..) = ..`
    Function,
    /// `let node f(..) = ..`
    Node,
    /// `let hybrid f(..) = ..`
    Hybrid,
}

/// A declaration. A constant has one result, and neither parameters nor equations.
#[derive(Drop)]
pub struct Decl {
    pub kind: DeclKind,
    pub name: Name,
    pub params: Items<Param>,
    pub results: Items<Expr>,
    pub eqs: Items<Eqn>,
}

/// A parameter, with its type if that is written.
#[derive(Clone, Copy, Debug, PartialEq, Eq)]
pub struct Param {
    pub name: Name,
    pub ty: Option<Ty>,
}
