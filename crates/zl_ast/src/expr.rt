use crate::{FlowOp, Infix, Name, Prefix};
use sqlite_items::{Boxed, Items};
use zl_value::{Pos, Value};

/// An expression. Parentheses are gone. An `at` is the place of the operator, or of the first token.
#[cycle(expr)]
#[derive(Drop)]
pub enum Expr {
    Lit {
        value: Value,
        at: Pos,
    },
    Var(Name),
    /// `last x`, the value of `x` just before
    Last {
        name: Name,
        at: Pos,
    },
    Call {
        name: Name,
        args: Items<Expr>,
    },
    Prefix {
        op: Prefix,
        at: Pos,
        arg: Boxed<Expr>,
    },
    /// Operators of one level, to be applied from the left; at least one link.
    Chain {
        first: Boxed<Expr>,
        rest: Items<Link>,
    },
    Flow {
        op: FlowOp,
        at: Pos,
        left: Boxed<Expr>,
        right: Boxed<Expr>,
    },
    If {
        at: Pos,
        cond: Boxed<Expr>,
        yes: Boxed<Expr>,
        no: Boxed<Expr>,
    },
}

/// An operator of a chain with its right operand.
#[cycle(expr)]
#[derive(Drop)]
pub struct Link {
    pub op: Infix,
    /// The place of the operator.
    pub at: Pos,
    pub arg: Expr,
}
