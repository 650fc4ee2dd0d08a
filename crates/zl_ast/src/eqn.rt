use crate::{Expr, Name};
use sqlite_items::Items;
use zl_value::Pos;

/// An equation. An `at` is the place of the first token.
#[cycle(eqn)]
#[derive(Drop)]
pub enum Eqn {
    /// `x = e`, or `(x, y) = f(e)` with at least two names on the left
    Plain {
        left: Items<Name>,
        right: Expr,
    },
    /// `der x = slope init start reset event -> value | ..`
    Der {
        at: Pos,
        name: Name,
        slope: Expr,
        start: Option<Expr>,
        resets: Items<ResetArm>,
    },
    /// `init x = value`
    Start {
        at: Pos,
        name: Name,
        value: Expr,
    },
    /// `present cond -> body | .. else other end`
    Present {
        at: Pos,
        arms: Items<Arm>,
        other: Option<Body>,
    },
    Automaton {
        at: Pos,
        states: Items<State>,
    },
    /// `reset eqs every cond`
    Reset {
        at: Pos,
        eqs: Items<Eqn>,
        cond: Cond,
    },
}

/// When an arm, a move or a reset is taken.
#[derive(Drop)]
pub enum Cond {
    /// Zero-crossings, of which one has to come.
    Event(Items<Up>),
    /// A condition in parentheses, and the place of the first of these.
    Test { at: Pos, arg: Expr },
}

/// `up(arg)`, the zero-crossing of Zélus: `arg` rises through zero.
#[derive(Drop)]
pub struct Up {
    /// The place of `up`.
    pub at: Pos,
    pub arg: Expr,
}

/// `event -> value` behind the `reset` of a `der`
#[derive(Drop)]
pub struct ResetArm {
    pub event: Items<Up>,
    pub value: Expr,
}

/// An arm of a `present`
#[cycle(eqn)]
#[derive(Drop)]
pub struct Arm {
    pub cond: Cond,
    pub body: Body,
}

/// `local x, y in do eqs done`
#[cycle(eqn)]
#[derive(Drop)]
pub struct Body {
    pub locals: Items<Name>,
    pub eqs: Items<Eqn>,
}

/// A state of an automaton
#[cycle(eqn)]
#[derive(Drop)]
pub struct State {
    pub name: Name,
    pub body: Body,
    pub moves: Items<Move>,
}

/// A transition out of a state
#[derive(Drop)]
pub struct Move {
    /// Whether it began with `unless`, and is tried before the state's equations.
    pub strong: bool,
    /// Whether it enters its target by `then`, which starts the target anew.
    pub reset: bool,
    /// The place of `until`, `unless` or, for a further alternative, `else`.
    pub at: Pos,
    pub cond: Cond,
    pub target: Name,
}
