use zl_value::Sequence;

/// What a block is the body of.
#[derive(Clone, Copy, Debug, PartialEq, Eq)]
pub enum BlockKind {
    /// The body of `main`.
    Main,
    /// Body number `arm` of choice `of`, from 0. The `else` body is numbered behind the arms.
    Arm { of: u32, arm: u32 },
    /// The `unless` conditions of state number `state` of automaton `of`.
    Guard { of: u32, state: u32 },
    /// The body of state number `state` of automaton `of`.
    State { of: u32, state: u32 },
    /// The body of a `reset .. every`, whose test is occurrence `cond`.
    Reset { cond: u32 },
}

/// A block: equations that are active together.
#[derive(Debug, Drop)]
pub struct Block {
    /// The block that this one stands in; none for the main one.
    pub parent: Option<u32>,
    pub kind: BlockKind,
    /// The block's equations are solved in flows too.
    pub hybrid: bool,
}

/// The choice of a `present`.
#[derive(Debug, Drop)]
pub struct Choice {
    pub block: u32,
    /// The tests of the arms, which are occurrences, in text order.
    pub conds: Sequence<u32>,
    /// There is an `else` body.
    pub other: bool,
}

/// An automaton.
#[derive(Debug, Drop)]
pub struct Auto {
    pub block: u32,
    /// The moves of each state, in text order.
    pub states: Sequence<Sequence<AutoMove>>,
}

/// A transition of an automaton.
#[derive(Clone, Copy, Debug, PartialEq, Eq)]
pub struct AutoMove {
    /// By `unless`, else by `until`.
    pub strong: bool,
    /// By `then`, else by `continue`.
    pub reset: bool,
    /// The test, an occurrence.
    pub cond: u32,
    /// The number of the state that it leads to.
    pub target: u32,
}
