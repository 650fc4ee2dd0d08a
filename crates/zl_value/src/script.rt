use crate::{Fault, Frac, Sequence, Text, Ty, Value};

/// An input of a program: a parameter of `main`.
#[derive(Debug, Drop)]
pub struct Input {
    pub name: Text,
    pub ty: Ty,
}

/// An output of a program: a result of `main`.
#[derive(Debug, Drop)]
pub struct Output {
    pub name: Text,
    /// What the output's value is read from, by its number.
    pub from: u32,
}

/// What a run is made with. This project's own.
#[derive(Debug, Drop)]
pub struct Script {
    /// The time at which the run ends.
    pub horizon: Frac,
    /// How many steps may be made.
    pub steps: u32,
    pub lines: Sequence<ScriptLine>,
}

/// A line of a script: at this time a step is made, with these inputs set.
#[derive(Debug, Drop)]
pub struct ScriptLine {
    pub time: Frac,
    pub sets: Sequence<Set>,
}

/// The value that an input, named by its number, has from a line on.
#[derive(Clone, Copy, Debug, PartialEq, Eq)]
pub struct Set {
    pub input: u32,
    pub value: Value,
}

/// Where in a run a line of the trace stands.
#[derive(Clone, Copy, Debug, PartialEq, Eq)]
pub enum Mark {
    /// A step, by its number among the steps at its time, from 0.
    Step(u32),
    /// The left end of a flow.
    Left,
    /// Inside a flow.
    Flow,
}

/// How a run ends.
#[derive(Clone, Copy, Debug, PartialEq, Eq)]
pub enum Ending {
    /// The run came to its horizon.
    Horizon,
    /// A step was demanded after as many as may be made.
    Bound,
    /// A code had no value where one was asked for.
    Empty,
    /// An operator without a result, or a number that isn't in the width.
    Fault {
        fault: Fault,
        time: Frac,
        mark: Mark,
    },
}
