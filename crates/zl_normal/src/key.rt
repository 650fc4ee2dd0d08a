//! What the wires and the memories of a normal form stand for.

/// What a wire stands for. Numbers name occurrences, places, or arms of a place and parts of an occurrence by their order.
#[derive(Clone, Copy, Debug)]
pub(crate) enum Key {
    /// It is a step; it is the first instant; `false`; the slope of what stands still.
    Step,
    Fresh,
    No,
    Zero,
    /// The value of an occurrence; the parts of a `Fired` from one on, joined by `or`.
    Value(u32),
    Rest(u32, u32),
    /// What a `pre` remembers, where its part isn't always evaluated.
    Next(u32),
    /// The test of an `if` whose branches are one occurrence is false; an occurrence is evaluated.
    Other(u32),
    Guard(u32),
    /// The value of a place; what it holds between steps, where it moves.
    Place(u32),
    Between(u32),
    /// An arm is taken; neither it nor one before is; the value by this arm and those behind it.
    Taken(u32, u32),
    Passed(u32, u32),
    Chosen(u32, u32),
    /// `last` of a place, and what it remembers where it begins with an `init` value that is computed.
    Last(u32),
    Remembered(u32),
    /// The occurrences that demand a step, from one on, joined by `or`.
    Again(u32),
    /// An occurrence has a number; its slope; the slope of a place with a `der`.
    Present(u32),
    Slope(u32),
    Motion(u32),
}

/// What a memory stands for.
#[derive(Clone, Copy, Debug)]
pub(crate) enum Kept {
    /// It is the first instant.
    First,
    /// A place at the instant before; a place that moves; its derivative.
    Before(u32),
    Moving(u32),
    Derivative(u32),
    /// The part of a `pre` at the instant before.
    Pre(u32),
}
