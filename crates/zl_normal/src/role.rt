/// How an occurrence is used, which decides what its guard is.
#[derive(Clone, Copy, Debug)]
pub(crate) enum Role {
    /// Nothing uses it.
    Unused,
    /// A part that is evaluated where its whole is.
    Part(u32),
    /// A branch of an `if`, by that `if`, its test and the side.
    Branch {
        whole: u32,
        condition: u32,
        side: bool,
    },
    /// Both branches of an `if`.
    Both {
        whole: u32,
        condition: u32,
    },
    /// What a place is, its derivative, an event of it, its `init` value.
    Definer(u32),
    Slope(u32),
    Event(u32),
    Start(u32),
    /// The value of a reset arm of a place, by the place and the number of the arm.
    Reset {
        place: u32,
        arm: u32,
    },
    /// The argument of a site.
    Argument,
    /// One of those that demand a further step.
    Again,
}
