use crate::Pos;

/// The rules of the language, in the order in which a file is tried by them. This project's own.
#[derive(Clone, Copy, Debug, PartialEq, Eq)]
pub enum Rule {
    Size,
    Utf8,
    Token,
    Literal,
    Parse,
    Deep,
    NameUnknown,
    NameTwice,
    DefinedTwice,
    Undefined,
    Arity,
    Branch,
    Main,
    Last,
    TypeClash,
    TypeOpen,
    Kind,
    Init,
    ExpandSize,
    Causality,
    Grade,
    /// The file breaks no rule that is built so far, and its form can't be run yet.
    Unbuilt,
}

/// Why a pass has no result.
#[derive(Clone, Copy, Debug, PartialEq, Eq)]
pub enum Refusal {
    /// The program breaks a rule, at this place.
    Broken { rule: Rule, at: Pos },
    /// There is no memory.
    Memory,
}
