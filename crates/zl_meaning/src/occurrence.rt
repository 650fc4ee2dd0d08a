use zl_value::{Op, Pos, Sequence, Ty, Value};

/// The construct of an occurrence. Its numbers name occurrences, but that of `Read` and `Last` a place and that of `Up`
/// a site.
#[derive(Debug, Drop)]
pub enum Form {
    Lit(Value),
    /// A variable's value.
    Read(u32),
    /// `last x`
    Last(u32),
    Op(Op, Sequence<u32>),
    /// The condition, the branch where it is true, and the branch where it is false.
    If(u32, u32, u32),
    /// `e1 -> e2`
    Arrow(u32, u32),
    Pre(u32),
    /// A call, which has the value of this result in its copy of the body.
    Result(u32),
    /// `up(e)` of a site.
    Up(u32),
    /// At a step: one of these holds. It is an event that is tested.
    Fired(Sequence<u32>),
    /// True at a step, false at a left end and in a flow. No program has it; a pass that takes blocks away makes it.
    Step,
}

/// A construct at its place in one copy of a declaration's body.
#[derive(Debug, Drop)]
pub struct Occ {
    pub block: u32,
    /// The innermost call in whose copy or arguments it stands, an occurrence; none outside calls.
    pub call: Option<u32>,
    pub ty: Ty,
    pub at: Pos,
    pub form: Form,
}

/// An `up(e)`, which fires where the value of its argument, an occurrence, comes from below zero to zero or above.
#[derive(Debug, Drop)]
pub struct SiteInfo {
    pub block: u32,
    pub arg: u32,
    pub at: Pos,
}
