use zl_value::{Pos, Sequence, Ty};

/// What gives a place its value.
#[derive(Debug, Drop)]
pub enum Definer {
    /// The input with this number.
    Input(u32),
    /// `x = e`: occurrence `occ`, where `block` is active. A parameter is defined so by its argument.
    Plain {
        block: u32,
        occ: u32,
    },
    /// `der x = e`: it moves with the value of occurrence `slope`, where `block` is active.
    Der {
        block: u32,
        slope: u32,
        resets: Sequence<DerArm>,
    },
    /// `init x = e`: occurrence `occ`, where `block` is fresh.
    Start {
        block: u32,
        occ: u32,
    },
}

/// `reset z -> e` of a `der`: at a step at which occurrence `event` holds, the value is that of occurrence `value`.
#[derive(Clone, Copy, Debug, PartialEq, Eq)]
pub struct DerArm {
    pub event: u32,
    pub value: u32,
}

/// A parameter or variable of one copy of a declaration's body.
#[derive(Debug, Drop)]
pub struct PlaceInfo {
    /// The block that declares it.
    pub block: u32,
    /// The innermost call in whose copy it stands, an occurrence; none outside calls.
    pub call: Option<u32>,
    pub ty: Ty,
    /// The number of its name in the file's list of names.
    pub name: u32,
    pub at: Pos,
    pub definers: Sequence<Definer>,
}
