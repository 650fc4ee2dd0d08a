//! The counts that have a limit.
#![tactic(auto, unfolding(crate::specs::Capped::capped, crate::specs::Sizes::none, crate::specs::Sizes::plus, crate::specs::Sizes::in_call, crate::specs::Sizes::a_place, crate::specs::Sizes::an_occ, crate::specs::Sizes::an_up, crate::specs::Sizes::a_block))]

ghost use Rattle.std.specs.Prelude.{◌≡◌, max};
ghost use Rattle.zl_flat.specs.Sizes as spec;
ghost use Rattle.zl_flat.specs.Capped.{capped};

/// How much a program, or a part of it, expands to. Of hidden occurrences none is counted. What is counted is this project's own.
#[derive(Clone, Copy, Debug, PartialEq, Eq)]
pub struct Size {
    /// Parameters and variables.
    pub places: u64,
    /// Literals, names, `last`, operators, `if`, `up` and calls.
    pub occs: u64,
    /// Each `up`.
    pub sites: u64,
    /// The body of `main`, each arm and `else`, each `reset`, and the guard and the body of each state.
    pub blocks: u64,
    /// The greatest number of calls inside each other.
    pub calls: u64,
}

impl Size {
    /// What expands to nothing.
    pub fn none() -> Size
        ensures { result ≡ capped spec.none }
    {
        Size {
            places: 0,
            occs: 0,
            sites: 0,
            blocks: 0,
            calls: 0,
        }
    }

    /// A parameter or a variable.
    pub fn place() -> Size
        ensures { result ≡ capped spec.a_place }
    {
        Size {
            places: 1,
            occs: 0,
            sites: 0,
            blocks: 0,
            calls: 0,
        }
    }

    /// A construct that is an occurrence.
    pub fn occ() -> Size
        ensures { result ≡ capped spec.an_occ }
    {
        Size {
            places: 0,
            occs: 1,
            sites: 0,
            blocks: 0,
            calls: 0,
        }
    }

    /// An `up`: an occurrence and a site.
    pub fn crossing() -> Size
        ensures { result ≡ capped spec.an_up }
    {
        Size {
            places: 0,
            occs: 1,
            sites: 1,
            blocks: 0,
            calls: 0,
        }
    }

    /// What begins a block.
    pub fn block() -> Size
        ensures { result ≡ capped spec.a_block }
    {
        Size {
            places: 0,
            occs: 0,
            sites: 0,
            blocks: 1,
            calls: 0,
        }
    }

    /// Both together. Counts that are too large for their type stay at its greatest number.
    pub fn plus(self, other: Size) -> Size
        ensures { result ≡ capped (spec.plus self other) }
    {
        Size {
            places: self.places.saturating_add(other.places),
            occs: self.occs.saturating_add(other.occs),
            sites: self.sites.saturating_add(other.sites),
            blocks: self.blocks.saturating_add(other.blocks),
            calls: greater(self.calls, other.calls),
        }
    }

    /// A copy of a declaration of this size, inside a call.
    pub fn called(self) -> Size
        ensures { result ≡ capped (spec.in_call self) }
    {
        Size {
            places: self.places,
            occs: self.occs,
            sites: self.sites,
            blocks: self.blocks,
            calls: self.calls.saturating_add(1),
        }
    }
}

fn greater(a: u64, b: u64) -> u64
    ensures { result ≡ max a b }
{
    if a < b { b } else { a }
}
