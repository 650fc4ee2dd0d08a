//! Occurrences and places, of which each has a grade.

/// An occurrence or a place, by its number.
#[derive(Clone, Copy, Debug)]
pub(crate) enum Node {
    Occ(usize),
    Place(usize),
}

/// The grade of `to` depends on that of `from`.
#[derive(Clone, Copy, Debug)]
pub(crate) struct Link {
    pub(crate) from: Node,
    pub(crate) to: Node,
}
