//! The entries of the tables of numbers.

/// The entry that the number of a wire counts from: none, since it is known; of an occurrence or a place, which of its
/// entries; the one of those that join `again`.
#[derive(Clone, Copy, Debug)]
pub(crate) enum Slot {
    Fixed,
    OfOcc(u32, u32),
    OfPlace(u32, u32),
    OfAgain,
}
