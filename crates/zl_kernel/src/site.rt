/// A site: a number that is looked at for its crossings of zero, by the wires of its value, of whether it is fresh, so that it
/// doesn't fire, and of its slope. This project's own.
#[derive(Clone, Copy, Debug, PartialEq, Eq)]
pub struct KSite {
    pub value: u32,
    pub fresh: u32,
    pub slope: u32,
}
