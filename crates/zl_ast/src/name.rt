use zl_value::Pos;

/// A name where it stands in the text.
#[derive(Clone, Copy, Debug, PartialEq, Eq)]
pub struct Name {
    /// The name's number in the file's list of names.
    pub id: u32,
    pub at: Pos,
}
