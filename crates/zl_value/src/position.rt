/// A place in a text: line and column, both from 1. A column counts characters, and a line ends with a line feed.
#[derive(Clone, Copy, Debug, PartialEq, Eq)]
pub struct Pos {
    pub line: u32,
    pub column: u32,
}
