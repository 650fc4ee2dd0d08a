/// How each occurrence and each place of a form moves in flows: 0 stands still, 1 moves on a straight line, 2 moves in another
/// way. An occurrence that isn't graded has 3. The rule is this project's own.
#[derive(Debug, Drop)]
pub struct Grades {
    pub occs: Vec<u8>,
    pub places: Vec<u8>,
}
