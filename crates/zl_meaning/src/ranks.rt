/// Numbers of the places and blocks of a form: where it is causal, each can be greater than those of all on which it depends.
#[derive(Debug, Drop)]
pub struct Ranks {
    pub places: Vec<u32>,
    pub blocks: Vec<u32>,
}
