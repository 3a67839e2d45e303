/// A pair of a shelf over memory.
#[derive(Debug, Drop)]
pub struct Pair {
    pub name: String,
    pub bytes: Vec<u8>,
}
