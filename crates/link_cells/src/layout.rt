/// Three numbers that are given when the cells are made, and that a discipline may read: how the words are
/// laid out.
#[derive(Clone, Copy)]
pub struct Layout {
    pub first: u64,
    pub second: u64,
    pub third: u64,
}
