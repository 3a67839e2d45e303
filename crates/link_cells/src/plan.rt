use crate::layout::Layout;

/// What the table of words is told once: how many words it has, and their layout.
#[derive(Clone, Copy)]
pub struct Plan {
    pub words: usize,
    pub layout: Layout,
}
