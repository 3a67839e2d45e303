/// What is known of a link.
#[derive(Clone, Copy, Debug, PartialEq, Eq)]
pub enum Look {
    /// The row that is linked.
    Node(u32),
    /// There is none, and there will be none.
    Nothing,
    /// There is none yet.
    NotYet,
}
