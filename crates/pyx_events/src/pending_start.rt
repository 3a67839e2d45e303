use lists::List;

/// An attribute line of a start that is pending.
#[derive(Debug, Drop)]
pub struct Attribute {
    pub name: List<u8>,
    pub value: List<u8>,
}

/// A start that only attribute and passed-over lines have followed.
#[derive(Debug, Drop)]
pub struct PendingStart {
    pub name: List<u8>,
    /// The number of its line, counted from 1.
    pub line: u64,
    /// In the order of their lines.
    pub attributes: List<Attribute>,
}
