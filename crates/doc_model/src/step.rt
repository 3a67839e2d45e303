use crate::flaw::Flaw;
use crate::row::Row;
use lists::List;

/// How a document ended.
#[derive(Clone, Copy, Debug, PartialEq, Eq)]
pub enum Verdict {
    /// It is whole.
    Good,
    /// It has this flaw.
    Bad(Flaw),
    /// A read of the source failed.
    Failed,
    /// There was no memory to go on.
    Starved,
    /// What the source was made from gave no whole document.
    Upstream,
}

/// One step of the list that a table grows by.
#[derive(Clone, Debug, Drop, PartialEq, Eq)]
pub enum Step {
    /// A row and its attributes, in the order of their lines.
    Node { row: Row, attributes: List<Row> },
    /// The innermost open element ends.
    Shut,
    /// Nothing follows.
    End(Verdict),
}
