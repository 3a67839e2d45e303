use crate::fault::FaultKind;

/// How far a turn came.
#[derive(Clone, Copy, Debug, PartialEq, Eq)]
pub enum Turn {
    /// What comes next can't be told yet: the row of this number is not shut.
    NotYet(u32),
    /// The whole document was reached.
    Done,
    /// The transformation ended with a fault.
    Faulted(FaultKind),
}
