use lists::List;
use text_walk::FaultKind;

/// What a transformation comes to.
#[derive(Debug, Drop, PartialEq, Eq)]
pub struct Outcome {
    pub fault: Option<FaultKind>,
    /// What was made; empty after a fault.
    pub bytes: List<u8>,
    /// The messages, in their order: the built-in rules give none.
    pub messages: List<List<u8>>,
    /// How many result events were made.
    pub made: u64,
}
