use crate::entry::Entry;
use crate::layout::Layout;
use std::collections::LinkedList;

/// What a seat at the table knows. It stands in the rule of the table alone: no value of it is made.
pub struct View {
    /// False once the seat was spent by a join into another.
    pub live: bool,
    /// The one writer's.
    pub writes: bool,
    pub layout: Layout,
    /// The sets that it has seen, the oldest first.
    pub seen: LinkedList<Entry>,
    /// What the pass had seen that was joined into this seat.
    pub met: LinkedList<Entry>,
}
