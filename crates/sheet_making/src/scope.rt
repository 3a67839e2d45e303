//! What elements are made with.

use sheet_names::Names;

/// What stays as it is while a stylesheet is made.
#[derive(Drop)]
pub struct Making<'a> {
    pub names: &'a Names,
    /// Whether the nodes of its paths may be taken one by one.
    pub streams: bool,
}
