//! What depends on what.

use lists::List;

/// A global variable, a template, or all templates of a mode. A node is named by its place in the list of all, counted
/// from 0.
#[derive(Debug, Drop)]
pub struct Node {
    /// Whether it is a global variable or parameter.
    pub is_global: bool,
    /// The nodes that it names: the globals that its expressions mention, the templates that it calls, the modes whose
    /// templates it applies, and of a mode its templates. A number that is no node's needs nothing.
    pub names: List<u32>,
}
