//! The values of variables and the nodes of selects, and what a transformation does with them.
#![tactic(auto)]

mod found;
mod selection;
mod uses;

pub use found::{Found, find_value};
pub use selection::{Selection, find_nodes, lay};
pub use uses::{give, use_value};
