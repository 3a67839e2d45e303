//! Nodes written into a table that grows.
#![tactic(auto)]

mod filler;
mod known;
mod new_names;
mod open_row;
mod writer;

pub use new_names::NewNames;
pub use writer::NodeWriter;
