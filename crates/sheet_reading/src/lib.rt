//! The first pass over a stylesheet: its elements in document order, each with the checks that need no other element.
#![tactic(auto)]

mod attributes;
mod declaring;
mod judging;
mod placing;
mod stop;
mod tree;

pub use judging::read_elements;
pub use stop::{ReadStop, need, refused};
pub use tree::{Given, Item, Judged, Name};
