//! The elements of a stylesheet, as its lines give them.
#![tactic(auto)]

mod building;
mod bytes;
mod error;
mod reading;
mod tree;

pub use error::SourceStop;
pub use reading::read_document;
pub use tree::{Document, Element, Node, Start};
