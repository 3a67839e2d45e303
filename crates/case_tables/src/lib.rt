//! Tables that are built from the lines of a document, for the tests of the crates that read tables.
#![tactic(auto)]

mod building;

pub use building::{begin, begun, feed, whole};
