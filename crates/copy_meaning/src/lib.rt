//! What a copy of a node is, as result events, on the part of a document that is there (XSLT 1.0, section 11.3).
//! Definitions, and laws of them.
#![tactic(auto)]

mod laws;

pub use laws::{copies_are_made_of_copies, copies_are_passes, known_copies_stay};
