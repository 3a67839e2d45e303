//! What is delivered as lines reads back as the nodes that it was made of.
#![tactic(auto)]

mod laws;

pub use laws::delivered_lines_read_back;
