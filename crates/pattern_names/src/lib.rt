//! The local names of the nodes that match a pattern (XSLT 1.0, section 5.2).
#![tactic(auto)]

mod names;

pub use names::nodes_that_match_have_the_wanted_name;
