//! Whether a stylesheet asks for context sizes outside predicates, so that the nodes of no select may be taken one by one.
#![tactic(auto)]

mod asking;
mod parts;
mod sheet;

pub use sheet::asks_size;
