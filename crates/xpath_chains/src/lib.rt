//! Chains of operators in the trees of expressions: their operands, copies of trees, and which calls a tree has.
#![tactic(auto)]

mod chain;
mod copies;
mod mentions;

pub use chain::{Applied, Chain, chain_of};
pub use copies::{copy, copy_name, copy_pattern_path};
pub use mentions::{
    mentions_last, mentions_position, step_mentions_last, uses_last_outside_predicates,
};
