//! The state of a transformation that stops and resumes, and the words for its moves.
#![tactic(auto)]

mod copies;
mod state;

pub use copies::{copy_given, cut_back};
pub use state::Core;
