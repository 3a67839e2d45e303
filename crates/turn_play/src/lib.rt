//! The turns of the readers among the feeds of a source, and the lines that tell their progress.
#![tactic(auto)]

mod play;
mod turn;

pub use play::play_turns;
pub use turn::last_turns;
