//! One source fed line by line into a table that several readers follow, on one thread.
#![tactic(auto)]

mod follower;
mod outcome;
mod session;

pub use line_feeder::Fed;
pub use outcome::Outcome;
pub use session::Session;
pub use text_walk::{FaultKind, Turn};
