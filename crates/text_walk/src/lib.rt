//! The text that the built-in template rules give, read from any table while it grows.
#![tactic(auto)]

mod extents;
mod fault;
mod resuming;
mod turn;
mod walker;

pub use extents::links_follow_extents;
pub use fault::FaultKind;
pub use resuming::{done_is_final, fault_is_final, still_turn_stands, turn_goes_on, way_goes_on};
pub use turn::Turn;
pub use walker::Walker;
