//! The messages of transformations, told to boxed listeners.
#![tactic(auto)]

mod message;
mod telling;
#[cfg(test)]
mod tests;

pub use message::{Dropped, Message};
pub use telling::tell_all;
