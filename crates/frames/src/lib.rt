//! The frames of a transformation that stops and resumes: what is left to do of each body, select, list of parameters
//! and body that is run apart; and their stack, which takes no native stack.
#![tactic(auto)]

mod frame;
mod parts;
mod stack;

pub use frame::Frame;
pub use parts::{Call, Declaring, Handed, Passing, Purpose, Use, Work};
pub use stack::Stack;
