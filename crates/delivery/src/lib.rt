//! What a call answers, and how it is delivered: what is put, and what the console is told.
#![tactic(auto)]

mod console;
mod delivering;
mod putting;
mod telling;

pub use console::{say_faults, say_flaw};
pub use delivering::deliver;
pub use telling::tell;
