//! Lines built into a table that grows.
#![tactic(auto)]

mod build_error;
mod builder;
mod judging;
mod laws;
mod names;
mod recall;
mod steps;

pub use build_error::BuildError;
pub use builder::Builder;
pub use laws::{flawless_lines_begin_a_source, what_is_read_is_readable};
