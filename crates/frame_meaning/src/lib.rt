//! What is left of a transformation, by the frames of a machine that stops and resumes: definitions, and their laws as
//! functions without code.
#![tactic(auto)]

mod laws;

pub use laws::{transformations_are_left_at_the_start, what_is_left_goes_on};
