//! The lines of one source, fed one by one into a table that grows.
#![tactic(auto)]

mod answering;
mod fed;
mod feeder;
mod laws;

pub use fed::Fed;
pub use feeder::Feeder;
pub use laws::{
    fed_lines_are_a_beginning, last_feed_finds_the_end_or_the_first_flaw,
    what_was_asked_stays_asked,
};
