//! Laws of location paths and patterns in the standard's words: functions without code whose contracts say what holds of
//! the definitions.
#![tactic(auto)]

mod selecting;
mod slashes;

pub use selecting::patterns_match_what_they_select;
pub use slashes::two_slashes_lead_to_the_descendants;
