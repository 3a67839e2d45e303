//! The top call: it transforms a source while it is read, and answers a status.
#![tactic(auto)]

mod laws;
mod limits;
mod top;
mod transform;

pub use laws::{each_status_has_its_cause, told_source_is_answered};
pub use limits::{LIMITS, default_limits};
pub use top::{pace, refuse_words, starve};
