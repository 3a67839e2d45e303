//! Which nodes match a pattern (XSLT 1.0, section 5.2), over any view of a document that may still grow, with what finds
//! nodes by keys and IDs.
#![tactic(auto)]

mod matching;
mod siblings;
mod starting;
mod stepping;
mod testing;
mod trials;

pub use matching::{matches, path_matches};
pub use xpath_meaning::EvalStop;
