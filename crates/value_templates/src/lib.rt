//! What instructions compute of a document that may still grow by several questions, one after the other: the texts of
//! attribute value templates, names, and sort keys. Each is answered as one question is.
#![tactic(auto)]

mod keys;
mod names;
mod texts;

pub use keys::key_row;
pub use names::{computed_name, computed_target};
pub use texts::template_text;
