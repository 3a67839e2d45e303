//! Where nodes are found by keys (XSLT 1.0, section 12.2) and by IDs (XPath 1.0, section 4.1), beside a view of a
//! document that may still grow; and the words for what calls on both say.
#![tactic(auto)]

mod no_keys;
mod source;

pub use no_keys::NoKeys;
pub use source::KeySource;
pub use xpath_meaning::EvalStop;
