//! Copies of nodes as result events, over any view (XSLT 1.0, section 11.3).
#![tactic(auto)]

mod beginning;
mod climbing;
mod copying;

pub use beginning::{begin, name_of, own_value};
pub use copying::copy_node;
pub use doc_model::Ask;
