//! What a stylesheet that runs asks, answered from any view of a document that may still grow.
#![tactic(auto)]

mod children;
mod document;
mod items;

pub use document::Document;
pub use items::Items;
