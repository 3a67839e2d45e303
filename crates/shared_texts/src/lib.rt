//! Texts that have several owners, and texts that are numbered.
#![tactic(auto)]

mod laws;
mod shared;
mod text_store;

pub use laws::a_text_has_its_place_as_its_number;
pub use shared::Shared;
pub use text_store::{NumberedText, TextStore};
