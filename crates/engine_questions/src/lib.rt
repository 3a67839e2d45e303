//! What a stylesheet that runs asks of a document that may still grow, as a trait; and the words for what it answers.
#![tactic(auto)]

mod item_stream;
mod laws;
mod questions;
mod shallow;

pub use item_stream::ItemStream;
pub use laws::{seen_nodes_stay, worlds_go_on};
pub use questions::Questions;
pub use shallow::Shallow;
