//! The document table in vectors, for one thread.
#![tactic(auto)]

mod entry;
mod stored_row;
mod table;
mod view;

pub use table::Plain;
pub use view::PlainView;
