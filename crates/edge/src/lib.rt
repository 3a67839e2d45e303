//! What the program meets outside: a source of bytes, a shelf of sheets, a drawer for outputs, a console and listeners.
#![tactic(auto)]

mod call_counter;
mod failure;
mod file_drawer;
mod file_shelf;
mod memory_drawer;
mod memory_listener;
mod memory_shelf;
mod memory_sink;
mod memory_source;
mod outside;
mod pair;
mod place;
mod reading;
mod status;
mod writing;

pub use failure::{Failed, Memory, ShelfError};
pub use file_drawer::FileDrawer;
pub use file_shelf::FileShelf;
pub use memory_drawer::MemoryDrawer;
pub use memory_listener::MemoryListener;
pub use memory_shelf::MemoryShelf;
pub use memory_sink::MemorySink;
pub use memory_source::MemorySource;
pub use outside::{Drawer, Listener, Shelf, Sink, Source};
pub use reading::Reading;
pub use status::Status;
pub use writing::Writing;

#[cfg(test)]
mod tests;
