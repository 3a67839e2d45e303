//! Words that are set once, by one writer, and read by any number of readers that never wait.
#![tactic(auto)]

mod discipline;
mod entry;
mod layout;
mod meeting;
mod opening;
mod pass;
mod past;
mod plan;
mod rule;
mod steps;
mod table;
mod threads;
mod view;
mod writer;

pub use discipline::Discipline;
pub use entry::Entry;
pub use layout::Layout;
pub use meeting::{meet, show};
pub use opening::cells;
pub use pass::Pass;
pub use past::Past;
pub use table::Cells;
pub use threads::cross_threads;
pub use writer::Writer;
