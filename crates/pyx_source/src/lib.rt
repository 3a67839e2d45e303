//! The lines of a source, one by one, however it is cut into pieces.
#![tactic(auto)]

mod line_reader;
mod pending;
mod read_error;
mod seeking;

pub use line_reader::LineReader;
pub use read_error::ReadError;
