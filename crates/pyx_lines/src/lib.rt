//! One line of the notation, read from its bytes and written back.
#![tactic(auto)]

mod escapes;
mod laws;
mod line;
mod line_error;
mod reading;
mod writing;

pub use laws::{
    refusals_come_in_their_order, what_is_read_can_be_written, what_is_read_is_spelled,
    what_is_written_reads_back, written_lines_read_back_one_by_one,
};
pub use line::Line;
pub use line_error::LineError;
pub use reading::read_line;
pub use writing::{
    write_attribute, write_comment, write_end, write_instruction, write_line, write_start,
    write_text,
};
