//! Laws of what expressions mean: functions without code whose contracts say what holds of the definitions.
#![tactic(auto)]

mod abbreviations;
mod growth;
mod ordering;
mod parts;
mod soundness;

pub use abbreviations::{a_dot_is_the_context_node, two_dots_are_the_parent};
pub use growth::{
    evaluations_stay, items_go_on, matches_stay, readings_extend, what_is_read_stays,
};
pub use ordering::document_order_is_the_ascending_list_of_the_nodes;
pub use parts::{meanings_are_made_of_those_of_the_parts, paths_are_made_of_steps};
pub use soundness::{
    evaluations_tell_of_rows_that_are_there, items_are_rows_that_are_there,
    matches_wait_for_open_rows, readings_tell_of_rows_that_are_there,
    whole_documents_leave_nothing_open,
};
