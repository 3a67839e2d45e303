//! Laws of the document model: functions without code whose contracts say what holds of the definitions.
#![tactic(auto)]

mod answers;
mod axes;
mod documents;
mod lawful_lists;
mod places;
mod relations;

pub use answers::{
    answers_are_exact_on_a_still_table, answers_stay, nothing_follows_an_end,
    still_tables_do_not_grow,
};
pub use axes::{
    ancestors_are_the_parent_and_its_ancestors, descendants_are_within_the_extent, known_axes_stay,
};
pub use documents::{
    attributes_stand_right_after_their_row, axes_are_in_order, root_holds_every_row,
    rows_are_legible, whole_documents_have_no_open_row,
};
pub use lawful_lists::{beginnings_are_lawful, legal_logs_stand_for_lawful_steps};
pub use places::texts_are_placed_at_the_least_multiple_of_seven;
pub use relations::{
    children_are_descendants_one_deeper, extent_bounds_the_subtree, innermost_is_the_last_open,
    open_rows_are_counted, parent_is_the_greatest_above, shut_is_not_open, shut_stays,
};
