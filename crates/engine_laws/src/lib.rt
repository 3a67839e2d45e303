//! Laws of what a stylesheet means: functions without code whose contracts say what holds of the definitions.
#![tactic(auto)]

mod growth;
mod rules;
mod sorting;
mod waiting;

pub use growth::{choices_stay, executions_go_on, meanings_go_on};
pub use rules::choices_stand_over_other_matching_rules;
pub use sorting::sorted_places_are_the_one_sorted_list;
pub use waiting::meanings_wait_for_open_rows;
