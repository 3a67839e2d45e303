//! A view of a table in which the whitespace texts that strip rules hide are not seen.
#![tactic(auto)]

mod judge;
mod laws;
mod rules;
mod siblings;
mod spaces;
mod view;

pub use doc_model::{StripRule, StripRules};
pub use laws::{
    highest_and_last_rule_decides, links_are_those_of_visible_rows, nearest_space_decides,
};
pub use view::StripView;
