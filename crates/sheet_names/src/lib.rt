//! The second pass over a stylesheet: the names of its templates, variables, modes and keys.
#![tactic(auto)]

mod declaring;
mod judging;
mod name_set;
mod placing;
mod searching;
mod slots;

pub use declaring::{
    Names, Templates, first_name, is_variable, mode_name, names_of, template_name, variable_name,
};
pub use judging::{check_names, enter};
pub use name_set::{ExpandedName, NameSet};
pub use placing::{place, place_parts};
pub use slots::{numbered, slot_of};
