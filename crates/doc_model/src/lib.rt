//! The model of a document table that grows: rows, steps, and what a table and a view of it answer.
#![tactic(auto)]

mod ask;
mod axis;
mod flaw;
mod grow;
mod limits;
mod look;
mod node_test;
mod places;
mod row;
mod step;
mod string_value;
mod strip_rule;
mod view;

pub use ask::Ask;
pub use axis::axis_by_filter;
pub use flaw::{Flaw, FlawKind};
pub use grow::GrowCells;
pub use limits::Limits;
pub use look::Look;
pub use node_test::Test;
pub use places::{Join, NamePlace, PrefixPlace, Room, RowPlace, text_place};
pub use row::{Axis, Kind, NameText, Row};
pub use step::{Step, Verdict};
pub use string_value::value_by_filter;
pub use strip_rule::{StripRule, StripRules};
pub use view::NodeView;
