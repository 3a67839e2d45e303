//! Nesting, namespaces and the flaws of lines, and the nodes that the lines give.
#![tactic(auto)]

mod checker;
mod completing;
mod declarations;
mod elements;
mod event;
mod event_error;
mod expanded_names;
mod halt;
mod judging;
mod laws;
mod lines;
mod nesting;
mod pending_start;
mod progress;
mod texts;

pub use checker::Checker;
pub use doc_model::Limits;
pub use event::{Event, Events};
pub use event_error::EventError;
pub use laws::{
    a_source_without_a_flaw_has_flawless_lines, first_flaw_is_judged_at_the_least_line,
    flawless_lines_begin_a_source, numbers_stand_for_uris,
};
