//! The events of a result tree, as they are made and as they are put in order.
#![tactic(auto)]

mod attributes;
mod buffer;
mod event;
mod index;
mod tidying;

pub use buffer::Buffer;
pub use event::{Attribute, Events, Name, ResultEvent, copy_event, copy_events, copy_name};
pub use tidying::{tidy, what_is_tidy_stays};

#[cfg(test)]
mod tests;
