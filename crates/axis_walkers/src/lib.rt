//! The rows of an axis, asked of any view of a table that may grow.
#![tactic(auto)]

mod ancestors;
mod attributes;
mod axis_walk;
mod child_stream;
mod children;
mod descendants;
mod following;
mod itself;
mod judged;
mod parents;
mod preceding;
mod selection;
mod siblings;

pub use axis_walk::walk;
pub use child_stream::{ChildStream, streams_stay};
pub use doc_model::{Ask, Axis, Test};
