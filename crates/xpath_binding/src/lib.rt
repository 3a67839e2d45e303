//! What the names of expressions are bound to.
#![tactic(auto)]

mod around;
mod binding;
mod error;
mod functions;
mod marks;
mod names;
mod patterns;

pub use binding::bind;
pub use error::BindError;
pub use functions::{Function, function_named};
pub use marks::mark;
pub use names::VarNames;
pub use patterns::bind_pattern;
