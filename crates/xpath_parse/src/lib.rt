//! Expressions, patterns and attribute value templates read from texts.
#![tactic(auto)]

mod error;
mod laws;
mod parse;
mod place;
mod templates;

pub use error::ParseError;
pub use laws::{an_answer, one_answer};
pub use parse::{expression, pattern};
pub use templates::{a_template, one_template, value_template};
