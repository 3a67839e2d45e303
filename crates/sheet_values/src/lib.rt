//! The values of a stylesheet's attributes.
#![tactic(auto)]

mod expressions;
mod names;
mod priority;
mod reading;
mod stop;
mod value;
mod words;

pub use reading::value_of;
pub use stop::ValueStop;
pub use value::{NameTest, Value};
