//! A `Vec` and a `Box` that contracts see as what they hold, so that a tree of them is plain data.
#![tactic(auto)]

mod boxed;
mod list;
#[cfg(test)]
mod tests;

pub use boxed::Boxed;
pub use list::List;
