//! The names that instructions compute.
#![tactic(auto)]

mod computed;
mod stop;
#[cfg(test)]
mod tests;

pub use computed::{computed_name, is_target};
pub use stop::NameStop;
