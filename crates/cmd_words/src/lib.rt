//! The words of the programs: which words are a plan, and the plan.
#![tactic(auto)]

mod item;
mod name;
mod pair;
mod plan_error;
mod planned;
mod words;

pub use item::Item;
pub use name::Name;
pub use pair::Pair;
pub use plan_error::PlanError;
pub use planned::Plan;
pub use words::{USAGE, plan, usage};

#[cfg(test)]
mod tests;
