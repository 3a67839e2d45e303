//! Lists of rows in document order.
#![tactic(auto)]

mod order;
#[cfg(test)]
mod tests;

pub use order::{ascends, in_order, union};
