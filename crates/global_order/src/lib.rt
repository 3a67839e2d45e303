//! The order in which the global variables of a stylesheet are evaluated, or the first of them that depends on itself
//! (XSLT 1.0, section 11.4).
#![tactic(auto)]

mod components;
mod graph;
mod guess;
mod laws;
mod marks;
mod moments;
mod namers;
mod numbers;
mod order;
#[cfg(test)]
mod tests;

pub use graph::Node;
pub use laws::{one_order, order_or_circle};
pub use order::{OrderStop, order_of};
