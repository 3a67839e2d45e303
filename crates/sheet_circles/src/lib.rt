//! The order in which the globals of a stylesheet are evaluated, or the first that depends on itself (XSLT 1.0, section
//! 11.4).
#![tactic(auto)]

mod bodies;
mod expressions;
mod modes;
mod nodes;
mod numbers;
mod order;

pub use global_order::OrderStop;
pub use order::order_of_globals;
