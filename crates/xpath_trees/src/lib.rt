//! The trees of expressions and patterns, read from words.
#![tactic(auto)]

mod expressions;
mod patterns;

pub use expressions::expression_tree;
pub use patterns::pattern_tree;
