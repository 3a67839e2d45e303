//! The namespaces of a stylesheet, one entry a declaration, so that a scope is a number and none is copied.
#![tactic(auto)]

mod scope;
#[cfg(test)]
mod tests;

pub use scope::{ScopeEntry, an_entry_at_the_end_adds_a_scope, resolve};
