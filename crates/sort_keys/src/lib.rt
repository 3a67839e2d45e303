//! The order of nodes by their sort keys (XSLT 1.0, section 10).
#![tactic(auto)]

mod key;
mod ordering;
#[cfg(test)]
mod tests;

pub use key::{How, KeyPart, KeyRow};
pub use ordering::order;
