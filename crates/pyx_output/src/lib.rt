//! The bytes that result events are delivered as.
#![tactic(auto)]

mod bytes;
mod choosing;
mod free_numbers;
mod heading;
mod laws;
mod nest;
mod numbered;
mod used;

pub use bytes::bytes_of;
pub use laws::a_free_prefix_is_found;

#[cfg(test)]
mod tests;
