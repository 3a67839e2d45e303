//! Numbers for the names and prefixes of a source, in the order of their first sight.
#![tactic(auto)]

mod name_pool;
mod pool_error;
#[cfg(test)]
mod tests;
mod text_numbers;
mod type_index;
mod type_numbers;

pub use name_pool::NamePool;
pub use pool_error::{Memory, PoolError};
pub use type_index::TypeIndex;
