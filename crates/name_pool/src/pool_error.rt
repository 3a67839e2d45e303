use thiserror::Error;

/// Why a pool gives no number.
#[derive(Clone, Copy, Debug, PartialEq, Eq, Error)]
pub enum PoolError {
    /// The name is new, and as many types and prefixes were added as the limit allows.
    #[error("too many names")]
    Full,
    #[error("out of memory")]
    Memory,
}

/// Want of memory.
#[derive(Clone, Copy, Debug, PartialEq, Eq, Error)]
#[error("out of memory")]
pub struct Memory;
