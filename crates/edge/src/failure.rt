// How calls on the outside fail.
use thiserror::Error;

/// The object failed, and counted it.
#[derive(Clone, Copy, Debug, PartialEq, Eq, Error)]
#[error("failed")]
pub struct Failed;

/// Want of memory.
#[derive(Clone, Copy, Debug, PartialEq, Eq, Error)]
#[error("out of memory")]
pub struct Memory;

/// Why a shelf gives no answer.
#[derive(Clone, Copy, Debug, PartialEq, Eq, Error)]
pub enum ShelfError {
    /// The shelf failed, and counted it.
    #[error("failed")]
    Failed,
    /// Want of memory for the bytes.
    #[error("out of memory")]
    Memory,
}
