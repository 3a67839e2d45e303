//! What a turn answers.

use fault_kinds::FaultKind;
use std::alloc::AllocError;
use thiserror::Error;

/// What a turn answers.
#[derive(Clone, Copy, Debug, PartialEq, Eq)]
pub enum Turn {
    /// This row must be shut first.
    NotYet(u32),
    /// The transformation is done.
    Done,
    /// The transformation has a fault.
    Faulted(FaultKind),
}

/// Want of memory, for good.
#[derive(Clone, Copy, Debug, PartialEq, Eq, Error)]
#[error("out of memory")]
pub struct Spent;

impl From<AllocError> for Spent {
    fn from(_error: AllocError) -> Spent {
        Spent
    }
}
