use crate::event::Events;
use doc_model::Flaw;
use std::alloc::AllocError;
use thiserror::Error;

/// Why a line, or the input's end, gives no events.
#[derive(Debug, Drop, PartialEq, Eq, Error)]
pub enum EventError {
    /// The source has this flaw. `completed` is the node of the start that the refused line, or the
    /// input's end, completed without a flaw; else it is empty.
    #[error("the source has a flaw")]
    Refused { flaw: Flaw, completed: Events },
    #[error("out of memory")]
    Memory,
}

impl From<AllocError> for EventError {
    ghost use Rattle.std.specs.Prelude.{◌≡◌};
    ghost use Rattle.pyx_events.specs.declared.event_error.EventError.TheVariants.{Memory};

    ghost from_gives = { λ _ e. e ≡ Memory };

    fn from(_error: AllocError) -> EventError {
        EventError::Memory
    }
}
