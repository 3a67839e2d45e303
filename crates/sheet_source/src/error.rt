ghost use Rattle.std.specs.Prelude.{◌≡◌};
ghost use Rattle.sheet_source.specs.Stops.{stop_for};
ghost use Rattle.sheet_source.specs.declared.error.SourceStop.TheVariants as variant;

use doc_model::Flaw;
use pyx_events::EventError;
use std::alloc::AllocError;
use thiserror::Error;

/// Why the bytes of a stylesheet give no elements.
#[derive(Clone, Copy, Debug, PartialEq, Eq, Error)]
pub enum SourceStop {
    /// The first flaw of its lines.
    #[error("the stylesheet has a flaw")]
    Flawed(Flaw),
    #[error("out of memory")]
    Memory,
}

impl From<AllocError> for SourceStop {
    ghost from_gives = { λ _ e. e ≡ variant.Memory };

    fn from(_error: AllocError) -> SourceStop {
        SourceStop::Memory
    }
}

impl From<edge::Memory> for SourceStop {
    ghost from_gives = { λ _ e. e ≡ variant.Memory };

    fn from(_error: edge::Memory) -> SourceStop {
        SourceStop::Memory
    }
}

impl From<EventError> for SourceStop {
    ghost from_gives = { λ e s. s ≡ stop_for e };

    fn from(error: EventError) -> SourceStop {
        match error {
            EventError::Refused { flaw, completed: _ } => SourceStop::Flawed(flaw),
            EventError::Memory => SourceStop::Memory,
        }
    }
}
