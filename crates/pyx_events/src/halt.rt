ghost use Rattle.std.specs.Prelude.{◌≡◌};
ghost use Rattle.pyx_events.specs.Answer.{halt_of, repeated};

use crate::event_error::EventError;
use doc_model::Flaw;
use lists::List;
use std::alloc::Global;

/// Why a checker takes no more lines.
#[derive(Clone, Copy, Debug, PartialEq, Eq)]
pub enum Halt {
    Flawed(Flaw),
    Starved,
}

impl Halt {
    pub fn of(error: &EventError) -> Halt
        ensures { result ≡ halt_of error.now }
    {
        match error {
            EventError::Refused { flaw, completed: _ } => Halt::Flawed(*flaw),
            EventError::Memory => Halt::Starved,
        }
    }

    /// The refusal as it is given from then on.
    pub fn repeated(self, alloc: Global) -> EventError
        ensures { result ≡ repeated self }
    {
        match self {
            Halt::Flawed(flaw) => EventError::Refused {
                flaw,
                completed: List::new(alloc),
            },
            Halt::Starved => EventError::Memory,
        }
    }
}
