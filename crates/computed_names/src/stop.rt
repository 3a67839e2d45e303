//! Why a computed name stands for none.

ghost use Rattle.std.specs.Prelude.{◌≡◌};
ghost use Rattle.computed_names.specs.declared.stop.NameStop.TheVariants as stop;

use std::alloc::AllocError;
use thiserror::Error;

/// Why a computed name stands for none.
#[derive(Clone, Copy, Debug, PartialEq, Eq, Error)]
pub enum NameStop {
    /// No name, or no name of an attribute.
    #[error("bad name")]
    BadName,
    /// No scope binds the prefix of the name.
    #[error("unbound prefix")]
    UnboundPrefix,
    /// Want of memory.
    #[error("out of memory")]
    Memory,
}

impl From<AllocError> for NameStop {
    ghost from_gives = { λ _ e. e ≡ stop.Memory };

    fn from(_error: AllocError) -> NameStop {
        NameStop::Memory
    }
}
