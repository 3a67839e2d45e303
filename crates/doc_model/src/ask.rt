use std::alloc::AllocError;
use thiserror::Error;

/// Why a call on a view gave no value.
#[derive(Clone, Copy, Debug, PartialEq, Eq, Error)]
pub enum Ask {
    /// This row must be shut first, and at a step of the call it was not.
    #[error("row {0} is not shut yet")]
    NotYet(u32),
    #[error("out of memory")]
    Memory,
}

impl From<AllocError> for Ask {
    ghost use Rattle.std.specs.Prelude.{◌≡◌};
    ghost use Rattle.doc_model.specs.declared.ask.Ask.TheVariants.{Memory};

    ghost from_gives = { λ _ e. e ≡ Memory };

    fn from(_error: AllocError) -> Ask {
        Ask::Memory
    }
}
