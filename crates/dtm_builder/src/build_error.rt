ghost use Rattle.std.specs.Prelude.{◌≡◌};
ghost use Rattle.dtm_builder.specs.Judging.{verdict_of};

use doc_model::{Flaw, Verdict};
use std::alloc::AllocError;
use thiserror::Error;

/// Why a builder takes no more lines.
#[derive(Clone, Copy, Debug, PartialEq, Eq, Error)]
pub enum BuildError {
    /// The source has this flaw, with which the table ended.
    #[error("the source has a flaw")]
    Refused(Flaw),
    /// The table ended as Starved.
    #[error("out of memory")]
    Memory,
}

impl From<AllocError> for BuildError {
    ghost use Rattle.std.specs.Prelude.{◌≡◌};
    ghost use Rattle.dtm_builder.specs.declared.build_error.BuildError.TheVariants.{Memory};

    ghost from_gives = { λ _ e. e ≡ Memory };

    fn from(_error: AllocError) -> BuildError {
        BuildError::Memory
    }
}

impl BuildError {
    /// What a table that is built no further ends with.
    pub(crate) fn verdict(self) -> Verdict
        ensures { result ≡ verdict_of self }
    {
        match self {
            BuildError::Refused(flaw) => Verdict::Bad(flaw),
            BuildError::Memory => Verdict::Starved,
        }
    }
}
