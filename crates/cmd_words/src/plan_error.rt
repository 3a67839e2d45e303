ghost use Rattle.std.specs.Prelude.{◌≡◌};
ghost use Rattle.cmd_words.specs.declared.plan_error.PlanError.TheVariants.{Memory};

use std::alloc::AllocError;
use thiserror::Error;

/// Why words give no plan.
#[derive(Clone, Copy, Debug, PartialEq, Eq, Error)]
pub enum PlanError {
    #[error("the words are no plan")]
    NoPlan,
    #[error("out of memory")]
    Memory,
}

impl From<AllocError> for PlanError {
    ghost from_gives = { λ _ e. e ≡ Memory };

    fn from(_error: AllocError) -> PlanError {
        PlanError::Memory
    }
}
