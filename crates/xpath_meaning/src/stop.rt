use fault_kinds::FaultKind;
use std::alloc::AllocError;
use thiserror::Error;

/// Why an expression gave no value.
#[derive(Clone, Copy, Debug, PartialEq, Eq, Error)]
pub enum EvalStop {
    /// This row must be shut first, and at a step of the call it was not.
    #[error("row {0} is not shut yet")]
    NotYet(u32),
    /// The first fault of the expression.
    #[error("the expression has a fault")]
    Fault(FaultKind),
    #[error("out of memory")]
    Memory,
}

impl From<AllocError> for EvalStop {
    ghost use Rattle.std.specs.Prelude.{◌≡◌};
    ghost use Rattle.xpath_meaning.specs.declared.stop.EvalStop.TheVariants.{Memory};

    ghost from_gives = { λ _ e. e ≡ Memory };

    fn from(_error: AllocError) -> EvalStop {
        EvalStop::Memory
    }
}
