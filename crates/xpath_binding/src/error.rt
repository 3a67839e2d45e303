//! Why an expression isn't bound.

ghost use Rattle.std.specs.Prelude.{◌≡◌};
ghost use Rattle.xpath_binding.specs.declared.error.BindError.TheVariants as error;

use std::alloc::AllocError;
use thiserror::Error;

/// Why an expression or a pattern isn't bound.
#[derive(Clone, Copy, Debug, PartialEq, Eq, Error)]
pub enum BindError {
    /// No scope binds the prefix of a name.
    #[error("unbound prefix")]
    UnboundPrefix,
    /// There is no function of this name.
    #[error("unknown function")]
    UnknownFunction,
    /// The function doesn't take so many arguments, or key() no such first one.
    #[error("wrong arguments")]
    WrongArgs,
    /// There is no variable of this name.
    #[error("unknown variable")]
    UnknownVariable,
    /// The namespace axis, or current() in a pattern.
    #[error("unsupported")]
    Unsupported,
    /// Want of memory.
    #[error("out of memory")]
    Memory,
}

impl From<AllocError> for BindError {
    ghost from_gives = { λ _ e. e ≡ error.Memory };

    fn from(_error: AllocError) -> BindError {
        BindError::Memory
    }
}
