//! Why reading words stopped.

ghost use Rattle.std.specs.Prelude.{◌≡◌};
ghost use Rattle.xpath_words.specs.declared.stop.ParseStop.TheVariants as stop;

use std::alloc::AllocError;
use xpath_grammar::Cause;

/// Why reading words stopped.
#[derive(Clone, Copy, Debug, PartialEq, Eq)]
pub enum ParseStop {
    /// Want of memory.
    Memory,
    /// Why, and how many words are left from the refused one on: none where the end is refused.
    Refused(Cause, usize),
}

impl From<AllocError> for ParseStop {
    ghost from_gives = { λ _ e. e ≡ stop.Memory };

    fn from(_error: AllocError) -> ParseStop {
        ParseStop::Memory
    }
}
