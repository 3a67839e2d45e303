ghost use Rattle.std.specs.Prelude.{◌≡◌};
ghost use Rattle.sheet_reading.specs.Judgement.{Answers, at_line, needs, stop_at};
ghost use Rattle.sheet_reading.specs.declared.stop.ReadStop.TheVariants as variant;

use sheet_elements::{SheetFault, SheetKind};
use sheet_values::ValueStop;
use std::alloc::AllocError;
use thiserror::Error;

/// Why the elements of a stylesheet aren't accepted.
#[derive(Clone, Copy, Debug, PartialEq, Eq, Error)]
pub enum ReadStop {
    /// The first fault.
    #[error("the stylesheet has a fault")]
    Refused(SheetFault),
    #[error("out of memory")]
    Memory,
}

impl From<AllocError> for ReadStop {
    ghost from_gives = { λ _ e. e ≡ variant.Memory };

    fn from(_error: AllocError) -> ReadStop {
        ReadStop::Memory
    }
}

/// A fault of an element whose start has this line.
pub fn refused(line: u64, kind: SheetKind) -> ReadStop
    ensures { result ≡ variant.Refused (record { line = line; kind = kind }) }
{
    ReadStop::Refused(SheetFault { line, kind })
}

/// The fault of a value.
pub(crate) fn stop_at(line: u64, stop: ValueStop) -> ReadStop
    ensures { result ≡ stop_at line stop }
{
    match stop {
        ValueStop::Refused(kind) => refused(line, kind),
        ValueStop::Memory => ReadStop::Memory,
    }
}

/// Refuses an element unless the test holds.
pub fn need(test: bool, line: u64, kind: SheetKind) -> Result<(), ReadStop>
    ensures { Answers (needs test line kind) result }
{
    if test {
        Ok(())
    } else {
        Err(refused(line, kind))
    }
}
