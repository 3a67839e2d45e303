ghost use Rattle.std.specs.Prelude.{◌≡◌};
ghost use Rattle.sheet_compile.specs.Stops.{stop_of_reading, stop_of_source};
ghost use Rattle.sheet_compile.specs.declared.stop.CompileStop.TheVariants as variant;

use sheet_elements::{SheetFault, SheetKind};
use sheet_reading::ReadStop;
use sheet_source::SourceStop;
use std::alloc::AllocError;
use thiserror::Error;

/// Why bytes give no stylesheet.
#[derive(Clone, Copy, Debug, PartialEq, Eq, Error)]
pub enum CompileStop {
    /// The first fault, by passes: those of the lines, those of each element by itself, those of names, and a circle.
    #[error("the stylesheet has a fault")]
    Refused(SheetFault),
    #[error("out of memory")]
    Memory,
}

impl From<AllocError> for CompileStop {
    ghost from_gives = { λ _ e. e ≡ variant.Memory };

    fn from(_error: AllocError) -> CompileStop {
        CompileStop::Memory
    }
}

impl From<SourceStop> for CompileStop {
    ghost from_gives = { λ e s. s ≡ stop_of_source e };

    fn from(error: SourceStop) -> CompileStop {
        match error {
            SourceStop::Flawed(flaw) => refused(flaw.line, SheetKind::of_flaw(flaw.kind)),
            SourceStop::Memory => CompileStop::Memory,
        }
    }
}

impl From<ReadStop> for CompileStop {
    ghost from_gives = { λ e s. s ≡ stop_of_reading e };

    fn from(error: ReadStop) -> CompileStop {
        match error {
            ReadStop::Refused(fault) => CompileStop::Refused(fault),
            ReadStop::Memory => CompileStop::Memory,
        }
    }
}

/// The fault of an element whose start has this line.
pub fn refused(line: u64, kind: SheetKind) -> CompileStop
    ensures { result ≡ variant.Refused (record { line = line; kind = kind }) }
{
    CompileStop::Refused(SheetFault { line, kind })
}
