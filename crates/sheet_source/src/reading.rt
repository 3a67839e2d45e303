ghost use Rattle.std.specs.Prelude.{◌≡◌, ◌++◌, [], List as Lst, Some, true, OnOk, IfErr, IfSome};
ghost use Rattle.pyx_events.specs.Checking.{HasRoom, Stands};
ghost use Rattle.pyx_events.specs.Flaw.{line_flaw};
ghost use Rattle.pyx_events.specs.declared.event.Event.{Event as AnyEvent};
ghost use Rattle.pyx_lines.specs.declared.line.Line.{Line as ALine};
ghost use Rattle.sheet_source.specs.Building.{completed};
ghost use Rattle.sheet_source.specs.Nodes.{source_of, sheet_limits};
ghost use Rattle.sheet_source.specs.Answers.{Answers};
ghost use Rattle.sheet_source.specs.Reading.{TakesLine, flaw_in, rest_of};
ghost use Rattle.sheet_source.specs.Stops.{flawed, stop_at};

use crate::building::Building;
use crate::bytes::Bytes;
use crate::error::SourceStop;
use crate::tree::Document;
use doc_model::{Flaw, FlawKind, Limits};
use lists::List;
use pyx_events::{Checker, Event};
use pyx_lines::{Line, LineError};
use pyx_source::{LineReader, ReadError};
use std::alloc::{AllocError, Global};

/// The limits of a stylesheet's lines.
const LIMITS: Limits = Limits {
    rows: 200_000,
    text: 8_388_608,
    names: 0,
};

/// The elements of a stylesheet of these bytes, or the first flaw of its lines, without those of names. It has at
/// most 200,000 rows and 8,388,608 bytes of text. Linear in the bytes, but for the logarithm of what is in scope.
pub fn read_document(alloc: Global, bytes: &[u8]) -> Result<Document, SourceStop>
    ensures { Answers (source_of bytes.now) result }
{
    let mut source = Bytes { rest: bytes };
    let mut reader = LineReader::start(alloc)?;
    let mut checker = Checker::start(alloc, LIMITS)?;
    let mut building = Building::start(alloc);
    'lines: loop {
        match reader.next(alloc, &mut source) {
            Ok(Some(line)) => take_line(&mut checker, &mut building, alloc, line)?,
            Ok(None) => return close(checker, building, alloc),
            Err(error) => return Err(stop(error, reader.line())),
        }
    }
}

// Judges a line and takes its events.
fn take_line(
    checker: &mut Checker,
    building: &mut Building,
    alloc: Global,
    line: Line,
) -> Result<(), SourceStop>
    requires { HasRoom 4294967295 checker.old }
    ensures taken { (before : Lst ALine) → Stands sheet_limits checker.old before → OnOk result (TakesLine checker.new building.old building.new before line) }
    ensures refused { (before : Lst ALine) → Stands sheet_limits checker.old before → IfErr result (λ stop. IfSome (flaw_in stop) (λ flaw. line_flaw sheet_limits true before line ≡ Some flaw)) }
{
    let events = checker.line(alloc, line)?;
    take_all(building, alloc, events)?;
    Ok(())
}

// Judges the end of the lines, and gives what they made.
fn close(checker: Checker, building: Building, alloc: Global) -> Result<Document, SourceStop>
    requires { HasRoom 4294967296 checker }
    ensures { (before : Lst ALine) → Stands sheet_limits checker before → Answers (rest_of building before []) result }
{
    let mut checker = checker;
    checker.close(alloc)?;
    Ok(building.finish()?)
}

// Takes the events of a line.
fn take_all(building: &mut Building, alloc: Global, events: List<Event>) -> Result<(), AllocError>
    ensures { OnOk result ((later : Lst AnyEvent) → completed building.new later ≡ completed building.old (events ++ later)) }
{
    for event in events.into_vec() {
        building.take(alloc, event)?;
    }
    Ok(())
}

// Why the reader gives no line. Bytes in memory never fail.
fn stop(error: ReadError, line: u64) -> SourceStop
    ensures { result ≡ stop_at error line }
{
    match error {
        ReadError::LongLine => flaw(line, FlawKind::LongLine),
        ReadError::TooManyLines => flaw(line, FlawKind::TooManyLines),
        ReadError::Line(LineError::NotUtf8) => flaw(line, FlawKind::NotUtf8),
        ReadError::Line(LineError::UnknownLine) => flaw(line, FlawKind::UnknownLine),
        ReadError::Line(LineError::NoSpace) => flaw(line, FlawKind::NoSpace),
        ReadError::Line(LineError::BadName) => flaw(line, FlawKind::BadName),
        ReadError::Line(LineError::Memory) | ReadError::Failed | ReadError::Memory => {
            SourceStop::Memory
        }
    }
}

fn flaw(line: u64, kind: FlawKind) -> SourceStop
    ensures { result ≡ flawed line kind }
{
    SourceStop::Flawed(Flaw { line, kind })
}
