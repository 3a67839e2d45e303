// The lines of a source, however it is cut into pieces.
ghost use Rattle.std.specs.Prelude.{◌≡◌, ◌≢◌, ◌≤◌, ◌+◌, [], false, Ok, Err, Some, None, IsTrue, IfOk, IfErr, IfSome, IsErrOf, OnErr, length, take};
ghost use Rattle.std.specs.Str.Lines.{strip_carriage_return};
ghost use Rattle.std.specs.Io.KnownBytes.{IsAtEnd};
ghost use Rattle.edge.specs.Causes.{Rose};
ghost use Rattle.pyx_lines.specs.Lines.{judged};
ghost use Rattle.pyx_source.specs.declared.read_error.ReadError.TheVariants.{Failed};
ghost use Rattle.pyx_source.specs.Feeds.{HoldsNoFeed};
ghost use Rattle.pyx_source.specs.Moving.{Moves, ReadsOnlyForALine};
ghost use Rattle.pyx_source.specs.Reading.{error_for, fresh, IsSpelled, TakesNext, refusal_of, lines_by, passed_by, after_refusal, GivesLine, GivesNext, RefusesNext, CountsNext, CountsRefusal};

use crate::ReadError;
use crate::pending::Pending;
use crate::seeking::{Found, seek};
use edge::{Memory, Source};
use pyx_lines::{Line, LineError, read_line};
use std::alloc::Global;
use std::marker::Model;

/// The most bytes that are asked for at a time.
const PIECE: usize = 65_536;

/// Gives the lines of a source one by one. It keeps the bytes that were read and not yet given.
#[derive(Drop)]
pub struct LineReader {
    pending: Pending,
    piece: Vec<u8>,
    line: u64,
    passed: u64,
    ended: bool,
    refused: Option<ReadError>,
}

impl Model for LineReader {
    ghost use Rattle.std.specs.Prelude.{◌≡◌, vec_len};
    ghost use Rattle.pyx_source.specs.Reading.{Reading, IsSound};

    ghost Value = { Reading };

    ghost view = { λ r. record { held = r.pending; line = r.line; passed = r.passed; ended = r.ended; refused = r.refused } };

    ghost invariant = { λ r. (vec_len r.piece ≡ 65536)
        × IsSound (record { held = r.pending; line = r.line; passed = r.passed; ended = r.ended; refused = r.refused }) };
}

impl LineReader {
    /// A reader that has read nothing yet.
    pub fn start(alloc: Global) -> Result<LineReader, Memory>
        ensures { IfOk result (λ reader. reader ≡ fresh) }
    {
        let Ok(piece) = vec![in alloc; 0; PIECE] else {
            return Err(Memory);
        };
        Ok(LineReader {
            pending: Pending::new(alloc),
            piece,
            line: 0,
            passed: 0,
            ended: false,
            refused: None,
        })
    }

    /// How many of the lines given so far were passed over.
    pub fn passed(&self) -> u64
        ensures { result ≡ self.now.passed }
    {
        self.passed
    }

    /// The number, counted from 1, of the last line that was given or refused; 0 before the first.
    pub fn line(&self) -> u64
        ensures line { result ≡ self.now.line }
        ensures bound { result ≤ 4294967296 }
    {
        self.line
    }

    /// The next line, or None at the source's end, and then for good, as any error is given for good. It reads
    /// only while what is held has no line feed, at most 65,536 bytes at a time. Linear in the bytes, whatever
    /// pieces they come in. Every call is to be given the same source.
    ///
    /// LongLine comes at the 1,048,577th byte without a line feed, TooManyLines where line 4,294,967,296 begins,
    /// and Failed only where the source failed: then every line that ends in the bytes read was given before.
    pub fn next<S: Source>(
        &mut self,
        alloc: Global,
        source: &mut S,
    ) -> Result<Option<Line>, ReadError>
        ensures given { self.old.ended ≡ false →
            IfOk result (λ given. GivesNext self.old (S.left source.old) given self.new (S.left source.new)) }
        ensures taken { self.old.ended ≡ false →
            IfOk result (λ given. TakesNext self.old (S.left source.old) given self.new (S.left source.new)) }
        ensures spells { IfOk result (λ given. IfSome given IsSpelled) }
        ensures end { self.old.ended ≡ false → IsTrue self.new.ended → self.new.refused ≡ None → IsAtEnd (S.left source.new) }
        ensures nothing { IsTrue self.new.ended → self.new.held ≡ [] }
        ensures counted { IfOk result (λ given. CountsNext self.old given self.new) }

        // The first refusal, and what it leaves.
        ensures refused { self.old.refused ≡ None → IfErr result (λ error. IfSome (refusal_of error) (λ refusal.
            RefusesNext self.old (S.left source.old) refusal)) }
        ensures kept { self.old.refused ≡ None → IfErr result (λ error. CountsRefusal self.old error self.new) }
        ensures failed { self.old.refused ≡ None → IsErrOf result Failed → Rose (S.faults source.old) (S.faults source.new) }
        ensures whole { self.old.refused ≡ None → IsErrOf result Failed → HoldsNoFeed self.new.held
            × Moves self.old.held (S.left source.old) self.new.held (S.left source.new) }
        ensures spelled { IsErrOf result (ReadError.Line LineError.Memory) → ⊥ }

        // A refusal and the end are given for good.
        ensures for_good { IfSome self.old.refused (λ error. (result ≡ Err error) × (self.new ≡ self.old) × (source.new ≡ source.old)) }
        ensures over { self.old.refused ≡ None → IsTrue self.old.ended → (result ≡ Ok None) × (self.new ≡ self.old) × (source.new ≡ source.old) }

        // What it reads.
        ensures reads { ReadsOnlyForALine self.old.line self.old.held (S.left source.old) (S.left source.new) }
        ensures later { S.faults source.old ≤ S.faults source.new }
    {
        if let Some(error) = self.refused {
            return Err(error);
        }
        if self.ended {
            return Ok(None);
        }
        self.advance(alloc, source)
    }

    // The next line of a reader that has refused none and hasn't met the source's end.
    fn advance<S: Source>(
        &mut self,
        alloc: Global,
        source: &mut S,
    ) -> Result<Option<Line>, ReadError>
        requires open { self.old.refused ≡ None }
        requires unended { self.old.ended ≡ false }
        ensures given { IfOk result (λ given. GivesNext self.old (S.left source.old) given self.new (S.left source.new)) }
        ensures taken { IfOk result (λ given. TakesNext self.old (S.left source.old) given self.new (S.left source.new)) }
        ensures spells { IfOk result (λ given. IfSome given IsSpelled) }
        ensures end { IsTrue self.new.ended → self.new.refused ≡ None → IsAtEnd (S.left source.new) }
        ensures nothing { IsTrue self.new.ended → self.new.held ≡ [] }
        ensures counted { IfOk result (λ given. CountsNext self.old given self.new) }
        ensures refused { IfErr result (λ error. IfSome (refusal_of error) (λ refusal.
            RefusesNext self.old (S.left source.old) refusal)) }
        ensures kept { IfErr result (λ error. CountsRefusal self.old error self.new) }
        ensures failed { IsErrOf result Failed → Rose (S.faults source.old) (S.faults source.new) }
        ensures whole { IsErrOf result Failed → HoldsNoFeed self.new.held
            × Moves self.old.held (S.left source.old) self.new.held (S.left source.new) }
        ensures spelled { IsErrOf result (ReadError.Line LineError.Memory) → ⊥ }
        ensures reads { ReadsOnlyForALine self.old.line self.old.held (S.left source.old) (S.left source.new) }
        ensures later { S.faults source.old ≤ S.faults source.new }
    {
        match seek(&mut self.pending, &mut self.piece, self.line, source) {
            Ok(Found::Line(at)) => self.give(alloc, at, false),
            Ok(Found::Last(at)) => self.give(alloc, at, true),
            Ok(Found::End) => {
                self.ended = true;
                Ok(None)
            }
            Err(error) => Err(self.refuse(error)),
        }
    }

    // Gives the line of the first `at` bytes held, and takes its line feed if it has one.
    fn give(&mut self, alloc: Global, at: usize, ended: bool) -> Result<Option<Line>, ReadError>
        requires open { self.old.refused ≡ None }
        requires held { at ≤ length self.old.held }
        requires short { at ≤ 1048576 }
        requires few { self.old.line + 1 ≤ 4294967295 }
        requires all { IsTrue ended → at ≡ length self.old.held }
        ensures given { IfOk result (λ given. GivesLine self.old at ended given self.new) }
        ensures nothing { IsTrue self.new.ended → self.new.held ≡ [] }
        ensures refused { IfErr result (λ error. IfSome (refusal_of error) (λ refusal.
            judged (self.old.line + 1) (take at self.old.held) ≡ Err refusal)) }
        ensures failed { IsErrOf result Failed → ⊥ }
        ensures spelled { IsErrOf result (ReadError.Line LineError.Memory) → ⊥ }
        ensures kept { IfErr result (λ error. self.new ≡ after_refusal self.old error) }
    {
        match read_line(alloc, without_return(self.pending.front(at))) {
            Ok(line) => {
                self.pending.take(at + 1);
                self.line += 1;
                self.passed += passed_count(&line);
                self.ended = ended;
                Ok(Some(line))
            }
            Err(error) => Err(self.refuse(error_of(error))),
        }
    }

    fn refuse(&mut self, error: ReadError) -> ReadError
        requires open { self.old.refused ≡ None }
        requires spelled { error ≢ ReadError.Line LineError.Memory }
        ensures same { result ≡ error }
        ensures kept { self.new ≡ after_refusal self.old error }
    {
        self.line += line_count(error);
        self.refused = Some(error);
        error
    }
}

fn passed_count(line: &Line) -> u64
    ensures { result ≡ passed_by line.now }
{
    match line {
        Line::Passed => 1,
        _ => 0,
    }
}

fn line_count(error: ReadError) -> u64
    ensures { result ≡ lines_by error }
{
    match error {
        ReadError::Failed | ReadError::Memory => 0,
        _ => 1,
    }
}

fn error_of(error: LineError) -> ReadError
    ensures { result ≡ error_for error }
{
    match error {
        LineError::Memory => ReadError::Memory,
        _ => ReadError::Line(error),
    }
}

// A line without one carriage return at its end.
fn without_return(line: &[u8]) -> &[u8]
    ensures { result.now ≡ strip_carriage_return line.now }
{
    match line {
        [front @ .., b'\r'] => front,
        _ => line,
    }
}
