// Reads until the next line is held whole.
ghost use Rattle.std.specs.Prelude.{◌≡◌, ◌≢◌, ◌++◌, ◌⊎◌, ◌≤◌, ◌<◌, [], Ok, IfOk, IfErr, IfSome, IsErrOf, length, take, vec_len};
ghost use Rattle.std.specs.Io.KnownBytes.{Consumes, IsAtEnd, Keeps};
ghost use Rattle.edge.specs.Causes.{Rose};
ghost use Rattle.pyx_lines.specs.declared.line_error.LineError.{LineError};
ghost use Rattle.pyx_source.specs.declared.read_error.ReadError.TheVariants.{Failed, Memory, Line};
ghost use Rattle.pyx_source.specs.Feeds.{HoldsNoFeed};
ghost use Rattle.pyx_source.specs.Finding.{IsHeld, MeetsEnd, IsAllowed, Cuts, Refuses};
ghost use Rattle.pyx_source.specs.Moving.{Moves, TakesPiece, ReadsOnlyForALine};
ghost use Rattle.pyx_source.specs.Reading.{refusal_of};

use crate::ReadError;
use crate::pending::Pending;
use edge::Source;

/// The most bytes of a line before its line feed.
const LINE_LIMIT: usize = 1_048_576;

/// The most bytes that are held without a line feed when more are read.
const READ_LIMIT: usize = LINE_LIMIT;

/// The number of the last line that may be given.
const LAST_LINE: u64 = 4_294_967_295;

/// Where the next line ends in what is held.
#[derive(Clone, Copy, Debug, PartialEq, Eq)]
pub enum Found {
    /// Before the line feed at this place.
    Line(usize),
    /// At the source's end, after so many bytes.
    Last(usize),
    /// There is none.
    End,
}

/// Reads until a line feed is held or the source's end is met, where so many lines were given before.
pub fn seek<S: Source>(
    pending: &mut Pending,
    piece: &mut Vec<u8>,
    line: u64,
    source: &mut S,
) -> Result<Found, ReadError>
    requires { vec_len piece.old ≡ 65536 }
    ensures piece { vec_len piece.new ≡ 65536 }
    ensures held { IfOk result (λ found. IsHeld found pending.new) }
    ensures moved { IfOk result (λ _. Moves pending.old (S.left source.old) pending.new (S.left source.new)) }
    ensures allowed { IfOk result (λ found. IsAllowed found line) }
    ensures found { IfOk result (λ found. Cuts pending.old (S.left source.old) found pending.new (S.left source.new)) }
    ensures end { IfOk result (λ found. MeetsEnd found (S.left source.new)) }
    ensures refused { IfErr result (λ error. IfSome (refusal_of error) (λ refusal. Refuses line pending.old (S.left source.old) refusal)) }
    ensures spells { (cause : LineError) → IsErrOf result (Line cause) → ⊥ }
    ensures reads { ReadsOnlyForALine line pending.old (S.left source.old) (S.left source.new) }
    ensures later { S.faults source.old ≤ S.faults source.new }
    ensures failed { IsErrOf result Failed → Rose (S.faults source.old) (S.faults source.new) }
    ensures kept { IsErrOf result Failed → HoldsNoFeed pending.new × Moves pending.old (S.left source.old) pending.new (S.left source.new) }
{
    'reads: loop {
        if line >= LAST_LINE && pending.len() > 0 {
            return Err(ReadError::TooManyLines);
        }
        if let Some(at) = pending.line_feed() {
            if at > LINE_LIMIT {
                return Err(ReadError::LongLine);
            }
            return Ok(Found::Line(at));
        }
        if pending.len() > READ_LIMIT {
            return Err(ReadError::LongLine);
        }
        if read_piece(pending, piece, source)? == 0 {
            return Ok(at_end(pending));
        }
    }
}

// What is held at the source's end.
fn at_end(pending: &Pending) -> Found
    ensures none { pending.now ≡ [] → result ≡ Found.End }
    ensures last { 0 < length pending.now → result ≡ Found.Last (length pending.now) }
{
    match pending.len() {
        0 => Found::End,
        count => Found::Last(count),
    }
}

// Reads one piece and adds it to what is held; 0 is the end.
fn read_piece<S: Source>(
    pending: &mut Pending,
    piece: &mut Vec<u8>,
    source: &mut S,
) -> Result<usize, ReadError>
    requires { vec_len piece.old ≡ 65536 }
    ensures piece { vec_len piece.new ≡ 65536 }
    ensures read { IfOk result (λ count. (count ≤ 65536) × (pending.new ≡ pending.old ++ take count piece.new.items)
        × Consumes (S.left source.old) (S.left source.new) (take count piece.new.items)) }
    ensures source { TakesPiece (S.left source.old) (S.left source.new) }
    ensures end { result ≡ Ok 0 → IsAtEnd (S.left source.new) }
    ensures failed { IsErrOf result Failed → Rose (S.faults source.old) (S.faults source.new)
        × (pending.new ≡ pending.old) × Keeps (S.left source.old) (S.left source.new) }
    ensures errors { IfErr result (λ error. (error ≡ Failed) ⊎ (error ≡ Memory)) }
    ensures later { S.faults source.old ≤ S.faults source.new }
{
    match source.read(piece.as_mut_slice()) {
        Ok(count) => match pending.add(&piece[..count]) {
            Ok(()) => Ok(count),
            Err(_) => Err(ReadError::Memory),
        },
        Err(_) => Err(ReadError::Failed),
    }
}
