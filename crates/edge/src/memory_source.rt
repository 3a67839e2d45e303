ghost use Rattle.std.specs.Prelude.{◌≡◌, ◌≤◌, ◌<◌, ◌↔◌, ◌++◌, min, [], Some, IfOk, OnErr, IsErr, length, take, drop};
ghost use Rattle.std.specs.Io.{ReadsAtMost};
ghost use Rattle.std.specs.Io.KnownBytes.{ReadConsumes};
ghost use Rattle.edge.specs.Causes.{HasCause};
ghost use Rattle.edge.specs.Memory.{FailsNext, fresh, counted, faulted};

use crate::call_counter::CallCounter;
use crate::{Failed, Memory, Source};
use std::alloc::Global;
use std::marker::Model;

/// A source over bytes in memory. Each read gives as many bytes as are left, fit and make a piece.
#[derive(Drop)]
pub struct MemorySource {
    bytes: Vec<u8>,
    at: usize,
    piece: usize,
    calls: CallCounter,
}

impl Model for MemorySource {
    ghost use Rattle.std.specs.Prelude.{◌≤◌, length, drop};
    ghost use Rattle.edge.specs.Memory.{SourceState};

    ghost Value = { SourceState };

    ghost view = { λ s. record { left = drop s.at s.bytes.items; piece = s.piece; calls = s.calls } };

    ghost invariant = { λ s. (s.at ≤ length s.bytes.items) × (1 ≤ s.piece) };
}

impl MemorySource {
    /// A source over a copy of `bytes`, which gives at most `piece` of them a call. The calls whose numbers,
    /// counted from 1, are in `failing` fail.
    pub fn make(
        alloc: Global,
        bytes: &[u8],
        piece: usize,
        failing: &[u64],
    ) -> Result<MemorySource, Memory>
        requires { 1 ≤ piece }
        ensures { IfOk result (λ source. source ≡ record { left = bytes.now; piece = piece; calls = fresh failing.now }) }
    {
        let bytes = bytes.to_vec(alloc).map_err(|_| Memory)?;
        let calls = CallCounter::new(alloc, failing)?;
        Ok(MemorySource {
            bytes,
            at: 0,
            piece,
            calls,
        })
    }
}

impl Source for MemorySource {
    ghost left = { λ s. Some s.left };

    ghost faults = { λ s. s.calls.faults };

    fn read(&mut self, into: &mut [u8]) -> Result<usize, Failed>
        requires { 0 < length into.old }
        ensures bound { ReadsAtMost result into.new }
        ensures bytes { ReadConsumes (Some self.old.left) (Some self.new.left) result into.new }
        ensures cause { HasCause self.old.calls.faults self.new.calls.faults result }

        // What it does by its numbers and its piece.
        ensures fails { IsErr result ↔ FailsNext self.old.calls }
        ensures amount { IfOk result (λ count. count ≡ min (min (length self.old.left) (length into.new)) self.old.piece) }
        ensures ok { IfOk result (λ count. self.new ≡ record self.old { left = drop count self.old.left; calls = counted self.old.calls }) }
        ensures err { OnErr result (self.new ≡ record self.old { calls = faulted self.old.calls }) }
    {
        if self.calls.fails_next() {
            return Err(self.calls.fault());
        }
        let count = copy_front(&self.bytes[self.at..], into, self.piece);
        self.at += count;
        Ok(count)
    }
}

// Copies the front of `rest` into the front of `into`, as far as it fits and at most `most` bytes.
fn copy_front(rest: &[u8], into: &mut [u8], most: usize) -> usize
    ensures amount { result ≡ min (min (length rest.now) (length into.new)) most }
    ensures front { rest.now ≡ take result into.new ++ drop result rest.now }
{
    let count = rest.len().min(into.len()).min(most);
    into[..count].copy_from_slice(&rest[..count]);
    count
}
