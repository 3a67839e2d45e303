ghost use Rattle.std.specs.Prelude.{◌≡◌, ◌+◌, ◌-◌, ◌≤◌, ◌<◌, ◌↔◌, ◌⊎◌, ◌++◌, [], Some, IfOk, OnOk, OnErr, IsErr, length};
ghost use Rattle.edge.specs.Causes.{HasCause};
ghost use Rattle.edge.specs.Outside.{WritesAll};
ghost use Rattle.edge.specs.Memory.{FailsNext, fresh, counted, faulted};

use crate::call_counter::CallCounter;
use crate::{Failed, Memory, Sink};
use std::alloc::Global;
use std::marker::Model;

/// A sink that keeps what is written, up to the bytes of its room. A write that fails appends nothing.
#[derive(Drop)]
pub struct MemorySink {
    kept: Vec<u8>,
    room: usize,
    calls: CallCounter,
}

impl Model for MemorySink {
    ghost use Rattle.std.specs.Prelude.{◌+◌, ◌≤◌, length, vec_capacity};
    ghost use Rattle.edge.specs.Memory.{SinkState};

    ghost Value = { SinkState };

    ghost view = { λ s. record { written = s.kept.items; room = s.room; calls = s.calls } };

    ghost invariant = { λ s. s.room + length s.kept.items ≤ vec_capacity s.kept };
}

impl MemorySink {
    /// An empty sink for at most `room` bytes, which are reserved here. The calls whose numbers, counted from 1,
    /// are in `failing` fail, and so does one that doesn't fit.
    pub fn make(alloc: Global, failing: &[u64], room: usize) -> Result<MemorySink, Memory>
        ensures { IfOk result (λ sink. sink ≡ record { written = []; room = room; calls = fresh failing.now }) }
    {
        let kept = Vec::with_capacity(alloc, room).map_err(|_| Memory)?;
        let calls = CallCounter::new(alloc, failing)?;
        Ok(MemorySink { kept, room, calls })
    }

    /// The bytes written.
    pub fn written(&self) -> &[u8]
        ensures { result.now ≡ self.now.written }
    {
        &self.kept
    }
}

impl Sink for MemorySink {
    ghost written = { λ s. Some s.written };

    ghost faults = { λ s. s.calls.faults };

    fn write(&mut self, bytes: &[u8]) -> Result<(), Failed>
        ensures written { WritesAll (Some self.old.written) (Some self.new.written) result bytes.now }
        ensures cause { HasCause self.old.calls.faults self.new.calls.faults result }

        // What it does by its numbers and its room.
        ensures fails { IsErr result ↔ (FailsNext self.old.calls ⊎ (self.old.room < length bytes.now)) }
        ensures ok { OnOk result (self.new ≡ record self.old {
          written = self.old.written ++ bytes.now;
          room = self.old.room - length bytes.now;
          calls = counted self.old.calls;
        }) }
        ensures err { OnErr result (self.new ≡ record self.old { calls = faulted self.old.calls }) }
    {
        if self.calls.fails_next() || bytes.len() > self.room {
            return Err(self.calls.fault());
        }
        self.kept.extend_from_slice(bytes).unwrap();
        self.room -= bytes.len();
        Ok(())
    }
}
