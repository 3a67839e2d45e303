ghost use Rattle.std.specs.Prelude.{◌≡◌, ◌+◌, ◌-◌, ◌*◌, ◌≤◌, ◌<◌, ◌↔◌, ◌⊎◌, ◌++◌, [], ◌∷◌, Some, IfOk, OnOk, OnErr, IsErr, IsTrue, length, map, slice_get, vec_capacity};
ghost use Rattle.std.specs.List.{zip};
ghost use Rattle.edge.specs.Causes.{HasCause};
ghost use Rattle.edge.specs.Outside.{AddsAtOk};
ghost use Rattle.edge.specs.Hearing.{HearsAsTold, FailsToHear, heard_size};
ghost use Rattle.edge.specs.Memory.{fresh, counted, faulted, hearing_of};

use crate::memory_drawer::MemoryDrawer;
use crate::{Drawer, Failed, Listener, Memory};
use std::alloc::Global;
use std::marker::Model;

/// What a hearing counts against a listener's room beside its line.
const HEARING: usize = 16;

/// A listener that keeps what it hears, up to its room, against which each hearing counts 16 bytes beside those of its
/// line. A call that fails keeps nothing.
#[derive(Drop)]
pub struct MemoryListener {
    // The lines, put without a name.
    lines: MemoryDrawer,
    sheets: Vec<u32>,
}

impl Model for MemoryListener {
    ghost use Rattle.std.specs.Prelude.{◌≡◌, ◌+◌, ◌*◌, ◌≤◌, length, map, vec_capacity};
    ghost use Rattle.std.specs.List.{zip};
    ghost use Rattle.edge.specs.Memory.{ListenerState};

    ghost Value = { ListenerState };

    ghost view = { λ l. record { heard = zip l.sheets.items (map (λ put. put.1) l.lines.puts); room = l.lines.room; calls = l.lines.calls } };

    ghost invariant = { λ l.
        (length l.sheets.items ≡ length l.lines.puts)
        × (l.lines.room + 16 * length l.sheets.items ≤ 16 * vec_capacity l.sheets + 15) };
}

impl MemoryListener {
    /// A listener that has heard nothing, with this room, which is reserved here. The calls whose numbers, counted
    /// from 1, are in `failing` fail, and so does one that doesn't fit.
    pub fn make(alloc: Global, failing: &[u64], room: usize) -> Result<MemoryListener, Memory>
        ensures { IfOk result (λ listener. listener ≡ record { heard = []; room = room; calls = fresh failing.now }) }
    {
        let lines = MemoryDrawer::make(alloc, failing, room)?;
        let sheets = Vec::with_capacity(alloc, room / HEARING).map_err(|_| Memory)?;
        Ok(MemoryListener { lines, sheets })
    }

    /// How many messages were heard.
    pub fn len(&self) -> usize
        ensures { result ≡ length self.now.heard }
    {
        self.sheets.len()
    }

    /// Whether nothing was heard.
    pub fn is_empty(&self) -> bool
        ensures { IsTrue result ↔ (self.now.heard ≡ []) }
    {
        self.lines.is_empty()
    }

    /// The sheet of a message, counted from 0.
    pub fn sheet(&self, index: usize) -> u32
        requires { index < length self.now.heard }
        ensures { slice_get (map (λ message. message.0) self.now.heard) index ≡ Some result }
    {
        self.sheets[index]
    }

    /// The line of a message, counted from 0.
    pub fn line(&self, index: usize) -> &[u8]
        requires { index < length self.now.heard }
        ensures { slice_get (map (λ message. message.1) self.now.heard) index ≡ Some result.now }
    {
        self.lines.bytes(index)
    }
}

impl Listener for MemoryListener {
    ghost heard = { λ l. Some l.heard };

    ghost hearing = { λ l. Some (hearing_of l) };

    ghost faults = { λ l. l.calls.faults };

    fn hear(&mut self, sheet: u32, line: &[u8]) -> Result<(), Failed>
        ensures heard { AddsAtOk (Some self.old.heard) (Some self.new.heard) result (sheet, line.now) }
        ensures calls { HearsAsTold (Some (hearing_of self.old)) (Some (hearing_of self.new)) result line.now }
        ensures cause { HasCause self.old.calls.faults self.new.calls.faults result }

        // What it does by its numbers and its room.
        ensures fails { IsErr result ↔ FailsToHear (hearing_of self.old) line.now }
        ensures ok { OnOk result (self.new ≡ record self.old {
          heard = self.old.heard ++ (sheet, line.now) ∷ [];
          room = self.old.room - heard_size line.now;
          calls = counted self.old.calls;
        }) }
        ensures err { OnErr result (self.new ≡ record self.old { calls = faulted self.old.calls }) }
    {
        self.lines.put("", line)?;
        self.sheets.push(sheet).unwrap();
        Ok(())
    }
}
