// The traits of the outside. Each object counts its faults; the count never falls, and a call answers `Failed`
// only where it rose in that call. What an object holds is told by an optional meaning: real files tell nothing.
ghost use Rattle.std.specs.Prelude.{◌≡◌, ◌<◌, ℕ, List, Option, IfOk, IfSome, length};
ghost use Rattle.std.specs.Io.{ReadsAtMost};
ghost use Rattle.std.specs.Io.KnownBytes.{ReadConsumes};
ghost use Rattle.std.specs.Option.{option_map};
ghost use Rattle.edge.specs.Causes.{HasCause, HasShelfCause};
ghost use Rattle.edge.specs.Hearing.{Hearing, HearsAsTold};
ghost use Rattle.edge.specs.Outside.{Stays, AddsAtOk, WritesAll, first_named};

use crate::{Failed, ShelfError};
use std::alloc::Global;

/// What bytes are read from, once and in order.
pub trait Source {
    /// The bytes that are left, where the source tells them.
    ghost left: { Self → Option (List ℕ) };

    /// How often it has failed.
    ghost faults: { Self → ℕ };

    /// Moves the next bytes into the front of `into`, which isn't empty, and answers how many they are.
    /// 0 comes exactly where no byte is left; any smaller number than fits may come before that. `Failed` leaves
    /// the bytes that are left as they were. Takes no memory.
    fn read(&mut self, into: &mut [u8]) -> Result<usize, Failed>
        requires { 0 < length into.old }
        ensures bound { ReadsAtMost result into.new }
        ensures bytes { ReadConsumes (left self.old) (left self.new) result into.new }
        ensures cause { HasCause (faults self.old) (faults self.new) result };
}

/// What stylesheets are fetched from, by name.
pub trait Shelf {
    /// The pairs of name and bytes, where the shelf tells them.
    ghost pairs: { Self → Option (List (List ℕ × List ℕ)) };

    /// How often it has failed.
    ghost faults: { Self → ℕ };

    /// The bytes of the first pair of this name, or None where there is none. No call changes the pairs.
    fn fetch(&mut self, alloc: Global, name: &str) -> Result<Option<Vec<u8>>, ShelfError>
        ensures pairs { Stays (pairs self.old) (pairs self.new) }
        ensures found { IfOk result (λ found. IfSome (pairs self.old) (λ all.
            option_map (λ bytes. bytes.items) found ≡ first_named name.now all)) }
        ensures cause { HasShelfCause (faults self.old) (faults self.new) result };
}

/// What whole outputs are put into, by name.
pub trait Drawer {
    /// The puts so far, each a name and bytes, where the drawer tells them.
    ghost puts: { Self → Option (List (List ℕ × List ℕ)) };

    /// How often it has failed.
    ghost faults: { Self → ℕ };

    /// Puts bytes under a name. `Failed` puts nothing, where the puts are told. Takes no memory.
    fn put(&mut self, name: &str, bytes: &[u8]) -> Result<(), Failed>
        ensures puts { AddsAtOk (puts self.old) (puts self.new) result (name.now, bytes.now) }
        ensures cause { HasCause (faults self.old) (faults self.new) result };
}

/// What a text is written to, as a console.
pub trait Sink {
    /// The bytes written so far, where the sink tells them.
    ghost written: { Self → Option (List ℕ) };

    /// How often it has failed.
    ghost faults: { Self → ℕ };

    /// Appends all bytes. After `Failed` a front of them may have gone out. Takes no memory.
    fn write(&mut self, bytes: &[u8]) -> Result<(), Failed>
        ensures written { WritesAll (written self.old) (written self.new) result bytes.now }
        ensures cause { HasCause (faults self.old) (faults self.new) result };
}

/// Who hears the messages of the transformations. It is handed in boxed.
pub trait Listener: Drop {
    /// The messages heard so far, each the number of a sheet and a line, where the listener tells them.
    ghost heard: { Self → Option (List (ℕ × List ℕ)) };

    /// How many calls it had, the numbers of those that fail and the room that is left, where the listener tells them.
    ghost hearing: { Self → Option Hearing };

    /// How often it has failed.
    ghost faults: { Self → ℕ };

    /// Hears a message. `Failed` leaves what was heard. Takes no memory.
    fn hear(&mut self, sheet: u32, line: &[u8]) -> Result<(), Failed>
        ensures heard { AddsAtOk (heard self.old) (heard self.new) result (sheet, line.now) }
        ensures calls { HearsAsTold (hearing self.old) (hearing self.new) result line.now }
        ensures cause { HasCause (faults self.old) (faults self.new) result };
}
