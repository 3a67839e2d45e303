ghost use Rattle.std.specs.Prelude.{◌≡◌, ◌↔◌, ◌++◌, [], ◌∷◌, Some, IfOk, IfSome, OnOk, OnErr, IsErrOf, find, option_copied, string_bytes, bytes_eq};
ghost use Rattle.std.specs.Option.{option_map};
ghost use Rattle.edge.specs.Causes.{HasShelfCause};
ghost use Rattle.edge.specs.Outside.{Stays, first_named};
ghost use Rattle.edge.specs.Memory.{FailsNext, fresh, counted, faulted};
ghost use Rattle.edge.specs.Pairs.{pair_of};

use crate::call_counter::CallCounter;
use crate::pair::Pair;
use crate::{Memory, Shelf, ShelfError};
use std::alloc::Global;
use std::marker::Model;

/// A shelf over pairs in memory. A fetch looks through them from the first on, and copies what it finds.
#[derive(Drop)]
pub struct MemoryShelf {
    pairs: Vec<Pair>,
    calls: CallCounter,
}

impl Model for MemoryShelf {
    ghost use Rattle.std.specs.Prelude.{map};
    ghost use Rattle.edge.specs.Memory.{ShelfState};
    ghost use Rattle.edge.specs.Pairs.{pair_of};

    ghost Value = { ShelfState };

    ghost view = { λ s. record { pairs = map pair_of s.pairs.items; calls = s.calls } };
}

impl MemoryShelf {
    /// An empty shelf. The fetches whose numbers, counted from 1, are in `failing` fail.
    pub fn make(alloc: Global, failing: &[u64]) -> Result<MemoryShelf, Memory>
        ensures { IfOk result (λ shelf. shelf ≡ record { pairs = []; calls = fresh failing.now }) }
    {
        let calls = CallCounter::new(alloc, failing)?;
        Ok(MemoryShelf {
            pairs: Vec::new(alloc),
            calls,
        })
    }

    /// Adds a pair behind those that are there. A refusal changes nothing.
    pub fn add(&mut self, alloc: Global, name: &str, bytes: &[u8]) -> Result<(), Memory>
        ensures ok { OnOk result (self.new ≡ record self.old { pairs = self.old.pairs ++ (name.now, bytes.now) ∷ [] }) }
        ensures err { OnErr result (self.new ≡ self.old) }
    {
        let pair = Pair {
            name: name.to_string(alloc).map_err(|_| Memory)?,
            bytes: bytes.to_vec(alloc).map_err(|_| Memory)?,
        };
        self.pairs.push(pair).map_err(|_| Memory)
    }
}

impl Shelf for MemoryShelf {
    ghost pairs = { λ s. Some s.pairs };

    ghost faults = { λ s. s.calls.faults };

    fn fetch(&mut self, alloc: Global, name: &str) -> Result<Option<Vec<u8>>, ShelfError>
        ensures pairs { Stays (Some self.old.pairs) (Some self.new.pairs) }
        ensures found { IfOk result (λ found. IfSome (Some self.old.pairs) (λ all.
            option_map (λ bytes. bytes.items) found ≡ first_named name.now all)) }
        ensures cause { HasShelfCause self.old.calls.faults self.new.calls.faults result }

        // What it does by its numbers.
        ensures fails { IsErrOf result ShelfError.Failed ↔ FailsNext self.old.calls }
        ensures failed { IsErrOf result ShelfError.Failed → self.new ≡ record self.old { calls = faulted self.old.calls } }
        ensures ok { OnOk result (self.new ≡ record self.old { calls = counted self.old.calls }) }
        ensures memory { IsErrOf result ShelfError.Memory → self.new ≡ record self.old { calls = counted self.old.calls } }
    {
        if self.calls.fails_next() {
            let _failed = self.calls.fault();
            return Err(ShelfError::Failed);
        }
        let Some(pair) = find_named(&self.pairs, name) else {
            return Ok(None);
        };
        let bytes = pair.bytes.to_vec(alloc).map_err(|_| ShelfError::Memory)?;
        Ok(Some(bytes))
    }
}

// The first pair of this name.
fn find_named<'a>(pairs: &'a [Pair], name: &str) -> Option<&'a Pair>
    ensures { option_copied result ≡ find (λ pair. bytes_eq name.now (string_bytes pair.name)) pairs.now }
{
    pairs.iter().find(|pair| name == pair.name.as_str())
}
