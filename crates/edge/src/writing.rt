ghost use Rattle.std.specs.Prelude.{◌≡◌, None, OnOk};
ghost use Rattle.std.specs.Io.KnownBytes.{Appends};
ghost use Rattle.edge.specs.Causes.{HasCause};
ghost use Rattle.edge.specs.Adapters.{CountsErrors};
ghost use Rattle.edge.specs.Outside.{WritesAll};

use crate::{Failed, Sink};
use std::io::Write;
use std::marker::Model;

/// A sink over a writer, as standard output. Each write is flushed.
#[derive(Drop)]
pub struct Writing<W: Write> {
    inner: W,
    faults: u64,
}

impl<W: Write> Model for Writing<W> {
    ghost use Rattle.edge.specs.Adapters.{Adapter};

    ghost Value = { Adapter W };

    ghost view = { λ s. record { inner = s.inner; faults = s.faults } };
}

impl<W: Write> Writing<W> {
    /// A sink that has not failed yet.
    pub fn new(inner: W) -> Writing<W>
        ensures { result ≡ record { inner = inner; faults = 0 } }
    {
        Writing { inner, faults: 0 }
    }
}

impl<W: Write> Sink for Writing<W> {
    ghost written = { λ _. None };

    ghost faults = { λ s. s.faults };

    fn write(&mut self, bytes: &[u8]) -> Result<(), Failed>
        ensures cause { HasCause self.old.faults self.new.faults result }
        ensures faults { CountsErrors self.old.faults self.new.faults result }
        ensures sent { OnOk result (Appends (W.contents self.old.inner) (W.contents self.new.inner) bytes.now) }
    {
        if self.inner.write_all(bytes).is_ok() && self.inner.flush().is_ok() {
            return Ok(());
        }
        self.faults = self.faults.saturating_add(1);
        Err(Failed)
    }
}
