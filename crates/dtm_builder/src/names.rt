// Names that are counted, and the flaws of their limits.
ghost use Rattle.std.specs.Prelude.{◌≡◌, ◌<◌, ◌^◌, nat_lt};
ghost use Rattle.pyx_events.specs.Counted.{Names};
ghost use Rattle.pyx_events.specs.Flaw.{names_flaw};
ghost use Rattle.dtm_builder.specs.Judging.{IsCount, Adds};

use doc_model::{FlawKind, Limits};
use node_writer::NewNames;

/// How many names are counted, and their bytes; each is 2^64 - 1 where it is more.
#[derive(Clone, Copy, Debug)]
pub(crate) struct NameCount {
    pub(crate) count: u64,
    pub(crate) bytes: u64,
}

impl NameCount {
    /// Whether they are too many.
    pub(crate) fn is_over(self, limits: &Limits) -> bool
        ensures { (names : Names) → IsCount self names → result ≡ nat_lt limits.now.names names.count }
    {
        self.count > limits.names as u64
    }

    /// The flaw of these names, judged together, where the values have this many bytes.
    pub(crate) fn flaw(self, limits: &Limits, values: u64) -> Option<FlawKind>
        requires { limits.now.text < 2 ^ 32 }
        ensures { (names : Names) → IsCount self names → result ≡ names_flaw limits.now names values }
    {
        if self.is_over(limits) {
            Some(FlawKind::TooManyNames)
        } else if values > limits.text || self.bytes > limits.text - values {
            Some(FlawKind::TooMuchText)
        } else {
            None
        }
    }

    /// These names and more.
    pub(crate) fn with(self, new: NewNames) -> NameCount
        ensures { (names all : Names) → IsCount self names → Adds names new all → IsCount result all }
    {
        NameCount {
            count: self.count.saturating_add(new.count),
            bytes: self.bytes.saturating_add(new.bytes),
        }
    }
}
