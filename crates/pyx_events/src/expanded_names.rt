// Expanded names (Namespaces in XML 1.0, section 2.1) that are told apart by the numbers of their URIs.
ghost use Rattle.std.specs.Prelude.{◌≡◌, ◌==◌, ◌&&◌, ◌||◌, false, not, ℕ, List, IfOk, OnOk};
ghost use Rattle.std.specs.Str.{bytes_eq};
ghost use Rattle.pyx_events.specs.Expanded.{has_name};

use std::alloc::{AllocError, Global};
use std::collections::BTreeSet;

#[derive(PartialEq, Eq, PartialOrd, Ord, Drop)]
pub struct ExpandedName {
    pub uri: u32,
    pub local: Vec<u8>,
}

/// Expanded names, each once.
#[derive(Drop)]
pub struct ExpandedNames {
    pub names: BTreeSet<ExpandedName>,
}

impl ExpandedNames {
    pub fn new(alloc: Global) -> ExpandedNames
        ensures { (uri : ℕ) (local : List ℕ) → has_name result uri local ≡ false }
    {
        ExpandedNames {
            names: BTreeSet::new(alloc),
        }
    }

    /// Adds a name, and says whether it is new. Compares it with as many names as the logarithm of their
    /// count, and no byte of a URI. Fails only for want of memory.
    pub fn add(&mut self, alloc: Global, uri: u32, local: &[u8]) -> Result<bool, AllocError>
        ensures new { IfOk result (λ new. new ≡ not (has_name self.old uri local.now)) }
        ensures added { OnOk result ((other : ℕ) (name : List ℕ) → has_name self.new other name ≡ ((other == uri && bytes_eq name local.now) || has_name self.old other name)) }
    {
        let local = Vec::from_slice(alloc, local)?;
        let new = self.names.insert(ExpandedName { uri, local })?;
        Ok(new)
    }
}
