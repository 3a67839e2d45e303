// What a walk knows of the types that it came to.
ghost use Rattle.std.specs.Prelude.{ℕ, ◌≡◌, OnOk, OnErr};
ghost use Rattle.axis_walkers.specs.Offered.{KnowsNothing, judged_at, with_judged};

use std::alloc::{AllocError, Global};
use std::collections::BTreeMap;

pub(crate) fn no_types(alloc: Global) -> BTreeMap<u32, bool>
    ensures { KnowsNothing result }
{
    BTreeMap::new(alloc)
}

/// Whether the rows of a type meet the test, if that is known.
pub(crate) fn known(types: &BTreeMap<u32, bool>, id: u32) -> Option<bool>
    ensures { result ≡ judged_at types.now id }
{
    types.get(&id).copied()
}

/// Keeps whether the rows of a type meet the test. Fails only for want of memory.
pub(crate) fn keep(types: &mut BTreeMap<u32, bool>, id: u32, passes: bool) -> Result<(), AllocError>
    ensures ok { OnOk result ((k : ℕ) → judged_at types.new k ≡ with_judged types.old id passes k) }
    ensures err { OnErr result ((k : ℕ) → judged_at types.new k ≡ judged_at types.old k) }
{
    types.insert(id, passes)?;
    Ok(())
}
