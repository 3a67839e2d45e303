// What is put.
ghost use Rattle.std.specs.Prelude.{◌≡◌, ◌≤◌, ◌∷◌, [], OnOk, OnErr};
ghost use Rattle.edge.specs.Causes.{Rose};
ghost use Rattle.edge.specs.Outside.{Grows, Stays};
ghost use Rattle.delivery.specs.Answer.{put_of, puts_of};
ghost use Rattle.delivery.specs.Delivery.{PutsFront};

use cmd_words::Pair;
use edge::{Drawer, Failed};
use sessions::Outcome;

// Puts the bytes of a transformation that has no fault.
fn put_one<O: Drawer>(drawer: &mut O, pair: &Pair, outcome: &Outcome) -> Result<(), Failed>
    ensures put { OnOk result (Grows (O.puts drawer.old) (O.puts drawer.new) (put_of pair.now outcome.now)) }
    ensures failed { OnErr result ((put_of pair.now outcome.now ≡ (pair.now.out, outcome.now.bytes) ∷ []) × Stays (O.puts drawer.old) (O.puts drawer.new)) }
    ensures rose { OnErr result (Rose (O.faults drawer.old) (O.faults drawer.new)) }
    ensures later { O.faults drawer.old ≤ O.faults drawer.new }
{
    match outcome.fault {
        Some(_) => Ok(()),
        None => drawer.put(pair.out.as_str(), outcome.bytes.as_slice()),
    }
}

/// Puts the bytes of each transformation that has no fault, in order, up to the first put that fails.
pub fn put_all<O: Drawer>(
    drawer: &mut O,
    pairs: &[Pair],
    outcomes: &[Outcome],
) -> Result<(), Failed>
    ensures all { OnOk result (Grows (O.puts drawer.old) (O.puts drawer.new) (puts_of pairs.now outcomes.now)) }
    ensures front { OnErr result (PutsFront (puts_of pairs.now outcomes.now) (O.puts drawer.old) (O.puts drawer.new)) }
    ensures rose { OnErr result (Rose (O.faults drawer.old) (O.faults drawer.new)) }
{
    for (pair, outcome) in pairs.iter().zip(outcomes) {
        put_one(drawer, pair, outcome)?;
    }
    Ok(())
}
