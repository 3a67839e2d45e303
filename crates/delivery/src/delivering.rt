ghost use Rattle.std.specs.Prelude.{◌≡◌, ◌⊎◌, ◌++◌, [], ℕ, List, Option};
ghost use Rattle.std.specs.List.{list_any};
ghost use Rattle.delivery.specs.Answer as answer;
ghost use Rattle.delivery.specs.Answer.{made_answer, messages_of, fault_text};
ghost use Rattle.delivery.specs.Delivery.{IsDelivered};

use crate::putting::put_all;
use crate::telling::say;
use cmd_words::Pair;
use edge::{Drawer, Sink, Status};
use sessions::Outcome;

const WRITE_FAILED: &str = "write failed\n";

fn has_fault(outcome: &Outcome) -> bool
    ensures { result ≡ answer.has_fault outcome.now }
{
    outcome.fault.is_some()
}

fn any_fault(outcomes: &[Outcome]) -> bool
    ensures { result ≡ list_any answer.has_fault outcomes.now }
{
    outcomes.iter().any(|outcome| has_fault(outcome))
}

// 1 where some transformation has a fault, else 0.
fn code_of(outcomes: &[Outcome]) -> u8
    ensures code { result ≡ answer.code_of outcomes.now }
    ensures few { (result ≡ 0) ⊎ (result ≡ 1) }
{
    if any_fault(outcomes) { 1 } else { 0 }
}

/// Puts what was made, in the order of the pairs, and writes the console's text, which tells the progress
/// and then the faults. After a failed put nothing more is put, and the console is told of that alone. The
/// outcomes have no messages.
pub fn deliver<O: Drawer, C: Sink>(
    drawer: &mut O,
    console: &mut C,
    pairs: &[Pair],
    outcomes: &[Outcome],
    said: &str,
) -> Status
    ensures { (progress : List ℕ) (heard : List (Option (List (ℕ × List ℕ)))) → messages_of outcomes.now ≡ [] → said.now ≡ progress ++ fault_text pairs.now outcomes.now →
        IsDelivered (made_answer pairs.now outcomes.now progress) result.code
        (record { puts = O.puts drawer.old; written = C.written console.old; heard = heard; drawer = O.faults drawer.old; console = C.faults console.old })
        (record { puts = O.puts drawer.new; written = C.written console.new; heard = heard; drawer = O.faults drawer.new; console = C.faults console.new }) }
{
    match put_all(drawer, pairs, outcomes) {
        Ok(()) => say(console, said, code_of(outcomes)),
        Err(_) => {
            let _ = console.write(WRITE_FAILED.as_bytes());
            Status { code: 6 }
        }
    }
}
