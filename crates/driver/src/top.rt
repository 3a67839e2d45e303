// The top call.
ghost use Rattle.std.specs.Prelude.{◌≡◌, ℕ, List, Option, Some, None, map, string_bytes};
ghost use Rattle.cmd_words.specs.Turns.{IsWithinLimits};
ghost use Rattle.cmd_words.specs.Words.{plan_of};
ghost use Rattle.delivery.specs.Delivery.{IsDelivered};
ghost use Rattle.driver.specs.Judged as judged;
ghost use Rattle.driver.specs.Top.{Answers};

use crate::limits::LIMITS;
use crate::transform::{Stop, transform};
use cmd_words::{Plan, PlanError, USAGE, plan};
use delivery::{deliver, tell};
use edge::{Drawer, Listener, Shelf, Sink, Source, Status};
use std::alloc::Global;

const READ_FAILED: &str = "read failed\n";

const MEMORY: &str = "out of memory\n";

/// Answers words that are no plan: the usage line, and status 2. For a word that isn't UTF-8, which `pace`
/// can't be given.
pub fn refuse_words<C: Sink>(console: &mut C) -> Status
    ensures { (puts : Option (List (List ℕ × List ℕ))) (heard : List (Option (List (ℕ × List ℕ)))) (drawer : ℕ) →
        IsDelivered judged.usage_answer result.code
        (record { puts = puts; written = C.written console.old; heard = heard; drawer = drawer; console = C.faults console.old })
        (record { puts = puts; written = C.written console.new; heard = heard; drawer = drawer; console = C.faults console.new }) }
{
    tell(console, USAGE, 2)
}

/// Answers want of memory: status 7. Also for want of memory while the words are read.
pub fn starve<C: Sink>(console: &mut C) -> Status
    ensures { (puts : Option (List (List ℕ × List ℕ))) (heard : List (Option (List (ℕ × List ℕ)))) (drawer : ℕ) →
        IsDelivered judged.memory_answer result.code
        (record { puts = puts; written = C.written console.old; heard = heard; drawer = drawer; console = C.faults console.old })
        (record { puts = puts; written = C.written console.new; heard = heard; drawer = drawer; console = C.faults console.new }) }
{
    tell(console, MEMORY, 7)
}

// Carries out a plan.
fn carry_out<S: Source, O: Drawer, C: Sink>(
    alloc: Global,
    plan: &Plan,
    source: &mut S,
    drawer: &mut O,
    console: &mut C,
) -> Status
    requires { IsWithinLimits plan.now }
    ensures { (words : List (List ℕ)) (pairs : Option (List (List ℕ × List ℕ))) (shelf : ℕ) (heard : List (Option (List (ℕ × List ℕ)))) → plan_of words ≡ Some plan.now →
        Answers judged.default_limits words result.code
        (record {
          left = S.left source.old;
          pairs = pairs;
          source = S.faults source.old;
          shelf = shelf;
          out = record {
            puts = O.puts drawer.old;
            written = C.written console.old;
            heard = heard;
            drawer = O.faults drawer.old;
            console = C.faults console.old;
          };
        })
        (record {
          left = S.left source.new;
          pairs = pairs;
          source = S.faults source.new;
          shelf = shelf;
          out = record {
            puts = O.puts drawer.new;
            written = C.written console.new;
            heard = heard;
            drawer = O.faults drawer.new;
            console = C.faults console.new;
          };
        }) }
{
    match transform(alloc, plan, LIMITS, source) {
        Ok(made) => deliver(
            drawer,
            console,
            plan.pairs.as_slice(),
            made.outcomes.as_slice(),
            made.said.as_str(),
        ),
        Err(Stop::Flawed(said)) => tell(console, said.as_str(), 4),
        Err(Stop::Failed) => tell(console, READ_FAILED, 5),
        Err(Stop::Memory) => starve(console),
    }
}

/// Transforms a source by the built-in rules (XSLT 1.0, section 5.8) while it is read, once for each pair
/// `builtin=OUT` of the words, and puts each text under its name OUT. The word `--turns=LIST` says how the
/// readers' turns lie among the feeds of lines; each turn is told on the console by its reader's result
/// events so far. The answer is the program's exit status:
///
/// | status | comes |
/// |---|---|
/// | 0 | the source has no flaw, and every text was put |
/// | 1 | the source has no flaw, and some transformation has a fault, which the console tells |
/// | 2 | the words are no plan; the source isn't read |
/// | 4 | the source has a flaw, whose line, counted from 1, and kind the console tells |
/// | 5 | a read failed |
/// | 6 | a put or a write to the console failed |
/// | 7 | want of memory |
///
/// Costs the bytes of the source, the turns, and for each pair the rows and the text; the source is read
/// once, in order, and a line only where a feed asks for it: nothing is read after a flaw. It waits for
/// nobody and always returns.
pub fn pace<S: Source, F: Shelf, O: Drawer, C: Sink>(
    alloc: Global,
    words: &[String],
    source: &mut S,
    shelf: &mut F,
    drawer: &mut O,
    console: &mut C,
    listeners: &mut Vec<Box<dyn Listener>>,
) -> Status
    // Whatever the status is: an answer was due, and the call delivered it or failed to.
    ensures answers { Answers judged.default_limits (map string_bytes words.now) result.code
        (record {
          left = S.left source.old;
          pairs = F.pairs shelf.old;
          source = S.faults source.old;
          shelf = F.faults shelf.old;
          out = record {
            puts = O.puts drawer.old;
            written = C.written console.old;
            heard = map (λ listener. heard listener) listeners.old.items;
            drawer = O.faults drawer.old;
            console = C.faults console.old;
          };
        })
        (record {
          left = S.left source.new;
          pairs = F.pairs shelf.new;
          source = S.faults source.new;
          shelf = F.faults shelf.new;
          out = record {
            puts = O.puts drawer.new;
            written = C.written console.new;
            heard = map (λ listener. heard listener) listeners.new.items;
            drawer = O.faults drawer.new;
            console = C.faults console.new;
          };
        }) }

    // The words are judged first, whatever the source is, and then it isn't read.
    ensures judged_first { plan_of (map string_bytes words.now) ≡ None → source.new ≡ source.old }

    // Nothing else is touched.
    ensures shelf { shelf.new ≡ shelf.old }
    ensures listeners { listeners.new ≡ listeners.old }
{
    let _ = shelf;
    let _ = listeners;
    match plan(alloc, words) {
        Ok(plan) => carry_out(alloc, &plan, source, drawer, console),
        Err(PlanError::NoPlan) => refuse_words(console),
        Err(PlanError::Memory) => starve(console),
    }
}
