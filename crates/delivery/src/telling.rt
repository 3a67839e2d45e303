// What is written to the console.
ghost use Rattle.std.specs.Prelude.{◌≡◌, ◌≢◌, ◌⊎◌, ℕ, List, Option};
ghost use Rattle.edge.specs.Causes.{Rose};
ghost use Rattle.edge.specs.Outside.{Grows};
ghost use Rattle.delivery.specs.Answer.{text_answer};
ghost use Rattle.delivery.specs.Delivery.{GrowsByFront, IsDelivered};

use edge::{Sink, Status};

/// Writes a text to the console, and answers the status, or 6 where the write fails.
pub fn say<C: Sink>(console: &mut C, text: &str, code: u8) -> Status
    requires { code ≢ 6 }
    ensures said { result.code ≡ code → Grows (C.written console.old) (C.written console.new) text.now }
    ensures failed { result.code ≡ 6 → Rose (C.faults console.old) (C.faults console.new) × GrowsByFront (C.written console.old) (C.written console.new) text.now }
    ensures code { (result.code ≡ code) ⊎ (result.code ≡ 6) }
{
    match console.write(text.as_bytes()) {
        Ok(()) => Status { code },
        Err(_) => Status { code: 6 },
    }
}

/// Delivers an answer that puts nothing, and of which nobody hears: its text is written to the console, in
/// one write. Answers the status, or 6 where the write fails.
pub fn tell<C: Sink>(console: &mut C, text: &str, code: u8) -> Status
    requires { code ≢ 6 }
    ensures { (puts : Option (List (List ℕ × List ℕ))) (heard : List (Option (List (ℕ × List ℕ)))) (drawer : ℕ) →
        IsDelivered (text_answer code text.now) result.code
        (record { puts = puts; written = C.written console.old; heard = heard; drawer = drawer; console = C.faults console.old })
        (record { puts = puts; written = C.written console.new; heard = heard; drawer = drawer; console = C.faults console.new }) }
{
    say(console, text, code)
}
