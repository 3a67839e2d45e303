// The console lines of a flaw and of faults.
ghost use Rattle.std.specs.Prelude.{◌≡◌, ◌++◌, ◌∷◌, [], IfOk, OnOk, codes, string_bytes};
ghost use Rattle.delivery.specs.Answer as answer;
ghost use Rattle.delivery.specs.Answer.{flaw_line, line_of_kind, fault_line, line_of_fault};

use cmd_words::Pair;
use doc_model::Flaw;
use sessions::Outcome;
use std::alloc::{AllocError, Global};

fn flaw_text(alloc: Global, line: u64, kind: &str) -> Result<String, AllocError>
    ensures { IfOk result (λ text. string_bytes text ≡ line_of_kind line kind.now) }
{
    format!(in alloc; "source: line {line}: {kind}\n")
}

fn fault_text(alloc: Global, out: &str, kind: &str) -> Result<String, AllocError>
    ensures { IfOk result (λ text. string_bytes text ≡ line_of_fault out.now kind.now) }
{
    format!(in alloc; "{out}: fault {kind}\n")
}

/// Appends the line of a flaw.
pub fn say_flaw(alloc: Global, flaw: Flaw, said: &mut String) -> Result<(), AllocError>
    ensures { OnOk result (string_bytes said.new ≡ string_bytes said.old ++ flaw_line flaw) }
{
    let line = flaw_text(alloc, flaw.line, flaw.kind.name())?;
    said.push_str(line.as_str())
}

// Appends the line of a fault, if there is one.
fn say_fault(
    alloc: Global,
    pair: &Pair,
    outcome: &Outcome,
    said: &mut String,
) -> Result<(), AllocError>
    ensures { OnOk result (string_bytes said.new ≡ string_bytes said.old ++ fault_line pair.now.out outcome.now.fault) }
{
    match outcome.fault {
        Some(kind) => {
            let line = fault_text(alloc, pair.out.as_str(), kind.name())?;
            said.push_str(line.as_str())
        }
        None => Ok(()),
    }
}

/// Appends the lines of the faults, in the order of the pairs.
pub fn say_faults(
    alloc: Global,
    pairs: &[Pair],
    outcomes: &[Outcome],
    said: &mut String,
) -> Result<(), AllocError>
    ensures { OnOk result (string_bytes said.new ≡ string_bytes said.old ++ answer.fault_text pairs.now outcomes.now) }
{
    for (pair, outcome) in pairs.iter().zip(outcomes) {
        say_fault(alloc, pair, outcome, said)?;
    }
    Ok(())
}
