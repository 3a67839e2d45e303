ghost use Rattle.std.specs.Prelude.{◌≡◌, ◌↔◌, None, Some, Err, map, string_bytes, IfOk};
ghost use Rattle.std.specs.Option.{option_copied, option_map};
ghost use Rattle.cmd_words.specs.Items.{items_of};
ghost use Rattle.cmd_words.specs.Words as spec;
ghost use Rattle.cmd_words.specs.Words.{list_of, plan_of, plan_of_parts, usage_line};
ghost use Rattle.cmd_words.specs.Turns.{IsWithinLimits};

use crate::item::{Item, is_list_of_turns, items};
use crate::pair::{are_pairs, pairs};
use crate::plan_error::PlanError;
use crate::planned::Plan;
use lists::List;
use std::alloc::{AllocError, Global};

/// The line that tells which words are a plan.
pub const USAGE: &str = "usage: dtmx_pace [--turns=LIST] builtin=OUT ...\n";

/// `USAGE`, with its bytes.
pub fn usage() -> &'static str
    ensures { result.now ≡ usage_line }
{
    USAGE
}

// The LIST of a word `--turns=LIST`.
fn list_in(word: &str) -> Option<&str>
    ensures { option_copied result ≡ list_of word.now }
{
    word.strip_prefix("--turns=")
}

// LIST, where the first word gives one, and the words that are to be pairs.
fn split(words: &[String]) -> (Option<&str>, &[String])
    ensures { plan_of_parts (option_copied result.0) (map string_bytes result.1.now) ≡ plan_of (map string_bytes words.now) }
{
    match words {
        [first, rest @ ..] => match list_in(first.as_str()) {
            Some(list) => (Some(list), rest),
            None => (None, words),
        },
        [] => (None, words),
    }
}

fn are_parts(list: Option<&str>, words: &[String]) -> bool
    ensures { result ≡ spec.are_parts (option_copied list.entry) (map string_bytes words.now) }
{
    are_pairs(words)
        && match list {
            Some(list) => is_list_of_turns(words.len(), list),
            None => true,
        }
}

// The items of LIST, if there is one.
fn turns(
    alloc: Global,
    list: Option<&str>,
    readers: usize,
) -> Result<Option<List<Item>>, AllocError>
    ensures { IfOk result (λ turns. turns ≡ option_map (items_of readers) (option_copied list.entry)) }
{
    match list {
        Some(list) => Ok(Some(items(alloc, readers, list)?)),
        None => Ok(None),
    }
}

/// Reads the words `[--turns=LIST] builtin=OUT ...`: the plan, or `NoPlan` exactly where they are none. They are
/// judged before any memory is taken, so `Memory` comes only where they are a plan. Costs in the order of their
/// bytes, and of the names OUT once more for each pair.
pub fn plan(alloc: Global, words: &[String]) -> Result<Plan, PlanError>
    ensures plan { IfOk result (λ plan. plan_of (map string_bytes words.now) ≡ Some plan) }
    ensures no_plan { (result ≡ Err PlanError.NoPlan) ↔ (plan_of (map string_bytes words.now) ≡ None) }
    ensures limits { IfOk result IsWithinLimits }
{
    let (list, words) = split(words);
    if !are_parts(list, words) {
        return Err(PlanError::NoPlan);
    }
    let turns = turns(alloc, list, words.len())?;
    let pairs = pairs(alloc, words)?;
    Ok(Plan { turns, pairs })
}
