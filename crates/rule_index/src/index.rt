//! The rules of a sheet in the order in which they are tried.

ghost use Rattle.std.specs.Prelude.{◌≡◌, ◌≤◌, IfOk, length, option_map, slice_get};
ghost use Rattle.std.specs.List.{range_with_len};
ghost use Rattle.rule_index.specs.Order.{IsIndexOf, precedence_of, priority_of, priority_at_cmp, trial_at};

use lists::List;
use sheet_ast::{Rule, Sheet};
use std::alloc::{AllocError, Global};
use std::cmp::Ordering;

/// The rules of a sheet in the order in which they are tried, of all modes together. Made once from a sheet, for which
/// alone it stands; it keeps four bytes a rule.
#[derive(Drop)]
pub struct RuleIndex {
    // the places of the rules in the sheet
    pub(crate) order: List<u32>,
}

impl RuleIndex {
    /// The index of a sheet's rules. Takes as many comparisons as a sort of the rules; fails only for want of memory.
    pub fn start(alloc: Global, sheet: &Sheet) -> Result<RuleIndex, AllocError>
        requires { length sheet.now.rules ≤ 4294967296 }
        ensures { IfOk result (λ index. IsIndexOf sheet.now.rules index) }
    {
        let rules = sheet.rules.as_slice();
        let mut places = places_of(alloc, rules.len())?;
        places.sort_unstable_by(|a, b| compare(rules, *a, *b));
        Ok(RuleIndex {
            order: List::from_vec(places),
        })
    }
}

// The numbers from 0 up to a count, in order.
fn places_of(alloc: Global, count: usize) -> Result<Vec<u32>, AllocError>
    requires { count ≤ 4294967296 }
    ensures { IfOk result (λ places. places.items ≡ range_with_len 0 count) }
{
    let mut places = Vec::with_capacity(alloc, count)?;
    for place in 0..count {
        places.push(place as u32)?;
    }
    Ok(places)
}

// Which of two rules is tried first: the one of the higher import precedence, of equals the one of the higher priority, of
// equals the later one.
fn compare(rules: &[Rule], a: u32, b: u32) -> Ordering
    ensures { result ≡ trial_at rules.now a b }
{
    match precedence_of(rule_at(rules, b)).cmp(&precedence_of(rule_at(rules, a))) {
        Ordering::Equal => compare_priorities(rules, a, b),
        decided => decided,
    }
}

fn compare_priorities(rules: &[Rule], a: u32, b: u32) -> Ordering
    ensures { result ≡ priority_at_cmp rules.now a b }
{
    match priority_of(rule_at(rules, b)).cmp(&priority_of(rule_at(rules, a))) {
        Ordering::Equal => b.cmp(&a),
        decided => decided,
    }
}

pub(crate) fn rule_at(rules: &[Rule], place: u32) -> Option<&Rule>
    ensures { option_map (λ rule. rule.now) result ≡ slice_get rules.now place }
{
    rules.get(place as usize)
}

fn precedence_of(rule: Option<&Rule>) -> u32
    ensures { result ≡ precedence_of (option_map (λ rule. rule.now) rule.entry) }
{
    match rule {
        Some(rule) => rule.precedence,
        None => 0,
    }
}

fn priority_of(rule: Option<&Rule>) -> i32
    ensures { result ≡ priority_of (option_map (λ rule. rule.now) rule.entry) }
{
    match rule {
        Some(rule) => rule.priority,
        None => 0,
    }
}
