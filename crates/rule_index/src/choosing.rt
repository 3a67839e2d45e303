//! The first rule of a mode that matches a node.

ghost use Rattle.std.specs.Prelude.{◌≡◌};
ghost use Rattle.doc_model.specs.Rows.{row_at, rows_of};
ghost use Rattle.key_sources.specs.Going.{Says, Stands, Went};
ghost use Rattle.rule_choice.specs.Choice.{choice_of, first_that};
ghost use Rattle.rule_index.specs.Applying as spec;
ghost use Rattle.rule_index.specs.Order.{IsIndexOf};
ghost use Rattle.xpath_laws.specs.Sound.{IsThere};

use crate::index::{RuleIndex, rule_at};
use crate::naming::{local_of, may_be_named};
use doc_model::NodeView;
use key_sources::KeySource;
use patterns::path_matches;
use sheet_ast::{Rule, Sheet};
use std::alloc::Global;
use xpath_meaning::EvalStop;

/// The place in the sheet of the rule that node `n` has in a mode (XSLT 1.0, section 5.5): of the rules of the mode that
/// match, the one that is tried first, by import precedence, then by priority, then the last in the sheet. None is the
/// built-in rule. The answer is that at the end of the call, and so at every growth; `NotYet` names a row that must be
/// shut first and at a step of the call was not; a fault is that of the first rule that has one. Costs a copy of the
/// node's name, a look at each rule that is tried before, and what `path_matches` does for those of the mode whose last
/// test asks for no other name: for a node that one of 1,000 patterns of a name matches, one of them is asked.
pub fn choose<V: NodeView, K: KeySource<V>>(
    alloc: Global,
    view: &mut V,
    keys: &mut K,
    index: &RuleIndex,
    sheet: &Sheet,
    mode: u32,
    n: u32,
) -> Result<Option<u32>, EvalStop>
    requires stands { Stands (V.sees view.old) (K.fits keys.old) }
    requires there { IsThere (V.sees view.old).rules (V.sees view.old).steps n }
    requires index { IsIndexOf sheet.now.rules index.now }
    ensures went { Went (V.sees view.old) (V.sees view.new) (K.made keys.old) (K.made keys.new) (K.fits keys.new) }
    ensures answers { Says (K.made keys.old).lookups (λ R. choice_of R sheet.now.rules mode n) (V.sees view.old) (V.sees view.new) result }
{
    let local = local_of(alloc, view, n)?;
    let places = index.order.as_slice();
    let rules = sheet.rules.as_slice();
    let text = local.as_slice();
    first_that_applies(alloc, view, keys, places, rules, mode, text, n)
}

// The first of these rules that is of the mode and matches.
fn first_that_applies<V: NodeView, K: KeySource<V>>(
    alloc: Global,
    view: &mut V,
    keys: &mut K,
    places: &[u32],
    rules: &[Rule],
    mode: u32,
    local: &[u8],
    n: u32,
) -> Result<Option<u32>, EvalStop>
    requires stands { Stands (V.sees view.old) (K.fits keys.old) }
    requires there { IsThere (V.sees view.old).rules (V.sees view.old).steps n }
    requires named { local.now ≡ (row_at (rows_of (V.sees view.old).steps) n).local }
    ensures went { Went (V.sees view.old) (V.sees view.new) (K.made keys.old) (K.made keys.new) (K.fits keys.new) }
    ensures answers { Says (K.made keys.old).lookups (λ R. first_that (spec.applies R rules.now mode n) places.now) (V.sees view.old) (V.sees view.new) result }
{
    for place in places {
        let here = applies(alloc, view, keys, rules, mode, local, *place, n)?;
        if here {
            return Ok(Some(*place));
        }
    }
    Ok(None)
}

// Whether the rule at a place is of the mode and matches.
fn applies<V: NodeView, K: KeySource<V>>(
    alloc: Global,
    view: &mut V,
    keys: &mut K,
    rules: &[Rule],
    mode: u32,
    local: &[u8],
    place: u32,
    n: u32,
) -> Result<bool, EvalStop>
    requires stands { Stands (V.sees view.old) (K.fits keys.old) }
    requires there { IsThere (V.sees view.old).rules (V.sees view.old).steps n }
    requires named { local.now ≡ (row_at (rows_of (V.sees view.old).steps) n).local }
    ensures went { Went (V.sees view.old) (V.sees view.new) (K.made keys.old) (K.made keys.new) (K.fits keys.new) }
    ensures answers { Says (K.made keys.old).lookups (λ R. spec.applies R rules.now mode n place) (V.sees view.old) (V.sees view.new) result }
{
    match rule_at(rules, place) {
        Some(rule) => rule_applies(alloc, view, keys, rule, mode, local, n),
        None => Ok(false),
    }
}

fn rule_applies<V: NodeView, K: KeySource<V>>(
    alloc: Global,
    view: &mut V,
    keys: &mut K,
    rule: &Rule,
    mode: u32,
    local: &[u8],
    n: u32,
) -> Result<bool, EvalStop>
    requires stands { Stands (V.sees view.old) (K.fits keys.old) }
    requires there { IsThere (V.sees view.old).rules (V.sees view.old).steps n }
    requires named { local.now ≡ (row_at (rows_of (V.sees view.old).steps) n).local }
    ensures went { Went (V.sees view.old) (V.sees view.new) (K.made keys.old) (K.made keys.new) (K.fits keys.new) }
    ensures answers { Says (K.made keys.old).lookups (λ R. spec.rule_applies R mode n rule.now) (V.sees view.old) (V.sees view.new) result }
{
    let same = rule.mode == mode;
    if !same {
        return Ok(false);
    }
    let fits = may_be_named(&rule.pattern, local);
    if !fits {
        return Ok(false);
    }
    path_matches(alloc, view, keys, &rule.pattern, n)
}
