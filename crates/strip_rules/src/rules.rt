ghost use Rattle.std.specs.Prelude.{◌≡◌, ◌≤◌, true, None};
ghost use Rattle.doc_model.specs.Lawful.{IsJoined};
ghost use Rattle.doc_model.specs.Rows.{rows_of, row_at};
ghost use Rattle.doc_model.specs.Strip.{is_spelled, all_spelled, strips, rank, rule_fits, best_from, says_strip};
ghost use Rattle.doc_model.specs.View.{Moves};
ghost use Rattle.strip_rules.specs.Deciding.{weight};

use doc_model::{Kind, NodeView, StripRule};

/// Whether the rules strip the whitespace texts in row `n`, which has to be an element.
pub(crate) fn strips<V: NodeView>(view: &mut V, rules: &[StripRule], n: u32) -> bool
    requires joined { IsJoined (V.sees view.old).steps n }
    requires spelled { all_spelled rules.now ≡ true }
    ensures moves { Moves (V.sees view.old) (V.sees view.new) }
    ensures value { result ≡ strips rules.now (row_at (rows_of (V.sees view.new).steps) n) }
{
    match view.kind(n) {
        Kind::Element => best_strips(view, rules, n),
        _ => false,
    }
}

// Whether the rule of the highest precedence and rank that fits row n, and of equals the last, strips.
fn best_strips<V: NodeView>(view: &mut V, rules: &[StripRule], n: u32) -> bool
    requires joined { IsJoined (V.sees view.old).steps n }
    requires spelled { all_spelled rules.now ≡ true }
    ensures moves { Moves (V.sees view.old) (V.sees view.new) }
    ensures value { result ≡ says_strip (best_from None rules.now (row_at (rows_of (V.sees view.new).steps) n)) }
{
    view.told();
    let mut strip = false;
    let mut best = 0u64;
    'judge: for rule in rules {
        let weight = weight(rule);
        if weight < best {
            continue;
        }
        if !fits(view, rule, n) {
            continue;
        }
        best = weight;
        strip = rule.strip;
    }
    strip
}

// Import precedence and rank in one number.
fn weight(rule: &StripRule) -> u64
    ensures { result ≡ weight rule.now }
{
    u64::from(rule.precedence) * 3 + u64::from(rank(rule))
}

// How much of a name the rule gives.
fn rank(rule: &StripRule) -> u32
    ensures rank { result ≡ rank rule.now }
    ensures small { result ≤ 2 }
{
    let uri = match &rule.uri {
        Some(_) => 1,
        None => 0,
    };
    match &rule.local {
        Some(_) => uri + 1,
        None => uri,
    }
}

// Whether the rule is one of the name of row n.
fn fits<V: NodeView>(view: &mut V, rule: &StripRule, n: u32) -> bool
    requires joined { IsJoined (V.sees view.old).steps n }
    requires spelled { is_spelled rule.now ≡ true }
    ensures moves { Moves (V.sees view.old) (V.sees view.new) }
    ensures value { result ≡ rule_fits rule.now (row_at (rows_of (V.sees view.new).steps) n) }
{
    match &rule.uri {
        Some(uri) => match &rule.local {
            Some(local) => view.name_is(n, uri.as_slice(), Some(local.as_slice())),
            None => view.name_is(n, uri.as_slice(), None),
        },
        None => {
            view.told();
            true
        }
    }
}
