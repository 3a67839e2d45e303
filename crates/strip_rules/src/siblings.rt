ghost use Rattle.std.specs.Prelude.{◌≡◌, true, []};
ghost use Rattle.doc_model.specs.Lawful.{IsJoined};
ghost use Rattle.doc_model.specs.Relations.{sibling_parent};
ghost use Rattle.doc_model.specs.Rows.{rows_of};
ghost use Rattle.doc_model.specs.Shown.{prev_shown};
ghost use Rattle.doc_model.specs.Strip.{all_spelled};
ghost use Rattle.doc_model.specs.View.{Moves};
ghost use Rattle.strip_rules.specs.Stripped.{IsFirstUnder, IsNextUnder};

use crate::judge::is_shown;
use doc_model::{Look, NodeView, StripRule};

/// The first child of row `n` that the rules leave visible.
pub(crate) fn first_shown<V: NodeView>(view: &mut V, rules: &[StripRule], n: u32) -> Look
    requires joined { IsJoined (V.sees view.old).steps n }
    requires plain { (V.sees view.old).rules ≡ [] }
    requires spelled { all_spelled rules.now ≡ true }
    ensures moves { Moves (V.sees view.old) (V.sees view.new) }
    ensures value { IsFirstUnder rules.now (V.sees view.old).steps (V.sees view.new).steps n result }
{
    let child = match view.first(n) {
        Look::Node(child) => child,
        Look::Nothing => return Look::Nothing,
        Look::NotYet => return Look::NotYet,
    };
    if is_shown(view, rules, child) {
        return Look::Node(child);
    }
    next_shown(view, rules, child)
}

/// The first sibling after row `n` that the rules leave visible.
pub(crate) fn next_shown<V: NodeView>(view: &mut V, rules: &[StripRule], n: u32) -> Look
    requires joined { IsJoined (V.sees view.old).steps n }
    requires plain { (V.sees view.old).rules ≡ [] }
    requires spelled { all_spelled rules.now ≡ true }
    ensures moves { Moves (V.sees view.old) (V.sees view.new) }
    ensures value { IsNextUnder rules.now (V.sees view.old).steps (V.sees view.new).steps n result }
{
    view.told();
    let mut at = n;
    'pass: loop {
        let sibling = match view.next(at) {
            Look::Node(sibling) => sibling,
            Look::Nothing => return Look::Nothing,
            Look::NotYet => return Look::NotYet,
        };
        if is_shown(view, rules, sibling) {
            return Look::Node(sibling);
        }
        at = sibling;
    }
}

/// The last sibling before row `n` that the rules leave visible.
pub(crate) fn prev_shown<V: NodeView>(view: &mut V, rules: &[StripRule], n: u32) -> Option<u32>
    requires joined { IsJoined (V.sees view.old).steps n }
    requires plain { (V.sees view.old).rules ≡ [] }
    requires spelled { all_spelled rules.now ≡ true }
    ensures moves { Moves (V.sees view.old) (V.sees view.new) }
    ensures value { result ≡ prev_shown rules.now (rows_of (V.sees view.new).steps) n }
{
    view.told();
    let mut at = n;
    'back: loop {
        let earlier = match view.prev(at) {
            Some(earlier) => earlier,
            None => return None,
        };
        if is_shown(view, rules, earlier) {
            return Some(earlier);
        }
        at = earlier;
    }
}
