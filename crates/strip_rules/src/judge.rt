ghost use Rattle.std.specs.Prelude.{◌≡◌, true};
ghost use Rattle.doc_model.specs.Lawful.{IsJoined};
ghost use Rattle.doc_model.specs.Rows.{rows_of};
ghost use Rattle.doc_model.specs.Strip.{all_spelled, is_visible};
ghost use Rattle.doc_model.specs.View.{Moves};

use crate::rules::strips;
use crate::spaces::keeps_space;
use doc_model::{NodeView, StripRule};

/// Whether the rules leave row `n` visible. Only a text of whitespace alone costs more than one call.
pub(crate) fn is_shown<V: NodeView>(view: &mut V, rules: &[StripRule], n: u32) -> bool
    requires joined { IsJoined (V.sees view.old).steps n }
    requires spelled { all_spelled rules.now ≡ true }
    ensures moves { Moves (V.sees view.old) (V.sees view.new) }
    ensures value { result ≡ is_visible rules.now (rows_of (V.sees view.new).steps) n }
{
    if !view.blank(n) {
        return true;
    }
    let up = match view.parent(n) {
        Some(up) => up,
        None => return true,
    };
    if !strips(view, rules, up) {
        return true;
    }
    keeps_space(view, n)
}
