ghost use Rattle.std.specs.Prelude.{◌≡◌, suc, drop, false};
ghost use Rattle.doc_model.specs.Document.{is_attribute};
ghost use Rattle.doc_model.specs.Lawful.{IsJoined};
ghost use Rattle.doc_model.specs.Rows.{rows_of, row_at};
ghost use Rattle.doc_model.specs.Strip.{keeps_space, space_in, says_space};
ghost use Rattle.doc_model.specs.View.{Moves};

use doc_model::NodeView;

const XML: &[u8] = b"http://www.w3.org/XML/1998/namespace";

/// Whether the nearest `xml:space` around row `n` preserves whitespace. Goes up no further than to it.
pub(crate) fn keeps_space<V: NodeView>(view: &mut V, n: u32) -> bool
    requires joined { IsJoined (V.sees view.old).steps n }
    requires plain { is_attribute (row_at (rows_of (V.sees view.old).steps) n).kind ≡ false }
    ensures moves { Moves (V.sees view.old) (V.sees view.new) }
    ensures value { result ≡ keeps_space (rows_of (V.sees view.new).steps) n }
{
    view.told();
    let mut at = n;
    'up: loop {
        at = match view.parent(at) {
            Some(up) => up,
            None => return false,
        };
        match said_by(view, at) {
            Some(keeps) => return keeps,
            None => {}
        }
    }
}

// What the attributes of row n say of whitespace: whether to preserve it.
fn said_by<V: NodeView>(view: &mut V, n: u32) -> Option<bool>
    requires joined { IsJoined (V.sees view.old).steps n }
    requires plain { is_attribute (row_at (rows_of (V.sees view.old).steps) n).kind ≡ false }
    ensures moves { Moves (V.sees view.old) (V.sees view.new) }
    ensures value { result ≡ space_in (drop (suc n) (rows_of (V.sees view.new).steps)) }
{
    let count = view.attr_count(n);
    'attributes: for i in 0..count {
        match said_at(view, n + 1 + i) {
            Some(keeps) => return Some(keeps),
            None => {}
        }
    }
    None
}

// What attribute n says of whitespace.
fn said_at<V: NodeView>(view: &mut V, n: u32) -> Option<bool>
    requires { IsJoined (V.sees view.old).steps n }
    ensures moves { Moves (V.sees view.old) (V.sees view.new) }
    ensures value { result ≡ says_space (row_at (rows_of (V.sees view.new).steps) n) }
{
    if !view.name_is(n, XML, Some(b"space")) {
        return None;
    }
    if view.value_is(n, b"preserve") {
        return Some(true);
    }
    if view.value_is(n, b"default") {
        return Some(false);
    }
    None
}
