ghost use Rattle.std.specs.Prelude.{◌≡◌, true, [], ◌∷◌, ◌++◌, OnOk, OnErr, filter, flat_map};
ghost use Rattle.doc_model.specs.Asks.{stop_of};
ghost use Rattle.doc_model.specs.Answers.{Answers};
ghost use Rattle.doc_model.specs.Document.{is_parent};
ghost use Rattle.doc_model.specs.Lawful.{IsJoined};
ghost use Rattle.doc_model.specs.Rows.{rows_of, row_at};
ghost use Rattle.doc_model.specs.Strip.{is_text};
ghost use Rattle.doc_model.specs.Values.{is_shown_text, value_at};
ghost use Rattle.doc_model.specs.View.{Moves};
ghost use Rattle.string_values.specs.Appended.{appended_to, given};
ghost use Rattle.doc_model.specs.Values.{string_value_of};

use doc_model::{Ask, NodeView};
use std::alloc::{AllocError, Global};

/// Appends the string-value of row `n` (XPath 1.0, section 5): of the root or an element the texts of its
/// visible text descendants, once it is shut; of another row its own value. Goes once through the rows of
/// the subtree, and copies each byte once.
///
/// `NotYet` names the row itself, where it was open at a step of the call. An error leaves the bytes.
pub fn value_of<V: NodeView>(
    alloc: Global,
    view: &mut V,
    n: u32,
    into: &mut Vec<u8>,
) -> Result<(), Ask>
    requires { IsJoined (V.sees view.old).steps n }
    ensures moves { Moves (V.sees view.old) (V.sees view.new) }
    // the bytes before, and then the string-value
    ensures answers { Answers stop_of (λ rules steps. appended_to into.old.items (string_value_of rules steps n)) (V.sees view.old) (V.sees view.new) (given into.new.items result) }
    ensures err { OnErr result (into.new.items ≡ into.old.items) }
{
    if view.kind(n).may_have_children() {
        return texts_of(alloc, view, n, into);
    }
    view.text(alloc, n, into)?;
    Ok(())
}

// Appends the visible texts of the rows after row n, up to its extent.
fn texts_of<V: NodeView>(alloc: Global, view: &mut V, n: u32, into: &mut Vec<u8>) -> Result<(), Ask>
    requires joined { IsJoined (V.sees view.old).steps n }
    requires parent { is_parent (row_at (rows_of (V.sees view.old).steps) n).kind ≡ true }
    ensures moves { Moves (V.sees view.old) (V.sees view.new) }
    ensures answers { Answers stop_of (λ rules steps. appended_to into.old.items (string_value_of rules steps n)) (V.sees view.old) (V.sees view.new) (given into.new.items result) }
    ensures err { OnErr result (into.new.items ≡ into.old.items) }
{
    let end = match view.extent(n) {
        Some(end) => end,
        None => return Err(Ask::NotYet(n)),
    };
    let start = into.len();
    'rows: for k in n + 1..end {
        match append_text(alloc, view, k, into) {
            Ok(()) => {}
            Err(_) => {
                into.truncate(start);
                return Err(Ask::Memory);
            }
        }
    }
    Ok(())
}

// Appends the value of row k, if it is a visible text.
fn append_text<V: NodeView>(
    alloc: Global,
    view: &mut V,
    k: u32,
    into: &mut Vec<u8>,
) -> Result<(), AllocError>
    requires { IsJoined (V.sees view.old).steps k }
    ensures moves { Moves (V.sees view.old) (V.sees view.new) }
    ensures value { OnOk result (into.new.items ≡ into.old.items ++ flat_map (value_at (rows_of (V.sees view.new).steps)) (filter (is_shown_text (V.sees view.new).rules (rows_of (V.sees view.new).steps)) (k ∷ []))) }
    ensures err { OnErr result (into.new.items ≡ into.old.items) }
{
    if !view.kind(k).is_text() {
        return Ok(());
    }
    if !view.shown(k) {
        return Ok(());
    }
    view.text(alloc, k, into)?;
    Ok(())
}
