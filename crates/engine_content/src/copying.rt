ghost use Rattle.std.specs.Prelude.{◌≡◌, ◌<◌, ◌++◌, ◌-◌, suc, false, IfOk, OnOk, OnErr};
ghost use Rattle.doc_model.specs.Asks.{stop_of};
ghost use Rattle.doc_model.specs.Answers.{Answers};
ghost use Rattle.doc_model.specs.Document.{is_open};
ghost use Rattle.doc_model.specs.Lawful.{IsJoined};
ghost use Rattle.doc_model.specs.Relations.{extent_of};
ghost use Rattle.doc_model.specs.Rows.{rows_of, row_at};
ghost use Rattle.doc_model.specs.View.{Moves};
ghost use Rattle.copy_meaning.specs.Copies.{copy_in, copy_of};
ghost use Rattle.copy_meaning.specs.Passes.{depth_at, ends, beginning_shown, ending_as, depth_behind, pass};
ghost use Rattle.engine_content.specs.Appending.{appended_to, given};
ghost use Rattle.engine_content.specs.Climbing.{IsInnermost};

use crate::beginning::{begin, begin_shown};
use crate::climbing::climb;
use doc_model::{Ask, Kind, NodeView};
use result_events::{Buffer, ResultEvent};
use std::alloc::{AllocError, Global};

/// Appends the copy of row `n` (XSLT 1.0, section 11.3): of an element its start, its attributes, the copies of its
/// visible children and its end; of the root the copies of its visible children; of another row the row itself. Goes
/// once through the rows of the subtree, and copies each byte once.
///
/// `NotYet` names the row itself, where it was open at a step of the call. An error leaves the buffer.
pub fn copy_node<V: NodeView>(
    alloc: Global,
    view: &mut V,
    n: u32,
    out: &mut Buffer,
) -> Result<(), Ask>
    requires { IsJoined (V.sees view.old).steps n }
    ensures moves { Moves (V.sees view.old) (V.sees view.new) }
    // the events before, and then the copy
    ensures answers { Answers stop_of (λ rules steps. appended_to out.old (copy_of rules steps n)) (V.sees view.old) (V.sees view.new) (given out.new result) }
    ensures err { OnErr result (out.new ≡ out.old) }
{
    let copy = copied(alloc, view, n)?;
    out.append(alloc, copy.into_events())?;
    Ok(())
}

// The copy of row n, once it is shut.
fn copied<V: NodeView>(alloc: Global, view: &mut V, n: u32) -> Result<Buffer, Ask>
    requires { IsJoined (V.sees view.old).steps n }
    ensures moves { Moves (V.sees view.old) (V.sees view.new) }
    ensures answers { Answers stop_of (λ rules steps. copy_of rules steps n) (V.sees view.old) (V.sees view.new) result }
{
    let end = match view.extent(n) {
        Some(end) => end,
        None => return Err(Ask::NotYet(n)),
    };
    let copy = copy_shut(alloc, view, n, end)?;
    Ok(copy)
}

// The copy of row n, which is shut and ends there.
fn copy_shut<V: NodeView>(
    alloc: Global,
    view: &mut V,
    n: u32,
    end: u32,
) -> Result<Buffer, AllocError>
    requires joined { IsJoined (V.sees view.old).steps n }
    requires shut { is_open (V.sees view.old).steps n ≡ false }
    requires end { end ≡ extent_of (rows_of (V.sees view.old).steps) n }
    ensures moves { Moves (V.sees view.old) (V.sees view.new) }
    ensures value { IfOk result (λ copy. copy ≡ copy_in (V.sees view.new).rules (rows_of (V.sees view.new).steps) n) }
{
    let kind = view.kind(n);
    let mut copy = Buffer::start(alloc)?;
    begin(alloc, view, n, kind, &mut copy)?;
    copy_below(alloc, view, n, end, &mut copy)?;
    finish(alloc, kind, &mut copy)?;
    Ok(copy)
}

// What comes behind the children of a row of this kind.
fn finish(alloc: Global, kind: Kind, made: &mut Buffer) -> Result<(), AllocError>
    ensures { OnOk result (made.new ≡ made.old ++ ending_as kind) }
{
    match kind {
        Kind::Element => made.push(alloc, ResultEvent::End),
        Kind::Root | Kind::Attribute | Kind::Text | Kind::Instruction | Kind::Comment => Ok(()),
    }
}

// All that is in row n, which is shut and ends there.
fn copy_below<V: NodeView>(
    alloc: Global,
    view: &mut V,
    n: u32,
    end: u32,
    made: &mut Buffer,
) -> Result<(), AllocError>
    requires joined { IsJoined (V.sees view.old).steps n }
    requires shut { is_open (V.sees view.old).steps n ≡ false }
    requires end { end ≡ extent_of (rows_of (V.sees view.old).steps) n }
    ensures moves { Moves (V.sees view.old) (V.sees view.new) }
    ensures value { OnOk result (made.new ≡ made.old ++ pass (V.sees view.new).rules (rows_of (V.sees view.new).steps) (depth_at (rows_of (V.sees view.new).steps) n) (suc n) (end - suc n) (depth_at (rows_of (V.sees view.new).steps) n)) }
{
    view.told();
    let mut at = n;
    'rows: for k in n + 1..end {
        at = copy_row(alloc, view, at, k, made)?;
    }
    climb(alloc, view, at, n, made)
}

// Ends the elements that row k is not in, and begins it: gives the innermost row that is open then.
fn copy_row<V: NodeView>(
    alloc: Global,
    view: &mut V,
    at: u32,
    k: u32,
    made: &mut Buffer,
) -> Result<u32, AllocError>
    requires joined { IsJoined (V.sees view.old).steps k }
    requires holds { IsInnermost (rows_of (V.sees view.old).steps) at (k - 1) }
    requires later { at < k }
    ensures moves { Moves (V.sees view.old) (V.sees view.new) }
    ensures value { OnOk result (made.new ≡ (made.old ++ ends (suc (depth_at (rows_of (V.sees view.new).steps) at) - depth_at (rows_of (V.sees view.new).steps) k)) ++ beginning_shown (V.sees view.new).rules (rows_of (V.sees view.new).steps) k) }
    ensures depth { IfOk result (λ next. depth_at (rows_of (V.sees view.new).steps) next ≡ depth_behind (row_at (rows_of (V.sees view.new).steps) k)) }
    ensures holds { IfOk result (λ next. IsInnermost (rows_of (V.sees view.new).steps) next k) }
{
    let kind = view.kind(k);
    // The root alone has no parent, and it is in no row.
    let up = view.parent(k).unwrap();
    climb(alloc, view, at, up, made)?;
    begin_shown(alloc, view, k, kind, made)?;
    if kind.may_have_children() {
        Ok(k)
    } else {
        Ok(up)
    }
}
