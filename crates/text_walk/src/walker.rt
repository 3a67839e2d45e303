ghost use Rattle.std.specs.Prelude.{◌≡◌, [], ◌∷◌, ◌++◌, IfOk, OnErr};
ghost use Rattle.doc_model.specs.Lawful.{IsJoined};
ghost use Rattle.doc_model.specs.Rows.{rows_of, row_at};
ghost use Rattle.doc_model.specs.View.{Moves, IsSeen};
ghost use Rattle.text_walk.specs.Ask.{AskedIs, decider_of};
ghost use Rattle.text_walk.specs.Text.{text_of, is_event};
ghost use Rattle.text_walk.specs.Turning.{TurnIs};
ghost use Rattle.text_walk.specs.Walking.{Stands, IsUnderWay, IsBehind};

use crate::fault::FaultKind;
use crate::turn::Turn;
use doc_model::{Kind, Look, NodeView};
use std::alloc::{AllocError, Global};
use std::marker::Model;

/// The most templates that are nested, the root's counted.
const MOST_NESTED: u32 = 500;

/// Gives the text that the built-in template rules make of a document (XSLT 1.0, section 5.8) while the
/// document grows: the values of its texts in document order. Each turn goes on where the last one stopped,
/// so that all turns together cost the rows once. Takes no memory of its own, and no stack in the depth of
/// the document.
#[derive(Debug, Drop)]
pub struct Walker {
    // where the walk stands
    row: u32,
    // whether the row's children come next, and not what follows its subtree
    down: bool,
    depth: u32,
    made: u64,
}

impl Model for Walker {
    ghost use Rattle.text_walk.specs.Walking.{Walking};

    ghost Value = { Walking };

    ghost view = { λ it. record { row = it.row; down = it.down; depth = it.depth; made = it.made } };
}

impl Walker {
    /// A walker that has given nothing of any document.
    pub fn start() -> Walker
        ensures { Stands result [] [] }
    {
        Walker {
            row: 0,
            down: true,
            depth: 0,
            made: 0,
        }
    }

    /// The result events so far: the texts that are not empty.
    pub fn made(&self) -> u64
        ensures { result ≡ self.now.made }
    {
        self.made
    }

    /// Appends the text of what the document has grown by, up to the first row that the table can't tell
    /// yet. Every turn is to be given a growth of the same document, and the bytes of the last turn. Done
    /// and Faulted are given for good, and then nothing is appended. Costs the rows that are new. Fails only
    /// for want of memory: then the texts of some more rows may be given, and the next turn goes on there.
    pub fn turn<V: NodeView>(
        &mut self,
        alloc: Global,
        view: &mut V,
        into: &mut Vec<u8>,
    ) -> Result<Turn, AllocError>
        requires rules { (V.sees view.old).rules ≡ [] }
        requires behind { IsBehind self.old (V.sees view.old).steps into.old.items }
        ensures moves { Moves (V.sees view.old) (V.sees view.new) }
        ensures turn { IfOk result (TurnIs self.new into.new.items (V.sees view.old).steps (V.sees view.new).steps) }
        ensures err { OnErr result (IsUnderWay self.new (V.sees view.new).steps into.new.items) }
    {
        loop {
            match ask(view, self.row, self.down) {
                Look::NotYet => {
                    return Ok(Turn::NotYet(decider(view, self.row, self.down)));
                }
                Look::Nothing => {
                    if self.down {
                        self.down = false;
                        continue;
                    }
                    match view.parent(self.row) {
                        None => return Ok(Turn::Done),
                        Some(up) => {
                            self.row = up;
                            self.depth -= 1;
                            continue;
                        }
                    }
                }
                Look::Node(found) => {
                    let depth = self.depth + u32::from(self.down);
                    if depth >= MOST_NESTED {
                        return Ok(Turn::Faulted(FaultKind::TooDeep));
                    }
                    let event = append_text(alloc, view, found, into)?;
                    self.made += u64::from(event);
                    self.row = found;
                    self.down = true;
                    self.depth = depth;
                }
            }
        }
    }
}

// Downwards the first child, else the next sibling.
fn ask<V: NodeView>(view: &mut V, row: u32, down: bool) -> Look
    requires { IsJoined (V.sees view.old).steps row }
    ensures moves { Moves (V.sees view.old) (V.sees view.new) }
    ensures value { AskedIs (V.sees view.old) (V.sees view.new) row down result }
{
    if down {
        return view.first(row);
    }
    view.next(row)
}

// The row that is to be shut before `ask` answers that there is nothing.
fn decider<V: NodeView>(view: &mut V, row: u32, down: bool) -> u32
    requires joined { IsJoined (V.sees view.old).steps row }
    requires seen { IsSeen (V.sees view.old) }
    ensures moves { Moves (V.sees view.old) (V.sees view.new) }
    ensures value { result ≡ decider_of (rows_of (V.sees view.new).steps) row down }
{
    if down {
        return row;
    }
    view.parent(row).unwrap_or(row)
}

// Appends the value of a text, and says whether it is a result event.
fn append_text<V: NodeView>(
    alloc: Global,
    view: &mut V,
    row: u32,
    into: &mut Vec<u8>,
) -> Result<bool, AllocError>
    requires { IsJoined (V.sees view.old).steps row }
    ensures moves { Moves (V.sees view.old) (V.sees view.new) }
    ensures text { IfOk result (λ _. into.new.items ≡ into.old.items ++ text_of (row_at (rows_of (V.sees view.new).steps) row ∷ [])) }
    ensures event { IfOk result (λ event. event ≡ is_event (row_at (rows_of (V.sees view.new).steps) row)) }
    ensures err { OnErr result (into.new.items ≡ into.old.items) }
{
    match view.kind(row) {
        Kind::Text => {}
        _ => return Ok(false),
    }
    let before = into.len();
    view.text(alloc, row, into)?;
    Ok(into.len() > before)
}
