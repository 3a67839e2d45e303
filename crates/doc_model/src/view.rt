ghost use Rattle.std.specs.Prelude.{◌≡◌, ◌++◌, OnOk, OnErr, slice_index, bytes_eq};
ghost use Rattle.doc_model.specs.Lawful.{IsJoined};
ghost use Rattle.doc_model.specs.Relations.{parent_of, attr_count_of};
ghost use Rattle.doc_model.specs.Rows.{rows_of, row_at};
ghost use Rattle.doc_model.specs.Shown.{prev_shown};
ghost use Rattle.doc_model.specs.Strip.{is_blank, is_named, is_visible};
ghost use Rattle.doc_model.specs.View.{Seen, Moves, FirstIs, NextIs, ExtentIs, EndedIs, part_of, name_of};

use crate::look::Look;
use crate::row::{Kind, NameText};
use crate::step::Verdict;
use std::alloc::{AllocError, Global};

/// A table that is read while it may still grow. What is seen only grows, in a call too; an answer that
/// is a node, an extent or a datum holds of every growth. A row may be asked about once it is joined,
/// also where the strip rules hide it. No call but `text` and `name` takes memory; none waits.
pub trait NodeView {
    /// What tells the borrow that the view stands on.
    ghost Mark: { Type 0 };

    /// What was seen.
    ghost sees: { Self → Seen Mark };

    /// What holds of the view at any time. Does nothing.
    fn told(&mut self)
        ensures { Moves (sees self.old) (sees self.new) };

    fn kind(&mut self, n: u32) -> Kind
        requires { IsJoined (sees self.old).steps n }
        ensures moves { Moves (sees self.old) (sees self.new) }
        ensures value { result ≡ (row_at (rows_of (sees self.new).steps) n).kind };

    /// The number of the row's expanded type (XPath 1.0, section 5): equal exactly where kind, URI and
    /// local name are.
    fn type_id(&mut self, n: u32) -> u32
        requires { IsJoined (sees self.old).steps n }
        ensures moves { Moves (sees self.old) (sees self.new) }
        ensures value { result ≡ slice_index (sees self.new).types n };

    /// The parent; the root has none. An attribute's is its element.
    fn parent(&mut self, n: u32) -> Option<u32>
        requires { IsJoined (sees self.old).steps n }
        ensures moves { Moves (sees self.old) (sees self.new) }
        ensures value { result ≡ parent_of (rows_of (sees self.new).steps) n };

    /// The last visible sibling before the row.
    fn prev(&mut self, n: u32) -> Option<u32>
        requires { IsJoined (sees self.old).steps n }
        ensures moves { Moves (sees self.old) (sees self.new) }
        ensures value { result ≡ prev_shown (sees self.new).rules (rows_of (sees self.new).steps) n };

    /// How many of the rows right after the row are its attributes.
    fn attr_count(&mut self, n: u32) -> u32
        requires { IsJoined (sees self.old).steps n }
        ensures moves { Moves (sees self.old) (sees self.new) }
        ensures value { result ≡ attr_count_of (rows_of (sees self.new).steps) n };

    /// Whether the strip rules leave the row visible.
    fn shown(&mut self, n: u32) -> bool
        requires { IsJoined (sees self.old).steps n }
        ensures moves { Moves (sees self.old) (sees self.new) }
        ensures value { result ≡ is_visible (sees self.new).rules (rows_of (sees self.new).steps) n };

    /// The first visible child.
    fn first(&mut self, n: u32) -> Look
        requires { IsJoined (sees self.old).steps n }
        ensures moves { Moves (sees self.old) (sees self.new) }
        ensures value { FirstIs (sees self.old) (sees self.new) n result };

    /// The first visible sibling after the row.
    fn next(&mut self, n: u32) -> Look
        requires { IsJoined (sees self.old).steps n }
        ensures moves { Moves (sees self.old) (sees self.new) }
        ensures value { NextIs (sees self.old) (sees self.new) n result };

    /// 1 plus the greatest row number in the row's subtree, once the row is shut.
    fn extent(&mut self, n: u32) -> Option<u32>
        requires { IsJoined (sees self.old).steps n }
        ensures moves { Moves (sees self.old) (sees self.new) }
        ensures value { ExtentIs (sees self.old).steps (sees self.new).steps n result };

    /// How the document ended, once it has.
    fn ended(&mut self) -> Option<Verdict>
        ensures moves { Moves (sees self.old) (sees self.new) }
        ensures value { EndedIs (sees self.old).steps (sees self.new).steps result };

    /// Appends the row's own value. Fails only for want of memory.
    fn text(&mut self, alloc: Global, n: u32, into: &mut Vec<u8>) -> Result<(), AllocError>
        requires { IsJoined (sees self.old).steps n }
        ensures moves { Moves (sees self.old) (sees self.new) }
        ensures value { OnOk result (into.new.items ≡ into.old.items ++ (row_at (rows_of (sees self.new).steps) n).value) }
        ensures err { OnErr result (into.new.items ≡ into.old.items) };

    /// Sets the texts of the row's name. Fails only for want of memory.
    fn name(&mut self, alloc: Global, n: u32, into: &mut NameText) -> Result<(), AllocError>
        requires { IsJoined (sees self.old).steps n }
        ensures moves { Moves (sees self.old) (sees self.new) }
        ensures value { OnOk result (into.new ≡ name_of (row_at (rows_of (sees self.new).steps) n)) }
        ensures err { OnErr result (into.new ≡ into.old) };

    /// Whether the row is a text of whitespace alone.
    fn blank(&mut self, n: u32) -> bool
        requires { IsJoined (sees self.old).steps n }
        ensures moves { Moves (sees self.old) (sees self.new) }
        ensures value { result ≡ is_blank (row_at (rows_of (sees self.new).steps) n) };

    /// Whether the row has this URI, and this local name where one is given.
    fn name_is(&mut self, n: u32, uri: &[u8], local: Option<&[u8]>) -> bool
        requires { IsJoined (sees self.old).steps n }
        ensures moves { Moves (sees self.old) (sees self.new) }
        ensures value { result ≡ is_named (row_at (rows_of (sees self.new).steps) n) uri.now (part_of local.entry) };

    /// Whether the row's own value is this text.
    fn value_is(&mut self, n: u32, text: &[u8]) -> bool
        requires { IsJoined (sees self.old).steps n }
        ensures moves { Moves (sees self.old) (sees self.new) }
        ensures value { result ≡ bytes_eq (row_at (rows_of (sees self.new).steps) n).value text.now };
}
