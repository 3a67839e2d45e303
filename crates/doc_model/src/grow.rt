ghost use Rattle.std.specs.Prelude.{◌≡◌, ◌<◌, ◌≤◌, length, None};
ghost use Rattle.doc_model.specs.declared.limits.Limits.{Limits};
ghost use Rattle.doc_model.specs.declared.step.Step.TheVariants.{Shut, End};
ghost use Rattle.doc_model.specs.Cells.{Cells, free_of, node_at, text_place, with_text, with_name, with_prefix, with_row, with_step};
ghost use Rattle.doc_model.specs.Document.{document_of};
ghost use Rattle.doc_model.specs.Legal.{NameFits, IsFresh, PrefixFits, RowFits, RowStands, JoinFits, ShutFits, EndFits};

use crate::places::{Join, NamePlace, Room, RowPlace};
use crate::step::Verdict;

/// A table that one builder fills and joins. Rows, names, prefixes and texts are filled first; a row
/// becomes readable when it is joined. Each call has the next place, names only what is filled before
/// it, and has room, and none comes after `finish`; none takes memory or is refused. The root row, type
/// numbers 0 (the root), 1 (texts) and 2 (comments) and prefix 0 (empty) stand from the start.
pub trait GrowCells {
    /// What tells the borrow that the table stands on.
    ghost Mark: { Type 0 };

    /// The lists that were filled and the steps that were made.
    ghost cells: { Self → Cells };

    /// What there is room for in all.
    ghost limits: { Self → Limits };

    /// No call changes it.
    ghost mark: { Self → Mark };

    /// What is free.
    fn room(&self) -> Room
        ensures { result ≡ free_of (limits self.now) (cells self.now).columns };

    /// Adds bytes to the texts, at the least multiple of 7 that isn't below the end of the last text. Costs
    /// the bytes.
    fn fill_text(&mut self, at: u64, bytes: &[u8])
        requires going { (document_of (cells self.old).steps).ended ≡ None }
        requires place { at ≡ text_place (length (cells self.old).columns.texts) }
        requires room { length bytes.now ≤ (free_of (limits self.old) (cells self.old).columns).text }
        ensures cells { cells self.new ≡ with_text (cells self.old) bytes.now }
        ensures limits { limits self.new ≡ limits self.old }
        ensures mark { mark self.new ≡ mark self.old };

    /// Gives the next type number a name that none has yet.
    fn fill_name(&mut self, id: u32, name: &NamePlace)
        requires going { (document_of (cells self.old).steps).ended ≡ None }
        requires place { id ≡ length (cells self.old).columns.names }
        requires room { 0 < (free_of (limits self.old) (cells self.old).columns).names }
        requires fits { NameFits (cells self.old).columns name.now }
        requires fresh { IsFresh (cells self.old).columns name.now }
        ensures cells { cells self.new ≡ with_name (cells self.old) name.now }
        ensures limits { limits self.new ≡ limits self.old }
        ensures mark { mark self.new ≡ mark self.old };

    /// Gives the next prefix number a text.
    fn fill_prefix(&mut self, id: u32, at: u64, len: u32)
        requires going { (document_of (cells self.old).steps).ended ≡ None }
        requires place { id ≡ length (cells self.old).columns.prefixes }
        requires room { 0 < (free_of (limits self.old) (cells self.old).columns).names }
        requires fits { PrefixFits (cells self.old).columns (record { at = at; len = len }) }
        ensures cells { cells self.new ≡ with_prefix (cells self.old) (record { at = at; len = len }) }
        ensures limits { limits self.new ≡ limits self.old }
        ensures mark { mark self.new ≡ mark self.old };

    /// Fills the next row, which can't be read before it is joined.
    fn fill_row(&mut self, n: u32, row: &RowPlace)
        requires going { (document_of (cells self.old).steps).ended ≡ None }
        requires place { n ≡ length (cells self.old).columns.places }
        requires room { 0 < (free_of (limits self.old) (cells self.old).columns).rows }
        requires fits { RowFits (cells self.old).columns row.now }
        requires stands { RowStands (cells self.old).columns row.now }
        ensures cells { cells self.new ≡ with_row (cells self.old) row.now }
        ensures limits { limits self.new ≡ limits self.old }
        ensures mark { mark self.new ≡ mark self.old };

    /// Makes row `n` and its attributes readable: appends the Node.
    fn join(&mut self, n: u32, how: Join)
        requires { JoinFits (cells self.old) n how }
        ensures cells { cells self.new ≡ with_step (cells self.old) (node_at (cells self.old).columns n) }
        ensures limits { limits self.new ≡ limits self.old }
        ensures mark { mark self.new ≡ mark self.old };

    /// Ends the innermost open element, row `n`: appends the Shut. `extent` is 1 plus the greatest row
    /// number in its subtree.
    fn shut(&mut self, n: u32, extent: u32)
        requires { ShutFits (cells self.old) n extent }
        ensures cells { cells self.new ≡ with_step (cells self.old) Shut }
        ensures limits { limits self.new ≡ limits self.old }
        ensures mark { mark self.new ≡ mark self.old };

    /// Ends the document, once: appends the End.
    fn finish(&mut self, verdict: Verdict)
        requires { EndFits (cells self.old) verdict }
        ensures cells { cells self.new ≡ with_step (cells self.old) (End verdict) }
        ensures limits { limits self.new ≡ limits self.old }
        ensures mark { mark self.new ≡ mark self.old };
}
