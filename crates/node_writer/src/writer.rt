ghost use Rattle.std.specs.Prelude.{◌≡◌, ◌+◌, ◌<◌, ◌≤◌, ◌^◌, ◌++◌, ◌∷◌, [], length, None, IfOk, OnOk, OnErr};
ghost use Rattle.doc_model.specs.declared.step.Step.TheVariants.{Node, Shut, End};
ghost use Rattle.doc_model.specs.Cells.{empty_cells};
ghost use Rattle.doc_model.specs.Document.{document_of};
ghost use Rattle.doc_model.specs.Lawful.{CanStep};
ghost use Rattle.doc_model.specs.Rows.{rows_of};
ghost use Rattle.node_writer.specs.Known.{AreKnown, names_in};
ghost use Rattle.node_writer.specs.Taken.{HasRoom};
ghost use Rattle.node_writer.specs.Stands.{Stands};

use crate::filler::{Filler, Links};
use crate::known::known_at;
use crate::open_row::{OpenRow, count_joined, innermost};
use doc_model::{GrowCells, Limits, Row, Verdict};
use lists::List;
use name_pool::{Memory, NamePool};
use std::alloc::Global;

/// Writes steps into a growing table: it gives names and prefixes their numbers, and rows their places and
/// links. It keeps the names of the table, and of each open row the number and the last child.
#[derive(Drop)]
pub struct NodeWriter {
    pub(crate) filler: Filler,
    // the open rows, the root first
    stack: List<OpenRow>,
}

impl NodeWriter {
    /// A writer for an empty table with these limits. Fails only for want of memory.
    pub fn start(alloc: Global, limits: Limits) -> Result<NodeWriter, Memory>
        requires names { limits.names ≤ 65536 }
        requires text { limits.text < 2 ^ 32 }
        ensures { IfOk result (λ writer. Stands writer limits empty_cells) }
    {
        let pool = NamePool::start(alloc, limits.names)?;
        let mut stack = List::new(alloc);
        match stack.push(OpenRow { row: 0, last: None }) {
            Ok(_) => {}
            Err(_) => return Err(Memory),
        }
        let filler = Filler {
            pool,
            text: 0,
            at: 0,
            rows: 1,
            types: 3,
            prefixes: 1,
        };
        Ok(NodeWriter { filler, stack })
    }

    /// Appends a Node: fills its new names and prefixes, its row and its attributes, and joins them. `known`
    /// has the type numbers that are known, the row's first. Costs the bytes of prefixes, local names and
    /// values, a look-up of each prefix, and one of each name whose type number isn't known: that alone reads
    /// the bytes of a URI. Fails only for want of memory: then no step was made, and what was filled can't be
    /// read; the table can still be finished.
    pub fn node<C: GrowCells>(
        &mut self,
        alloc: Global,
        c: &mut C,
        row: &Row,
        attributes: &[Row],
        known: &[Option<u32>],
    ) -> Result<(), Memory>
        requires stands { Stands self.old (C.limits c.old) (C.cells c.old) }
        requires going { (document_of (C.cells c.old).steps).ended ≡ None }
        requires may { CanStep (document_of (C.cells c.old).steps) (Node row.now attributes.now) }
        requires room { HasRoom (C.limits c.old) (rows_of (C.cells c.old).steps ++ row.now ∷ attributes.now) }
        requires known { AreKnown 0 (names_in self.old) (row.now ∷ attributes.now) known.now }
        ensures stands { OnOk result (Stands self.new (C.limits c.new) (C.cells c.new)) }
        ensures steps { OnOk result ((C.cells c.new).steps ≡ (C.cells c.old).steps ++ Node row.now attributes.now ∷ []) }
        ensures err { OnErr result ((C.cells c.new).steps ≡ (C.cells c.old).steps) }
        ensures limits { C.limits c.new ≡ C.limits c.old }
        ensures mark { C.mark c.new ≡ C.mark c.old }
    {
        let n = self.filler.rows;
        let around = innermost(&self.stack);
        let links = Links {
            parent: around.row,
            prev: around.last,
            attributes: attributes.len() as u32,
        };
        self.filler.row(alloc, c, row, known_at(known, 0), links)?;
        self.filler.attributes(alloc, c, n, attributes, known)?;
        count_joined(&mut self.stack, n, row.kind)?;
        c.join(n, around.join());
        Ok(())
    }

    /// Ends the innermost open element. Takes no memory.
    pub fn shut<C: GrowCells>(&mut self, c: &mut C)
        requires stands { Stands self.old (C.limits c.old) (C.cells c.old) }
        requires going { (document_of (C.cells c.old).steps).ended ≡ None }
        requires may { CanStep (document_of (C.cells c.old).steps) Shut }
        ensures stands { Stands self.new (C.limits c.new) (C.cells c.new) }
        ensures steps { (C.cells c.new).steps ≡ (C.cells c.old).steps ++ Shut ∷ [] }
        ensures limits { C.limits c.new ≡ C.limits c.old }
        ensures mark { C.mark c.new ≡ C.mark c.old }
    {
        match self.stack.pop() {
            Some(open) => c.shut(open.row, self.filler.rows),
            None => unreachable!(),
        }
    }

    /// Ends the document. It may come after want of memory too, since it asks nothing but that the steps may
    /// end so. Takes no memory.
    pub fn finish<C: GrowCells>(&self, c: &mut C, verdict: Verdict)
        requires going { (document_of (C.cells c.old).steps).ended ≡ None }
        requires may { CanStep (document_of (C.cells c.old).steps) (End verdict) }
        ensures steps { (C.cells c.new).steps ≡ (C.cells c.old).steps ++ End verdict ∷ [] }
        ensures columns { (C.cells c.new).columns ≡ (C.cells c.old).columns }
        ensures limits { C.limits c.new ≡ C.limits c.old }
        ensures mark { C.mark c.new ≡ C.mark c.old }
    {
        c.finish(verdict);
    }
}
