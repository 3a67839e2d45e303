use crate::discipline::Discipline;
use crate::plan::Plan;
use crate::rule::LogRule;
use crate::view::View;
use atomic_table::Table;
use std::alloc::Global;
use std::marker::Model;

/// Words of 64 bits that are 0 until they are set, once each. Threads share them by reference; who sets and
/// reads them has a [`Writer`](crate::Writer) or a [`Pass`](crate::Pass) that was made with them.
///
/// Contracts see the mark of the cells: which table of words it is, with the number of its words, and the
/// layout. A writer or a pass of other cells has another mark.
#[derive(Drop)]
pub struct Cells<D: Discipline> {
    pub(crate) table: Table<(), View, Plan, LogRule<D>, Global>,
}

impl<D: Discipline> Model for Cells<D> {
    ghost use Rattle.link_cells.specs.Known.{Mark, CountsWords};

    ghost Value = { Mark };

    ghost view = { λ c. record { table = c.table.shared.table_id; layout = c.table.shared.key.layout } };

    ghost invariant = { λ c. CountsWords c.table.shared.key c.table.shared.table_id };
}
