ghost use Rattle.std.specs.Prelude.{◌≡◌, ◌≢◌, ◌<◌, ◌++◌, [], ◌∷◌, List};
ghost use mathlib.Core.List.{IsPrefix};
ghost use Rattle.link_cells.specs.declared.entry.Entry.{Entry};
ghost use Rattle.link_cells.specs.Known.{knows};
ghost use Rattle.link_cells.specs.Log.{put, value_at, IsOnce};

use crate::discipline::Discipline;
use crate::pass::Pass;
use crate::steps::{Meeting, Parting, Setting, Telling};
use crate::table::Cells;
use crate::view::View;
use atomic_table::Seat;
use std::marker::{Model, PhantomData};

/// The one that sets the words of its cells. Contracts see the mark of the cells and the log, all sets so
/// far with the oldest first. It has no bytes.
#[derive(Drop)]
pub struct Writer<D: Discipline> {
    pub(crate) seat: Seat<(), View>,
    pub(crate) of: PhantomData<D>,
}

impl<D: Discipline> Model for Writer<D> {
    ghost use Rattle.link_cells.specs.Known.{Known, knows_of};
    ghost use Rattle.link_cells.specs.Views.{IsWriter, IsLawful};

    ghost Value = { Known };

    ghost view = { λ w. knows_of w.seat.table_id w.seat.me.0 };

    ghost invariant = { λ w. IsWriter w.seat.me.0 × IsLawful D.keeps w.seat.me };
}

impl<D: Discipline> Writer<D> {
    /// Sets a word that is unset to a value other than 0. The log with this set must keep the discipline.
    /// One store, without memory, wait or loop.
    pub fn set(&mut self, cells: &Cells<D>, at: usize, value: u64)
        requires mark { self.old.mark ≡ cells.now }
        requires at { at < cells.now.table.words }
        requires value { value ≢ 0 }
        requires unset { value_at at self.old.log ≡ 0 }
        requires keeps { D.keeps cells.now.layout (self.old.log ++ put at value ∷ []) }
        ensures { self.new ≡ knows self.old.mark (self.old.log ++ put at value ∷ []) }
    {
        cells
            .table
            .shared
            .store::<Setting>(&mut self.seat, at, value);
    }

    /// No word of the log is set twice, and the log and its beginnings keep the discipline. Without code.
    pub fn lawful(&self)
        ensures once { IsOnce self.now.log }
        ensures keeps { D.keeps self.now.mark.layout self.now.log }
        ensures beginnings { (log : List Entry) → IsPrefix log self.now.log → D.keeps self.now.mark.layout log }
    {
        let _seat = &self.seat;
    }
    // A pass that has seen the log.
    pub(crate) fn new_pass(&mut self, cells: &Cells<D>) -> Pass<D>
        requires { self.old.mark ≡ cells.now }
        ensures writer { self.new ≡ self.old }
        ensures pass { result ≡ self.old }
    {
        Pass {
            seat: cells.table.shared.split_seat::<Parting>(&mut self.seat),
            of: PhantomData,
        }
    }

    // Spends a pass: what it has seen is a beginning of the log.
    pub(crate) fn hear(&mut self, cells: &Cells<D>, pass: Pass<D>)
        requires writer { self.old.mark ≡ cells.now }
        requires pass { pass.mark ≡ cells.now }
        ensures writer { self.new ≡ self.old }
        ensures prefix { IsPrefix pass.log self.old.log }
    {
        let Pass { seat, of: _ } = pass;
        cells
            .table
            .shared
            .join_seat::<Telling>(&mut self.seat, seat);
        cells.table.shared.load::<Meeting>(&mut self.seat, 0);
    }
}
