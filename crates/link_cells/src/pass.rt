ghost use Rattle.std.specs.Prelude.{◌≡◌, ◌≢◌, ◌<◌, ◌↔◌, List};
ghost use mathlib.Core.List.{IsPrefix};
ghost use Rattle.link_cells.specs.declared.entry.Entry.{Entry};
ghost use Rattle.link_cells.specs.Log.{value_at, IsOnce, IsTheSet, IsUnset};

use crate::discipline::Discipline;
use crate::steps::{Getting, Parting, Showing};
use crate::table::Cells;
use crate::view::View;
use atomic_table::Seat;
use std::marker::{Model, PhantomData};

/// A reader of the words of its cells, which may be moved to another thread. Contracts see the mark of the
/// cells and the log, the sets that it has seen with the oldest first. It has no bytes.
#[derive(Drop)]
pub struct Pass<D: Discipline> {
    pub(crate) seat: Seat<(), View>,
    pub(crate) of: PhantomData<D>,
}

impl<D: Discipline> Model for Pass<D> {
    ghost use Rattle.link_cells.specs.Known.{Known, knows_of};
    ghost use Rattle.link_cells.specs.Views.{IsPass, IsLawful};

    ghost Value = { Known };

    ghost view = { λ p. knows_of p.seat.table_id p.seat.me.0 };

    ghost invariant = { λ p. IsPass p.seat.me.0 × IsLawful D.keeps p.seat.me };
}

impl<D: Discipline> Pass<D> {
    /// The value of a word, or 0 where it is unset at this step. Afterwards the pass has seen every set that
    /// was made before the step. One load, without memory, wait or loop.
    pub fn get(&mut self, cells: &Cells<D>, at: usize) -> u64
        requires mark { self.old.mark ≡ cells.now }
        requires at { at < cells.now.table.words }
        ensures mark { self.new.mark ≡ self.old.mark }
        ensures grows { IsPrefix self.old.log self.new.log }
        ensures value { result ≡ value_at at self.new.log }
        ensures one { result ≢ 0 → IsTheSet at result self.new.log }
        ensures none { (result ≡ 0) ↔ IsUnset at self.new.log }
        ensures keeps { D.keeps cells.now.layout self.new.log }
    {
        cells.table.shared.load::<Getting<D>>(&mut self.seat, at)
    }

    /// No word is set twice among the sets that the pass has seen, and these and their beginnings keep the
    /// discipline. Without code.
    pub fn lawful(&self)
        ensures once { IsOnce self.now.log }
        ensures keeps { D.keeps self.now.mark.layout self.now.log }
        ensures beginnings { (log : List Entry) → IsPrefix log self.now.log → D.keeps self.now.mark.layout log }
    {
        let _seat = &self.seat;
    }
    // Another pass that has seen as much.
    pub(crate) fn twin(&mut self, cells: &Cells<D>) -> Pass<D>
        requires { self.old.mark ≡ cells.now }
        ensures pass { self.new ≡ self.old }
        ensures twin { result ≡ self.old }
    {
        Pass {
            seat: cells.table.shared.split_seat::<Parting>(&mut self.seat),
            of: PhantomData,
        }
    }

    // Spends a pass: this one has then seen what that one has, in place of its own list.
    pub(crate) fn take(&mut self, cells: &Cells<D>, news: Pass<D>)
        requires pass { self.old.mark ≡ cells.now }
        requires news { news.mark ≡ cells.now }
        ensures { self.new ≡ news }
    {
        let Pass { seat, of: _ } = news;
        cells
            .table
            .shared
            .join_seat::<Showing>(&mut self.seat, seat);
    }
}
