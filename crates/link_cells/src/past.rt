use crate::discipline::Discipline;
use crate::pass::Pass;
use std::marker::Model;
use std::snapshot::Snapshot;

/// What a pass had seen when it met the writer, for contracts; it holds nothing for the program.
#[derive(Drop)]
pub struct Past<D: Discipline> {
    pub(crate) was: Snapshot<Pass<D>>,
}

impl<D: Discipline> Model for Past<D> {
    ghost use Rattle.std.specs.Prelude.{List};
    ghost use Rattle.link_cells.specs.declared.entry.Entry.{Entry};

    ghost Value = { List Entry };

    ghost view = { λ p. p.was.value.log };
}
