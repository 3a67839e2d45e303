//! The five kinds of atomic step: set, get, split, join, and the writer's load after a join. After the cells
//! are made there is no other.
ghost use Rattle.link_cells.specs.Views.{pass_of, hears, is_shown, spent_view};
ghost use Rattle.link_cells.specs.Steps.{Sets, Gets, Meets};

use crate::discipline::Discipline;
use crate::view::View;
use atomic_table::{Join, Play, Split};
use std::marker::PhantomData;

// The writer sets a word.
pub(crate) struct Setting;

impl Play<(), View> for Setting {
    ghost then = { Sets };
}

// A pass reads a word.
pub(crate) struct Getting<D> {
    discipline: PhantomData<D>,
}

impl<D: Discipline> Play<(), View> for Getting<D> {
    ghost then = { Gets D.keeps };
}

// The writer compares its log with what a pass told it.
pub(crate) struct Meeting;

impl Play<(), View> for Meeting {
    ghost then = { Meets };
}

// A seat is split into itself and a pass that has seen as much.
pub(crate) struct Parting;

impl Split<View> for Parting {
    ghost left = { λ v. v };

    ghost right = { pass_of };
}

// A pass is joined into a seat, which keeps what the pass had seen beside its own list.
pub(crate) struct Telling;

impl Join<View> for Telling {
    ghost both = { hears };

    ghost spent = { spent_view };
}

// A pass is joined into another, which takes what the first had seen in place of its own list.
pub(crate) struct Showing;

impl Join<View> for Showing {
    ghost both = { is_shown };

    ghost spent = { spent_view };
}
