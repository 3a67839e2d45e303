ghost use Rattle.std.specs.Prelude.{[]};
ghost use Rattle.link_cells.specs.Views.{writer_view};
ghost use Rattle.link_cells.specs.Rule.{Kept};

use crate::discipline::Discipline;
use crate::plan::Plan;
use crate::view::View;
use atomic_table::TableRule;
use std::marker::PhantomData;

/// The rule of the table: it holds between any two atomic steps. The first seat is the writer's.
pub struct LogRule<D> {
    discipline: PhantomData<D>,
}

impl<D: Discipline> TableRule<(), View, Plan> for LogRule<D> {
    ghost holds = { λ plan s. Kept D.keeps plan s };

    ghost first = { λ plan. writer_view plan.layout [] };
}
