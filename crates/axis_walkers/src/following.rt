ghost use Rattle.std.specs.Prelude.{◌≡◌};
ghost use Rattle.doc_model.specs.declared.row.Axis.TheVariants as axis;
ghost use Rattle.doc_model.specs.Answers.{Answers};
ghost use Rattle.doc_model.specs.Axes.{axis_of};
ghost use Rattle.doc_model.specs.Lawful.{IsJoined};
ghost use Rattle.doc_model.specs.View.{Moves};
ghost use Rattle.doc_model.specs.Asks.{stop_of};

use crate::selection::Selection;
use doc_model::{Ask, NodeView, Test};
use lists::List;
use std::alloc::Global;

// The rows from the extent on. Where the root is shut, all rows are.
pub(crate) fn following<V: NodeView>(
    alloc: Global,
    view: &mut V,
    n: u32,
    test: &Test,
) -> Result<List<u32>, Ask>
    requires { IsJoined (V.sees view.old).steps n }
    ensures moves { Moves (V.sees view.old) (V.sees view.new) }
    ensures answers { Answers stop_of (λ rules steps. axis_of rules steps n axis.Following test.now) (V.sees view.old) (V.sees view.new) result }
{
    let end = match view.extent(0) {
        Some(end) => end,
        None => return Err(Ask::NotYet(0)),
    };
    let from = match view.extent(n) {
        Some(from) => from,
        None => unreachable!(),
    };
    let mut found = Selection::new(alloc);
    found.offer_range(view, from, end, test)?;
    Ok(found.into_rows())
}
