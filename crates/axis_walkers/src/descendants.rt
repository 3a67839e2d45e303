ghost use Rattle.std.specs.Prelude.{◌≡◌};
ghost use Rattle.doc_model.specs.declared.row.Axis.TheVariants as axis;
ghost use Rattle.doc_model.specs.Answers.{Answers};
ghost use Rattle.doc_model.specs.Axes.{axis_of};
ghost use Rattle.doc_model.specs.Lawful.{IsJoined};
ghost use Rattle.doc_model.specs.View.{Moves};
ghost use Rattle.doc_model.specs.Asks.{stop_of};

use crate::selection::Selection;
use doc_model::{Ask, NodeView, Test};
use lists::List;
use std::alloc::Global;

// The rows up to the extent.
pub(crate) fn descendants<V: NodeView>(
    alloc: Global,
    view: &mut V,
    n: u32,
    test: &Test,
) -> Result<List<u32>, Ask>
    requires { IsJoined (V.sees view.old).steps n }
    ensures moves { Moves (V.sees view.old) (V.sees view.new) }
    ensures answers { Answers stop_of (λ rules steps. axis_of rules steps n axis.Descendant test.now) (V.sees view.old) (V.sees view.new) result }
{
    let end = match view.extent(n) {
        Some(end) => end,
        None => return Err(Ask::NotYet(n)),
    };
    let mut found = Selection::new(alloc);
    found.offer_range(view, n + 1, end, test)?;
    Ok(found.into_rows())
}

// The row itself and the rows up to the extent.
pub(crate) fn descendants_or_self<V: NodeView>(
    alloc: Global,
    view: &mut V,
    n: u32,
    test: &Test,
) -> Result<List<u32>, Ask>
    requires { IsJoined (V.sees view.old).steps n }
    ensures moves { Moves (V.sees view.old) (V.sees view.new) }
    ensures answers { Answers stop_of (λ rules steps. axis_of rules steps n axis.DescendantOrSelf test.now) (V.sees view.old) (V.sees view.new) result }
{
    let end = match view.extent(n) {
        Some(end) => end,
        None => return Err(Ask::NotYet(n)),
    };
    let mut found = Selection::new(alloc);
    found.offer_itself(view, n, test)?;
    found.offer_range(view, n + 1, end, test)?;
    Ok(found.into_rows())
}
