ghost use Rattle.std.specs.Prelude.{◌≡◌};
ghost use Rattle.doc_model.specs.declared.row.Axis.TheVariants as axis;
ghost use Rattle.doc_model.specs.Answers.{Answers};
ghost use Rattle.doc_model.specs.Axes.{axis_of};
ghost use Rattle.doc_model.specs.Lawful.{IsJoined};
ghost use Rattle.doc_model.specs.View.{Moves};
ghost use Rattle.doc_model.specs.Asks.{stop_of};

use crate::selection::Selection;
use doc_model::{Ask, Kind, NodeView, Test};
use lists::List;
use std::alloc::Global;

// The parent, where there is one.
pub(crate) fn parents<V: NodeView>(
    alloc: Global,
    view: &mut V,
    n: u32,
    test: &Test,
) -> Result<List<u32>, Ask>
    requires { IsJoined (V.sees view.old).steps n }
    ensures moves { Moves (V.sees view.old) (V.sees view.new) }
    ensures answers { Answers stop_of (λ rules steps. axis_of rules steps n axis.Parent test.now) (V.sees view.old) (V.sees view.new) result }
{
    let mut found = Selection::new(alloc);
    match view.parent(n) {
        Some(above) => {
            found.offer(view, above, Kind::Element, test)?;
            Ok(found.into_rows())
        }
        None => Ok(found.into_rows()),
    }
}
