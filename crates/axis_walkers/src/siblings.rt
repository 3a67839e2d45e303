ghost use Rattle.std.specs.Prelude.{◌≡◌};
ghost use Rattle.doc_model.specs.declared.row.Axis.TheVariants as axis;
ghost use Rattle.doc_model.specs.Answers.{Answers};
ghost use Rattle.doc_model.specs.Axes.{axis_of};
ghost use Rattle.doc_model.specs.Lawful.{IsJoined};
ghost use Rattle.doc_model.specs.View.{Moves};
ghost use Rattle.doc_model.specs.Asks.{stop_of};

use crate::selection::Selection;
use doc_model::{Ask, Kind, Look, NodeView, Test};
use lists::List;
use std::alloc::Global;

// The siblings after the row. The parent is named where they are not all there.
pub(crate) fn following_siblings<V: NodeView>(
    alloc: Global,
    view: &mut V,
    n: u32,
    test: &Test,
) -> Result<List<u32>, Ask>
    requires { IsJoined (V.sees view.old).steps n }
    ensures moves { Moves (V.sees view.old) (V.sees view.new) }
    ensures answers { Answers stop_of (λ rules steps. axis_of rules steps n axis.FollowingSibling test.now) (V.sees view.old) (V.sees view.new) result }
{
    let mut found = Selection::new(alloc);
    let above = match view.parent(n) {
        Some(above) => above,
        None => return Ok(found.into_rows()),
    };
    let mut at = n;
    'walk: loop {
        match view.next(at) {
            Look::Node(k) => {
                found.offer(view, k, Kind::Element, test)?;
                at = k;
            }
            Look::Nothing => return Ok(found.into_rows()),
            Look::NotYet => return Err(Ask::NotYet(above)),
        }
    }
}

// The siblings before the row, the last first.
pub(crate) fn preceding_siblings<V: NodeView>(
    alloc: Global,
    view: &mut V,
    n: u32,
    test: &Test,
) -> Result<List<u32>, Ask>
    requires { IsJoined (V.sees view.old).steps n }
    ensures moves { Moves (V.sees view.old) (V.sees view.new) }
    ensures answers { Answers stop_of (λ rules steps. axis_of rules steps n axis.PrecedingSibling test.now) (V.sees view.old) (V.sees view.new) result }
{
    let mut found = Selection::new(alloc);
    let mut up = view.prev(n);
    'walk: loop {
        match up {
            Some(k) => {
                found.offer(view, k, Kind::Element, test)?;
                up = view.prev(k);
            }
            None => return Ok(found.into_rows()),
        }
    }
}
