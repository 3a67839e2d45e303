ghost use Rattle.std.specs.Prelude.{◌≡◌};
ghost use Rattle.doc_model.specs.Answers.{Answers};
ghost use Rattle.doc_model.specs.Axes.{axis_of};
ghost use Rattle.doc_model.specs.Lawful.{IsJoined};
ghost use Rattle.doc_model.specs.View.{Moves};
ghost use Rattle.doc_model.specs.Asks.{stop_of};

use crate::ancestors::{ancestors, ancestors_or_self};
use crate::attributes::attributes;
use crate::children::children;
use crate::descendants::{descendants, descendants_or_self};
use crate::following::following;
use crate::itself::itself;
use crate::parents::parents;
use crate::preceding::preceding;
use crate::siblings::{following_siblings, preceding_siblings};
use doc_model::{Ask, Axis, NodeView, Test};
use lists::List;
use std::alloc::Global;

/// The rows of an axis of row `n` (XPath 1.0, section 2.2) that are visible and meet the test, in the
/// order of the axis, as they are at the end of the call. `NotYet` names the row that must be shut first
/// and at a step of the call was not: `n` for child, descendant and descendant-or-self, its parent for
/// following-sibling, the root for following; the other axes need none. Costs one link a row for child,
/// the siblings and the ancestors, and an interval of rows for the others; and at most two calls a row
/// for the test, with two more for each type number that the walk comes to, whose name is asked once.
pub fn walk<V: NodeView>(
    alloc: Global,
    view: &mut V,
    n: u32,
    axis: Axis,
    test: &Test,
) -> Result<List<u32>, Ask>
    requires { IsJoined (V.sees view.old).steps n }
    ensures moves { Moves (V.sees view.old) (V.sees view.new) }
    ensures answers { Answers stop_of (λ rules steps. axis_of rules steps n axis test.now) (V.sees view.old) (V.sees view.new) result }
{
    match axis {
        Axis::Itself => itself(alloc, view, n, test),
        Axis::Child => children(alloc, view, n, test),
        Axis::Parent => parents(alloc, view, n, test),
        Axis::Descendant => descendants(alloc, view, n, test),
        Axis::DescendantOrSelf => descendants_or_self(alloc, view, n, test),
        Axis::Ancestor => ancestors(alloc, view, n, test),
        Axis::AncestorOrSelf => ancestors_or_self(alloc, view, n, test),
        Axis::Following => following(alloc, view, n, test),
        Axis::Preceding => preceding(alloc, view, n, test),
        Axis::FollowingSibling => following_siblings(alloc, view, n, test),
        Axis::PrecedingSibling => preceding_siblings(alloc, view, n, test),
        Axis::Attribute => attributes(alloc, view, n, test),
    }
}
