ghost use Rattle.doc_model.specs.Lawful.{IsJoined};
ghost use Rattle.doc_model.specs.View.{Moves};
ghost use Rattle.key_sources.specs.Going.{SaysAlways};

use crate::stopping::stop_for;
use axis_walkers::walk;
use doc_model::{Axis, NodeView, Test};
use lists::List;
use std::alloc::Global;
use xpath_meaning::EvalStop;

/// The nodes of an axis of node `n` that meet a test, in the order of the axis. Costs what `axis_walkers::walk` does.
pub fn axis_nodes<V: NodeView>(
    alloc: Global,
    view: &mut V,
    n: u32,
    axis: Axis,
    test: &Test,
) -> Result<List<u32>, EvalStop>
    requires { IsJoined (V.sees view.old).steps n }
    ensures moves { Moves (V.sees view.old) (V.sees view.new) }
    ensures answers { SaysAlways (λ R. R.axis axis test.now n) (V.sees view.old) (V.sees view.new) result }
{
    match walk(alloc, view, n, axis, test) {
        Ok(nodes) => Ok(nodes),
        Err(ask) => Err(stop_for(ask)),
    }
}
