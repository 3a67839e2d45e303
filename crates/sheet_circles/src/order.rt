//! The order of the globals of a stylesheet.

ghost use Rattle.global_order.specs.Order.{Answers};
ghost use Rattle.sheet_graph.specs.Graph.{graph_of};

use crate::nodes::graph;
use global_order::{OrderStop, order_of};
use lists::List;
use sheet_ast::Sheet;
use std::alloc::Global;

/// The globals of a stylesheet by their places, counted from 0, in the order in which they are evaluated (XSLT 1.0,
/// section 11.4): again and again the first in the order of the sheet that isn't done and whose needs are. A global
/// needs the globals that its value names, and those that the templates need which it can reach, by the names that it
/// calls and the modes that it applies. `Circle` is the place of the first global that never becomes ready, and comes
/// exactly where there is one. Costs in the order of what the sheet mentions, with a logarithm for each global; it
/// recurs as deep as elements and expressions are nested, chains of operators left out.
pub fn order_of_globals(alloc: Global, sheet: &Sheet) -> Result<List<u32>, OrderStop>
    ensures { Answers (graph_of sheet.now) result }
{
    let nodes = graph(alloc, sheet)?;
    order_of(alloc, nodes.as_slice())
}
