//! Numbers of node-sets (XPath 1.0, sections 4.1 and 4.4).

ghost use Rattle.std.specs.Prelude.{◌≡◌, length, pos};
ghost use Rattle.doc_model.specs.View.{Moves};
ghost use Rattle.key_sources.specs.Going.{SaysAlways};
ghost use Rattle.whole_num.specs.declared.number.Num.TheVariants.{Whole};
ghost use Rattle.xpath_meaning.specs.Conversions as conversions;
ghost use Rattle.xpath_meaning.specs.Functions.{sum_onto};
ghost use Rattle.xpath_nodes.specs.Held.{AllJoined};

use crate::stopping::calculated;
use crate::texts::node_number;
use doc_model::NodeView;
use std::alloc::Global;
use whole_num::{Num, add};
use xpath_meaning::EvalStop;
use xpath_values::{Atom, Value};

/// The sum of the numbers of the nodes, which are added in document order: so the first fault is that of the first node
/// at which there is one. Goes once through the subtree of each node.
pub fn sum<V: NodeView>(alloc: Global, view: &mut V, nodes: &[u32]) -> Result<Num, EvalStop>
    requires { AllJoined (V.sees view.old).steps nodes.now }
    ensures moves { Moves (V.sees view.old) (V.sees view.new) }
    ensures answers { SaysAlways (λ R. sum_onto R (Whole (pos 0)) nodes.now) (V.sees view.old) (V.sees view.new) result }
{
    let mut total = Num::Whole(0);
    view.told();
    for node in nodes {
        let number = node_number(alloc, view, *node)?;
        total = calculated(add(total, number))?;
    }
    Ok(total)
}

/// How many nodes there are.
pub fn count(nodes: &[u32]) -> Value
    ensures { result ≡ conversions.count (length nodes.now) }
{
    Value::Atom(Atom::Number(Num::Whole(nodes.len() as i64)))
}
