//! What values are without a document: node-sets, and what a predicate says (XPath 1.0, sections 2.4 and 3.3).

ghost use Rattle.std.specs.Prelude.{◌≡◌};
ghost use Rattle.key_sources.specs.Going.{Gives};
ghost use Rattle.xpath_meaning.specs.Conversions as conversions;

use fault_kinds::FaultKind;
use lists::List;
use whole_num::Num;
use xpath_meaning::EvalStop;
use xpath_values::{Atom, Value, truth_of, value_truth};

/// The nodes of a node-set; `NotNodeSet` exactly where the value is none. Takes no memory.
pub fn value_nodes(value: Value) -> Result<List<u32>, EvalStop>
    ensures { Gives (conversions.nodes_of value) result }
{
    match value {
        Value::Nodes(nodes) => Ok(nodes),
        Value::Atom(_) | Value::Fragment(_) => Err(EvalStop::Fault(FaultKind::NotNodeSet)),
    }
}

/// What a predicate says where it has this value: a number is compared with the position, and any other value is
/// converted to a boolean. Takes no memory.
pub fn value_holds(value: &Value, position: u64) -> bool
    ensures { result ≡ conversions.holds value.now position }
{
    match value {
        Value::Atom(Atom::Number(number)) => is_position(*number, position),
        Value::Atom(atom) => truth_of(atom),
        Value::Nodes(_) | Value::Fragment(_) => value_truth(value),
    }
}

fn is_position(number: Num, position: u64) -> bool
    ensures { result ≡ conversions.is_position number position }
{
    match number {
        Num::NaN => false,
        Num::Whole(n) => i128::from(n) == i128::from(position),
    }
}
