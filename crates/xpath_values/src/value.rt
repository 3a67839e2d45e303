ghost use Rattle.std.specs.Prelude.{◌≡◌, IfOk};
ghost use Rattle.xpath_values.specs.Values.{truth_of_value};

use crate::atom::{Atom, truth_of};
use lists::List;
use result_events::{Events, copy_events};
use std::alloc::Global;
use whole_num::Memory;

/// What an expression gives (XPath 1.0, section 1; XSLT 1.0, section 11.1).
#[derive(Debug, Drop, PartialEq, Eq)]
pub enum Value {
    /// The rows of a node-set, in document order and without repeats.
    Nodes(List<u32>),
    Atom(Atom),
    /// A fragment of a result tree.
    Fragment(Events),
}

/// The boolean of a value (XPath 1.0, section 4.3): a node-set is true if it isn't empty, a fragment always. Takes no
/// memory.
pub fn value_truth(value: &Value) -> bool
    ensures { result ≡ truth_of_value value.now }
{
    match value {
        Value::Nodes(nodes) => !nodes.is_empty(),
        Value::Atom(atom) => truth_of(atom),
        Value::Fragment(_) => true,
    }
}

/// A copy of an atom. Fails only for want of memory.
pub fn copy_atom(alloc: Global, atom: &Atom) -> Result<Atom, Memory>
    ensures { IfOk result (λ copy. copy ≡ atom.now) }
{
    match atom {
        Atom::Text(text) => Ok(Atom::Text(List::from_slice(alloc, text.as_slice())?)),
        Atom::Number(number) => Ok(Atom::Number(*number)),
        Atom::Truth(truth) => Ok(Atom::Truth(*truth)),
    }
}

/// A copy of a value. Linear in it; fails only for want of memory.
pub fn copy_value(alloc: Global, value: &Value) -> Result<Value, Memory>
    ensures { IfOk result (λ copy. copy ≡ value.now) }
{
    match value {
        Value::Nodes(nodes) => Ok(Value::Nodes(List::from_slice(alloc, nodes.as_slice())?)),
        Value::Atom(atom) => Ok(Value::Atom(copy_atom(alloc, atom)?)),
        Value::Fragment(events) => Ok(Value::Fragment(copy_events(alloc, events)?)),
    }
}
