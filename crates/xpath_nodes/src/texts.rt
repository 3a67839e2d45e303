//! Strings and numbers of nodes and of values (XPath 1.0, sections 4.2 and 4.4).

ghost use Rattle.std.specs.Prelude.{◌≡◌, [], ◌∷◌};
ghost use Rattle.doc_model.specs.Answers.{Known};
ghost use Rattle.doc_model.specs.Lawful.{IsJoined};
ghost use Rattle.doc_model.specs.View.{Moves};
ghost use Rattle.key_sources.specs.Going.{SaysAlways, Gives};
ghost use Rattle.whole_num.specs.Text as numbers;
ghost use Rattle.xpath_meaning.specs.Conversions as conversions;
ghost use Rattle.xpath_meaning.specs.Functions as functions;
ghost use Rattle.xpath_meaning.specs.Outcome.{◌>>=◌ as ◌>>>◌, calculated, each_of};
ghost use Rattle.xpath_nodes.specs.Held.{AllJoined, IsJoinedIf, HasJoined};

use crate::stopping::{calculated, converted, made, stop_for};
use doc_model::NodeView;
use lists::List;
use std::alloc::Global;
use string_values::value_of;
use whole_num::{Num, parse};
use xpath_meaning::EvalStop;
use xpath_values::{Value, fragment_number, fragment_text, number_of, text_of};

/// The string-value of a node (XPath 1.0, section 5). Goes once through the rows of its subtree. `NotYet` names the node
/// itself.
pub fn node_text<V: NodeView>(alloc: Global, view: &mut V, n: u32) -> Result<List<u8>, EvalStop>
    requires { IsJoined (V.sees view.old).steps n }
    ensures moves { Moves (V.sees view.old) (V.sees view.new) }
    ensures answers { SaysAlways (λ R. R.value n) (V.sees view.old) (V.sees view.new) result }
{
    let mut bytes = Vec::new(alloc);
    match value_of(alloc, view, n, &mut bytes) {
        Ok(()) => Ok(List::from_vec(bytes)),
        Err(ask) => Err(stop_for(ask)),
    }
}

/// The number of a node, which is that of its string-value.
pub fn node_number<V: NodeView>(alloc: Global, view: &mut V, n: u32) -> Result<Num, EvalStop>
    requires { IsJoined (V.sees view.old).steps n }
    ensures moves { Moves (V.sees view.old) (V.sees view.new) }
    ensures answers { SaysAlways (λ R. R.value n >>> λ bytes. calculated (numbers.number_of bytes)) (V.sees view.old) (V.sees view.new) result }
{
    let text = node_text(alloc, view, n)?;
    calculated(parse(text.as_slice()))
}

/// The string of a node-set, by its first node in document order: the string-value of that node, or empty.
pub fn first_text<V: NodeView>(
    alloc: Global,
    view: &mut V,
    first: Option<u32>,
) -> Result<List<u8>, EvalStop>
    requires { IsJoinedIf (V.sees view.old).steps first }
    ensures moves { Moves (V.sees view.old) (V.sees view.new) }
    ensures answers { SaysAlways (λ R. conversions.text_of_first R first) (V.sees view.old) (V.sees view.new) result }
{
    match first {
        Some(n) => node_text(alloc, view, n),
        None => {
            view.told();
            Ok(List::new(alloc))
        }
    }
}

/// The number of a node-set, which is that of its string.
pub fn first_number<V: NodeView>(
    alloc: Global,
    view: &mut V,
    first: Option<u32>,
) -> Result<Num, EvalStop>
    requires { IsJoinedIf (V.sees view.old).steps first }
    ensures moves { Moves (V.sees view.old) (V.sees view.new) }
    ensures answers { SaysAlways (λ R. conversions.text_of_first R first >>> λ bytes. calculated (numbers.number_of bytes)) (V.sees view.old) (V.sees view.new) result }
{
    let text = first_text(alloc, view, first)?;
    calculated(parse(text.as_slice()))
}

pub(crate) fn first_of(nodes: &List<u32>) -> Option<u32>
    ensures { result ≡ conversions.first_of nodes.now }
{
    nodes.as_slice().first().copied()
}

/// The string of a value. Costs a copy of an atom, the subtree of the first node of a node-set, or the texts of a
/// fragment.
pub fn value_text<V: NodeView>(
    alloc: Global,
    view: &mut V,
    value: &Value,
) -> Result<List<u8>, EvalStop>
    requires { HasJoined (V.sees view.old).steps value.now }
    ensures moves { Moves (V.sees view.old) (V.sees view.new) }
    ensures answers { SaysAlways (λ R. conversions.text_of R value.now) (V.sees view.old) (V.sees view.new) result }
{
    match value {
        Value::Nodes(nodes) => first_text(alloc, view, first_of(nodes)),
        Value::Atom(atom) => {
            view.told();
            made(text_of(alloc, atom))
        }
        Value::Fragment(events) => {
            view.told();
            made(fragment_text(alloc, events))
        }
    }
}

/// The number of a value: of an atom its own, of any other value that of its string. Costs as `value_text` does, and
/// takes no memory for an atom.
pub fn value_number<V: NodeView>(
    alloc: Global,
    view: &mut V,
    value: &Value,
) -> Result<Num, EvalStop>
    requires { HasJoined (V.sees view.old).steps value.now }
    ensures moves { Moves (V.sees view.old) (V.sees view.new) }
    ensures answers { SaysAlways (λ R. conversions.number_of R value.now) (V.sees view.old) (V.sees view.new) result }
{
    match value {
        Value::Nodes(nodes) => first_number(alloc, view, first_of(nodes)),
        Value::Atom(atom) => {
            view.told();
            calculated(number_of(atom))
        }
        Value::Fragment(events) => {
            view.told();
            converted(fragment_number(alloc, events))
        }
    }
}

/// The strings that `id()` and `key()` look up (XPath 1.0, section 4.1): of a node-set the string-value of each node in
/// document order, else the one string. Goes once through the subtree of each node.
pub fn texts_of<V: NodeView>(
    alloc: Global,
    view: &mut V,
    value: &Value,
) -> Result<List<List<u8>>, EvalStop>
    requires { HasJoined (V.sees view.old).steps value.now }
    ensures moves { Moves (V.sees view.old) (V.sees view.new) }
    ensures answers { SaysAlways (λ R. functions.texts_of R value.now) (V.sees view.old) (V.sees view.new) result }
{
    match value {
        Value::Nodes(nodes) => node_texts(alloc, view, nodes.as_slice()),
        Value::Atom(_) => one_text(alloc, view, value),
        Value::Fragment(_) => one_text(alloc, view, value),
    }
}

// The string of a value, alone.
fn one_text<V: NodeView>(
    alloc: Global,
    view: &mut V,
    value: &Value,
) -> Result<List<List<u8>>, EvalStop>
    requires { HasJoined (V.sees view.old).steps value.now }
    ensures moves { Moves (V.sees view.old) (V.sees view.new) }
    ensures answers { SaysAlways (λ R. conversions.text_of R value.now >>> λ bytes. Known (bytes ∷ [])) (V.sees view.old) (V.sees view.new) result }
{
    let text = value_text(alloc, view, value)?;
    alone(alloc, text)
}

fn alone(alloc: Global, text: List<u8>) -> Result<List<List<u8>>, EvalStop>
    ensures { Gives (Known (text ∷ [])) result }
{
    let mut texts = List::new(alloc);
    texts.push(text)?;
    Ok(texts)
}

// The string-value of each node, in order.
fn node_texts<V: NodeView>(
    alloc: Global,
    view: &mut V,
    nodes: &[u32],
) -> Result<List<List<u8>>, EvalStop>
    requires { AllJoined (V.sees view.old).steps nodes.now }
    ensures moves { Moves (V.sees view.old) (V.sees view.new) }
    ensures answers { SaysAlways (λ R. each_of (λ n. R.value n) nodes.now) (V.sees view.old) (V.sees view.new) result }
{
    let mut texts = List::new(alloc);
    view.told();
    for node in nodes {
        let text = node_text(alloc, view, *node)?;
        texts.push(text)?;
    }
    Ok(texts)
}
