//! Comparisons of values that may be node-sets (XPath 1.0, section 3.4).

ghost use Rattle.std.specs.Prelude.{◌≡◌, ◌∷◌, ◌++◌, ◌<◌, length, option_map};
ghost use Rattle.doc_model.specs.Lawful.{IsJoined};
ghost use Rattle.doc_model.specs.View.{Moves};
ghost use Rattle.key_sources.specs.Going.{SaysAlways, Gives};
ghost use Rattle.xpath_meaning.specs.Comparisons as comparisons;
ghost use Rattle.xpath_meaning.specs.Outcome.{◌>>=◌ as ◌>>>◌, some_holds};
ghost use Rattle.xpath_nodes.specs.Held.{AllJoined, HasJoined};
ghost use Rattle.xpath_nodes.specs.Pairs as pairs;
ghost use Rattle.xpath_values.specs.declared.value.Value.TheVariants as value;

use crate::stopping::{calculated, made};
use crate::texts::node_text;
use doc_model::NodeView;
use lists::List;
use result_events::Events;
use std::alloc::Global;
use xpath_meaning::EvalStop;
use xpath_syntax::Op;
use xpath_values::{Atom, Value, compare, fragment_beside, fragment_text};

/// Whether a comparison holds of two values. A node-set beside a boolean is a boolean as a whole. Else its nodes are
/// compared: the left ones in document order, and for each the right ones, up to the first pair that holds; so the first
/// fault, and the first row that must be shut first, are those of the first pair at which there is one. Each
/// string-value is taken once.
pub fn compare_values<V: NodeView>(
    alloc: Global,
    view: &mut V,
    op: Op,
    a: &Value,
    b: &Value,
) -> Result<bool, EvalStop>
    requires left { HasJoined (V.sees view.old).steps a.now }
    requires right { HasJoined (V.sees view.old).steps b.now }
    ensures moves { Moves (V.sees view.old) (V.sees view.new) }
    ensures answers { SaysAlways (λ R. comparisons.comparison op R a.now b.now) (V.sees view.old) (V.sees view.new) result }
{
    match a {
        Value::Nodes(nodes) => compare_nodes(alloc, view, op, nodes.as_slice(), b),
        Value::Atom(atom) => compare_atom(alloc, view, op, atom, b),
        Value::Fragment(events) => compare_fragment(alloc, view, op, events, b),
    }
}

fn compare_nodes<V: NodeView>(
    alloc: Global,
    view: &mut V,
    op: Op,
    nodes: &[u32],
    b: &Value,
) -> Result<bool, EvalStop>
    requires left { AllJoined (V.sees view.old).steps nodes.now }
    requires right { HasJoined (V.sees view.old).steps b.now }
    ensures moves { Moves (V.sees view.old) (V.sees view.new) }
    ensures answers { SaysAlways (λ R. comparisons.comparison op R (value.Nodes nodes.now) b.now) (V.sees view.old) (V.sees view.new) result }
{
    match b {
        Value::Nodes(right) => some_pair(alloc, view, op, nodes, right.as_slice()),
        Value::Atom(atom) => nodes_with_atom(alloc, view, op, nodes, atom),
        Value::Fragment(events) => {
            view.told();
            let text = made(fragment_text(alloc, events))?;
            some_left(alloc, view, op, nodes, &Atom::Text(text))
        }
    }
}

fn compare_atom<V: NodeView>(
    alloc: Global,
    view: &mut V,
    op: Op,
    a: &Atom,
    b: &Value,
) -> Result<bool, EvalStop>
    requires { HasJoined (V.sees view.old).steps b.now }
    ensures moves { Moves (V.sees view.old) (V.sees view.new) }
    ensures answers { SaysAlways (λ R. comparisons.comparison op R (value.Atom a.now) b.now) (V.sees view.old) (V.sees view.new) result }
{
    match b {
        Value::Nodes(nodes) => atom_with_nodes(alloc, view, op, a, nodes.as_slice()),
        Value::Atom(atom) => {
            view.told();
            compare_atoms(op, a, atom)
        }
        Value::Fragment(events) => {
            view.told();
            let beside = made(fragment_beside(alloc, events, a))?;
            compare_atoms(op, a, &beside)
        }
    }
}

fn compare_fragment<V: NodeView>(
    alloc: Global,
    view: &mut V,
    op: Op,
    events: &Events,
    b: &Value,
) -> Result<bool, EvalStop>
    requires { HasJoined (V.sees view.old).steps b.now }
    ensures moves { Moves (V.sees view.old) (V.sees view.new) }
    ensures answers { SaysAlways (λ R. comparisons.comparison op R (value.Fragment events.now) b.now) (V.sees view.old) (V.sees view.new) result }
{
    view.told();
    match b {
        Value::Nodes(nodes) => {
            let text = made(fragment_text(alloc, events))?;
            some_right(alloc, view, op, &Atom::Text(text), nodes.as_slice())
        }
        Value::Atom(atom) => {
            let beside = made(fragment_beside(alloc, events, atom))?;
            compare_atoms(op, &beside, atom)
        }
        Value::Fragment(right) => {
            let text = made(fragment_text(alloc, events))?;
            let other = made(fragment_text(alloc, right))?;
            compare_atoms(op, &Atom::Text(text), &Atom::Text(other))
        }
    }
}

fn compare_atoms(op: Op, a: &Atom, b: &Atom) -> Result<bool, EvalStop>
    ensures { Gives (comparisons.compare_atoms op a.now b.now) result }
{
    calculated(compare(op, a, b))
}

fn nodes_with_atom<V: NodeView>(
    alloc: Global,
    view: &mut V,
    op: Op,
    nodes: &[u32],
    atom: &Atom,
) -> Result<bool, EvalStop>
    requires { AllJoined (V.sees view.old).steps nodes.now }
    ensures moves { Moves (V.sees view.old) (V.sees view.new) }
    ensures answers { SaysAlways (λ R. comparisons.nodes_with_atom op R nodes.now atom.now) (V.sees view.old) (V.sees view.new) result }
{
    match atom {
        Atom::Truth(_) => {
            view.told();
            compare_atoms(op, &Atom::Truth(!nodes.is_empty()), atom)
        }
        Atom::Number(_) => some_left(alloc, view, op, nodes, atom),
        Atom::Text(_) => some_left(alloc, view, op, nodes, atom),
    }
}

fn atom_with_nodes<V: NodeView>(
    alloc: Global,
    view: &mut V,
    op: Op,
    atom: &Atom,
    nodes: &[u32],
) -> Result<bool, EvalStop>
    requires { AllJoined (V.sees view.old).steps nodes.now }
    ensures moves { Moves (V.sees view.old) (V.sees view.new) }
    ensures answers { SaysAlways (λ R. comparisons.atom_with_nodes op R atom.now nodes.now) (V.sees view.old) (V.sees view.new) result }
{
    match atom {
        Atom::Truth(_) => {
            view.told();
            compare_atoms(op, atom, &Atom::Truth(!nodes.is_empty()))
        }
        Atom::Number(_) => some_right(alloc, view, op, atom, nodes),
        Atom::Text(_) => some_right(alloc, view, op, atom, nodes),
    }
}

// The string-value of a node as an atom.
fn node_atom<V: NodeView>(alloc: Global, view: &mut V, n: u32) -> Result<Atom, EvalStop>
    requires { IsJoined (V.sees view.old).steps n }
    ensures moves { Moves (V.sees view.old) (V.sees view.new) }
    ensures answers { SaysAlways (λ R. pairs.atom_of R n) (V.sees view.old) (V.sees view.new) result }
{
    let text = node_text(alloc, view, n)?;
    Ok(Atom::Text(text))
}

// The nodes are on the left, up to the first that holds.
fn some_left<V: NodeView>(
    alloc: Global,
    view: &mut V,
    op: Op,
    nodes: &[u32],
    b: &Atom,
) -> Result<bool, EvalStop>
    requires { AllJoined (V.sees view.old).steps nodes.now }
    ensures moves { Moves (V.sees view.old) (V.sees view.new) }
    ensures answers { SaysAlways (λ R. comparisons.some_left op R nodes.now b.now) (V.sees view.old) (V.sees view.new) result }
{
    view.told();
    for node in nodes {
        let a = node_atom(alloc, view, *node)?;
        let here = compare_atoms(op, &a, b)?;
        if here {
            return Ok(true);
        }
    }
    Ok(false)
}

// The nodes are on the right, up to the first that holds.
fn some_right<V: NodeView>(
    alloc: Global,
    view: &mut V,
    op: Op,
    a: &Atom,
    nodes: &[u32],
) -> Result<bool, EvalStop>
    requires { AllJoined (V.sees view.old).steps nodes.now }
    ensures moves { Moves (V.sees view.old) (V.sees view.new) }
    ensures answers { SaysAlways (λ R. comparisons.some_right op R a.now nodes.now) (V.sees view.old) (V.sees view.new) result }
{
    view.told();
    for node in nodes {
        let b = node_atom(alloc, view, *node)?;
        let here = compare_atoms(op, a, &b)?;
        if here {
            return Ok(true);
        }
    }
    Ok(false)
}

// For each of the left nodes the right ones, up to the first pair that holds.
fn some_pair<V: NodeView>(
    alloc: Global,
    view: &mut V,
    op: Op,
    left: &[u32],
    right: &[u32],
) -> Result<bool, EvalStop>
    requires left { AllJoined (V.sees view.old).steps left.now }
    requires right { AllJoined (V.sees view.old).steps right.now }
    ensures moves { Moves (V.sees view.old) (V.sees view.new) }
    ensures answers { SaysAlways (λ R. some_holds (comparisons.compare_pair op R) (comparisons.pairs left.now right.now)) (V.sees view.old) (V.sees view.new) result }
{
    view.told();
    if right.is_empty() {
        return Ok(false);
    }
    match left {
        [] => Ok(false),
        [first, others @ ..] => some_pair_from(alloc, view, op, *first, others, right),
    }
}

// The string-values of the right nodes are taken beside the first left one, and kept for the others.
fn some_pair_from<V: NodeView>(
    alloc: Global,
    view: &mut V,
    op: Op,
    first: u32,
    others: &[u32],
    right: &[u32],
) -> Result<bool, EvalStop>
    requires some { 0 < length right.now }
    requires first { IsJoined (V.sees view.old).steps first }
    requires others { AllJoined (V.sees view.old).steps others.now }
    requires right { AllJoined (V.sees view.old).steps right.now }
    ensures moves { Moves (V.sees view.old) (V.sees view.new) }
    ensures answers { SaysAlways (λ R. some_holds (comparisons.compare_pair op R) (comparisons.pairs (first ∷ others.now) right.now)) (V.sees view.old) (V.sees view.new) result }
{
    let a = node_atom(alloc, view, first)?;
    let kept = none_met(alloc, view, op, &a, right)?;
    match kept {
        Some(atoms) => some_meets(alloc, view, op, atoms.as_slice(), others),
        None => Ok(true),
    }
}

// The string-values of the nodes, if the atom meets none of them.
fn none_met<V: NodeView>(
    alloc: Global,
    view: &mut V,
    op: Op,
    a: &Atom,
    nodes: &[u32],
) -> Result<Option<List<Atom>>, EvalStop>
    requires { AllJoined (V.sees view.old).steps nodes.now }
    ensures moves { Moves (V.sees view.old) (V.sees view.new) }
    ensures answers { SaysAlways (λ R. pairs.none_met op R a.now nodes.now) (V.sees view.old) (V.sees view.new) result }
{
    view.told();
    let mut atoms = List::new(alloc);
    for node in nodes {
        let b = node_atom(alloc, view, *node)?;
        let here = compare_atoms(op, a, &b)?;
        if here {
            return Ok(None);
        }
        atoms.push(b)?;
    }
    Ok(Some(atoms))
}

// Whether the string-value of some node meets some of the atoms.
fn some_meets<V: NodeView>(
    alloc: Global,
    view: &mut V,
    op: Op,
    atoms: &[Atom],
    nodes: &[u32],
) -> Result<bool, EvalStop>
    requires { AllJoined (V.sees view.old).steps nodes.now }
    ensures moves { Moves (V.sees view.old) (V.sees view.new) }
    ensures answers { SaysAlways (λ R. pairs.some_meets op R atoms.now nodes.now) (V.sees view.old) (V.sees view.new) result }
{
    view.told();
    for node in nodes {
        let a = node_atom(alloc, view, *node)?;
        let here = meets_some(op, &a, atoms)?;
        if here {
            return Ok(true);
        }
    }
    Ok(false)
}

fn meets_some(op: Op, a: &Atom, atoms: &[Atom]) -> Result<bool, EvalStop>
    ensures { Gives (pairs.meets_some op a.now atoms.now) result }
{
    for b in atoms {
        let here = compare_atoms(op, a, b)?;
        if here {
            return Ok(true);
        }
    }
    Ok(false)
}
