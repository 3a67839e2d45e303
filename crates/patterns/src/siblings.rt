//! The predicates of a step, at a node among those beside it.

ghost use Rattle.std.specs.Prelude.{◌≡◌, ◌<◌, ◌||◌, true, false, length, ◌∷◌, ◌++◌, [], if◌then◌else◌, map, reverse, IfOk, OnOk};
ghost use Rattle.doc_model.specs.View.{Moves};
ghost use Rattle.key_sources.specs.Going.{Says, SaysAlways, Stands, Went};
ghost use Rattle.xpath_laws.specs.Sound.{Each, IsThere};
ghost use Rattle.xpath_meaning.specs.Evaluation.{meant};
ghost use Rattle.xpath_meaning.specs.Match as meaning;
ghost use Rattle.xpath_meaning.specs.Outcome.{kept_from};

use crate::starting::contains;
use crate::testing::{is_attribute_axis, test_of};
use doc_model::{Axis, NodeView, Test};
use key_sources::KeySource;
use lists::List;
use std::alloc::{AllocError, Global};
use xpath_chains::mentions_last;
use xpath_core::holds;
use xpath_meaning::{Context, Env, EvalStop, Size};
use xpath_nodes::axis_nodes;
use xpath_syntax::{Expr, PatternStep};

// Whether node n, whose parent is `above`, passes the predicates of a step. Without predicates it asks nothing.
pub(crate) fn passes_all<V: NodeView, K: KeySource<V>>(
    alloc: Global,
    view: &mut V,
    keys: &mut K,
    step: &PatternStep,
    above: u32,
    n: u32,
) -> Result<bool, EvalStop>
    requires stands { Stands (V.sees view.old) (K.fits keys.old) }
    requires there { IsThere (V.sees view.old).rules (V.sees view.old).steps n }
    requires above { IsThere (V.sees view.old).rules (V.sees view.old).steps above }
    ensures went { Went (V.sees view.old) (V.sees view.new) (K.made keys.old) (K.made keys.new) (K.fits keys.new) }
    ensures answers { Says (K.made keys.old).lookups (λ R. meaning.passes_all R (meaning.match_step step.now) above n (meaning.match_step step.now).predicates)
        (V.sees view.old) (V.sees view.new) result }
{
    let predicates = step.part.predicates.as_slice();
    if !has_some(predicates) {
        return Ok(true);
    }
    let attribute = is_attribute_axis(step.part.axis);
    let whole = any_mentions_last(predicates);
    let known = are_all_seen(attribute, whole);
    let test = test_of(alloc, &step.part.test)?;
    let nodes = beside(alloc, view, attribute, whole, &test, above, n)?;
    passes(alloc, view, keys, known, n, predicates, nodes)
}

fn has_some(predicates: &[Expr]) -> bool
    ensures some { result ≡ true → 0 < length predicates.now }
    ensures none { result ≡ false → predicates.now ≡ [] }
{
    !predicates.is_empty()
}

// Whether the predicates see all the nodes among which a node has its position.
fn are_all_seen(attribute: bool, whole: bool) -> bool
    ensures { result ≡ (attribute || whole) }
{
    attribute || whole
}

fn any_mentions_last(predicates: &[Expr]) -> bool
    ensures { result ≡ meaning.mentions_last predicates.now }
{
    for predicate in predicates {
        if mentions_last(predicate) {
            return true;
        }
    }
    false
}

// The nodes beside node n that the predicates see, in document order.
fn beside<V: NodeView>(
    alloc: Global,
    view: &mut V,
    attribute: bool,
    whole: bool,
    test: &Test,
    above: u32,
    n: u32,
) -> Result<List<u32>, EvalStop>
    requires there { IsThere (V.sees view.old).rules (V.sees view.old).steps n }
    requires above { IsThere (V.sees view.old).rules (V.sees view.old).steps above }
    ensures moves { Moves (V.sees view.old) (V.sees view.new) }
    ensures answers { SaysAlways (λ R. meaning.beside attribute whole test.now R above n) (V.sees view.old) (V.sees view.new) result }
    ensures nodes { IfOk result (λ nodes. Each (IsThere (V.sees view.new).rules (V.sees view.new).steps) nodes) }
{
    if attribute {
        return nodes_on(alloc, view, above, Axis::Attribute, test);
    }
    children_beside(alloc, view, whole, test, above, n)
}

fn children_beside<V: NodeView>(
    alloc: Global,
    view: &mut V,
    whole: bool,
    test: &Test,
    above: u32,
    n: u32,
) -> Result<List<u32>, EvalStop>
    requires there { IsThere (V.sees view.old).rules (V.sees view.old).steps n }
    requires above { IsThere (V.sees view.old).rules (V.sees view.old).steps above }
    ensures moves { Moves (V.sees view.old) (V.sees view.new) }
    ensures answers { SaysAlways (λ R. meaning.beside false whole test.now R above n) (V.sees view.old) (V.sees view.new) result }
    ensures nodes { IfOk result (λ nodes. Each (IsThere (V.sees view.new).rules (V.sees view.new).steps) nodes) }
{
    if whole {
        return nodes_on(alloc, view, above, Axis::Child, test);
    }
    children_up_to(alloc, view, test, n)
}

// The children up to node n, which a walk back from it finds.
fn children_up_to<V: NodeView>(
    alloc: Global,
    view: &mut V,
    test: &Test,
    n: u32,
) -> Result<List<u32>, EvalStop>
    requires { IsThere (V.sees view.old).rules (V.sees view.old).steps n }
    ensures moves { Moves (V.sees view.old) (V.sees view.new) }
    ensures answers { SaysAlways (λ R. meaning.beside false false test.now R n n) (V.sees view.old) (V.sees view.new) result }
    ensures nodes { IfOk result (λ nodes. Each (IsThere (V.sees view.new).rules (V.sees view.new).steps) nodes) }
{
    let before = nodes_on(alloc, view, n, Axis::PrecedingSibling, test)?;
    let nodes = up_to(before, n)?;
    Ok(nodes)
}

// The nodes of an axis, all of which are there and visible.
fn nodes_on<V: NodeView>(
    alloc: Global,
    view: &mut V,
    n: u32,
    axis: Axis,
    test: &Test,
) -> Result<List<u32>, EvalStop>
    requires { IsThere (V.sees view.old).rules (V.sees view.old).steps n }
    ensures moves { Moves (V.sees view.old) (V.sees view.new) }
    ensures answers { SaysAlways (λ R. R.axis axis test.now n) (V.sees view.old) (V.sees view.new) result }
    ensures nodes { IfOk result (λ nodes. Each (IsThere (V.sees view.new).rules (V.sees view.new).steps) nodes) }
{
    axis_nodes(alloc, view, n, axis, test)
}

// Nodes before node n, the last of them first, as a list that ends with n.
fn up_to(before: List<u32>, n: u32) -> Result<List<u32>, AllocError>
    ensures { IfOk result (λ nodes. nodes ≡ reverse before ++ n ∷ []) }
{
    let mut nodes = before.into_vec();
    nodes.reverse();
    nodes.push(n)?;
    Ok(List::from_vec(nodes))
}

// Whether node n passes the predicates: each but the last filters the nodes, and the last is asked at the node alone.
fn passes<V: NodeView, K: KeySource<V>>(
    alloc: Global,
    view: &mut V,
    keys: &mut K,
    known: bool,
    n: u32,
    predicates: &[Expr],
    nodes: List<u32>,
) -> Result<bool, EvalStop>
    requires stands { Stands (V.sees view.old) (K.fits keys.old) }
    requires there { IsThere (V.sees view.old).rules (V.sees view.old).steps n }
    requires nodes { Each (IsThere (V.sees view.old).rules (V.sees view.old).steps) nodes }
    ensures went { Went (V.sees view.old) (V.sees view.new) (K.made keys.old) (K.made keys.new) (K.fits keys.new) }
    ensures answers { Says (K.made keys.old).lookups (λ R. meaning.passes R known n (map meant predicates.now) nodes) (V.sees view.old) (V.sees view.new) result }
{
    view.told();
    let mut left = nodes;
    for (i, predicate) in predicates.iter().enumerate() {
        let among = left.as_slice();
        let size = size_of(known, among);
        let last = i + 1 == predicates.len();
        if last {
            let position = position_of(n, among);
            return says(alloc, view, keys, size, predicate, position, n);
        }
        let kept = kept_by(alloc, view, keys, size, predicate, among)?;
        if !contains(kept.as_slice(), n) {
            return Ok(false);
        }
        left = kept;
    }
    Ok(true)
}

// The nodes at which a predicate holds, by their positions.
fn kept_by<V: NodeView, K: KeySource<V>>(
    alloc: Global,
    view: &mut V,
    keys: &mut K,
    size: Size,
    predicate: &Expr,
    nodes: &[u32],
) -> Result<List<u32>, EvalStop>
    requires stands { Stands (V.sees view.old) (K.fits keys.old) }
    requires nodes { Each (IsThere (V.sees view.old).rules (V.sees view.old).steps) nodes.now }
    ensures went { Went (V.sees view.old) (V.sees view.new) (K.made keys.old) (K.made keys.new) (K.fits keys.new) }
    ensures answers { Says (K.made keys.old).lookups (λ R. kept_from 1 (meaning.says R size (meant predicate.now)) nodes.now) (V.sees view.old) (V.sees view.new) result }
    ensures kept { IfOk result (λ kept. Each (IsThere (V.sees view.new).rules (V.sees view.new).steps) kept) }
{
    view.told();
    let mut kept = List::new(alloc);
    for (i, node) in nodes.iter().enumerate() {
        let position = i as u64 + 1;
        let here = says(alloc, view, keys, size, predicate, position, *node)?;
        keep_if(&mut kept, here, *node)?;
    }
    Ok(kept)
}

fn keep_if(kept: &mut List<u32>, here: bool, node: u32) -> Result<(), AllocError>
    ensures { OnOk result (kept.new ≡ if here then kept.old ++ node ∷ [] else kept.old) }
{
    if here {
        kept.push(node)?;
    }
    Ok(())
}

// Whether a predicate holds at a node, which is the current node too.
fn says<V: NodeView, K: KeySource<V>>(
    alloc: Global,
    view: &mut V,
    keys: &mut K,
    size: Size,
    predicate: &Expr,
    position: u64,
    n: u32,
) -> Result<bool, EvalStop>
    requires stands { Stands (V.sees view.old) (K.fits keys.old) }
    requires there { IsThere (V.sees view.old).rules (V.sees view.old).steps n }
    ensures went { Went (V.sees view.old) (V.sees view.new) (K.made keys.old) (K.made keys.new) (K.fits keys.new) }
    ensures answers { Says (K.made keys.old).lookups (λ R. meaning.says R size (meant predicate.now) position n) (V.sees view.old) (V.sees view.new) result }
{
    let none = List::new(alloc);
    let env = Env {
        globals: &none,
        locals: &none,
    };
    let context = Context {
        node: n,
        position,
        size,
        current: n,
    };
    holds(alloc, view, keys, predicate, &context, &env)
}

// How many nodes last() tells.
fn size_of(known: bool, nodes: &[u32]) -> Size
    ensures { result ≡ meaning.size_of known nodes.now }
{
    if known {
        Size::Known(nodes.len() as u64)
    } else {
        Size::Unasked
    }
}

// The position of node n among the nodes, counted from 1.
fn position_of(n: u32, nodes: &[u32]) -> u64
    ensures { result ≡ meaning.position_in 1 n nodes.now }
{
    for (i, node) in nodes.iter().enumerate() {
        if n == *node {
            return i as u64 + 1;
        }
    }
    nodes.len() as u64 + 1
}
