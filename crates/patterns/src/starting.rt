//! Where a pattern may start.

ghost use Rattle.std.specs.Prelude.{◌≡◌, Some, IfOk};
ghost use Rattle.doc_model.specs.Document.{is_member};
ghost use Rattle.key_sources.specs.Going.{Says, Stands, Went};
ghost use Rattle.patterns.specs.Found.{has_node};
ghost use Rattle.xpath_laws.specs.Sound.{IsThere};
ghost use Rattle.xpath_meaning.specs.Match as meaning;

use doc_model::NodeView;
use key_sources::KeySource;
use lists::List;
use std::alloc::{AllocError, Global};
use xpath_meaning::EvalStop;
use xpath_nodes::named_by_ids;
use xpath_syntax::PatternStart;
use xpath_values::{Atom, Value};

// Whether a pattern may start at node n. By an ID or a key it is known once the root is shut.
pub(crate) fn starts<V: NodeView, K: KeySource<V>>(
    alloc: Global,
    view: &mut V,
    keys: &mut K,
    start: &PatternStart,
    n: u32,
) -> Result<bool, EvalStop>
    requires { Stands (V.sees view.old) (K.fits keys.old) }
    ensures went { Went (V.sees view.old) (V.sees view.new) (K.made keys.old) (K.made keys.new) (K.fits keys.new) }
    ensures answers { Says (K.made keys.old).lookups (λ R. meaning.starts R start.now n) (V.sees view.old) (V.sees view.new) result }
{
    match start {
        PatternStart::Relative => Ok(true),
        PatternStart::Root => Ok(n == 0),
        PatternStart::Deep => Ok(true),
        PatternStart::Id(ids) => is_found_by_ids(alloc, view, keys, ids, n),
        PatternStart::Key { name, value } => {
            is_found_by_key(alloc, view, keys, name.slot, value, n)
        }
    }
}

fn is_found_by_ids<V: NodeView, K: KeySource<V>>(
    alloc: Global,
    view: &mut V,
    keys: &mut K,
    ids: &List<u8>,
    n: u32,
) -> Result<bool, EvalStop>
    requires { Stands (V.sees view.old) (K.fits keys.old) }
    ensures went { Went (V.sees view.old) (V.sees view.new) (K.made keys.old) (K.made keys.new) (K.fits keys.new) }
    ensures answers { Says (K.made keys.old).lookups (λ R. meaning.is_found_by_ids R ids.now n) (V.sees view.old) (V.sees view.new) result }
{
    let text = copy_of(ids)?;
    let value = Value::Atom(Atom::Text(text));
    let named = named_by_ids(alloc, view, keys, &value)?;
    Ok(has_node(&named, n))
}

fn copy_of(text: &List<u8>) -> Result<List<u8>, AllocError>
    ensures { IfOk result (λ copy. copy ≡ text.now) }
{
    text.clone()
}

fn is_found_by_key<V: NodeView, K: KeySource<V>>(
    alloc: Global,
    view: &mut V,
    keys: &mut K,
    key: Option<u32>,
    value: &List<u8>,
    n: u32,
) -> Result<bool, EvalStop>
    requires { Stands (V.sees view.old) (K.fits keys.old) }
    ensures went { Went (V.sees view.old) (V.sees view.new) (K.made keys.old) (K.made keys.new) (K.fits keys.new) }
    ensures answers { Says (K.made keys.old).lookups (λ R. meaning.is_found_by_key R key value.now n) (V.sees view.old) (V.sees view.new) result }
{
    match key {
        Some(key) => has_by_key(alloc, view, keys, key, value, n),
        None => Ok(false),
    }
}

fn has_by_key<V: NodeView, K: KeySource<V>>(
    alloc: Global,
    view: &mut V,
    keys: &mut K,
    key: u32,
    value: &List<u8>,
    n: u32,
) -> Result<bool, EvalStop>
    requires { Stands (V.sees view.old) (K.fits keys.old) }
    ensures went { Went (V.sees view.old) (V.sees view.new) (K.made keys.old) (K.made keys.new) (K.fits keys.new) }
    ensures answers { Says (K.made keys.old).lookups (λ R. meaning.is_found_by_key R (Some key) value.now n) (V.sees view.old) (V.sees view.new) result }
{
    let nodes = keys.by_key(alloc, view, key, value.as_slice())?;
    Ok(contains(nodes.as_slice(), n))
}

fn has_node(value: &Value, n: u32) -> bool
    ensures { result ≡ has_node n value.now }
{
    match value {
        Value::Nodes(nodes) => contains(nodes.as_slice(), n),
        _ => false,
    }
}

pub(crate) fn contains(nodes: &[u32], n: u32) -> bool
    ensures { result ≡ is_member n nodes.now }
{
    for node in nodes {
        if n == *node {
            return true;
        }
    }
    false
}
