//! Nodes found by IDs (XPath 1.0, section 4.1) and by keys (XSLT 1.0, section 12.2).

ghost use Rattle.std.specs.Prelude.{◌≡◌, ◌++◌, [], ◌∷◌, Some, IfOk, OnOk, filter, flat_map};
ghost use Rattle.doc_model.specs.View.{Moves};
ghost use Rattle.key_sources.specs.Going.{Says, SaysAlways, Stands, Went};
ghost use Rattle.whole_num.specs.Text.{is_space};
ghost use Rattle.xpath_funcs.specs.Spaces.{is_word, words};
ghost use Rattle.xpath_meaning.specs.Functions as functions;
ghost use Rattle.xpath_nodes.specs.Held.{HasJoined};
ghost use Rattle.xpath_nodes.specs.Found.{found};
ghost use Rattle.xpath_nodes.specs.Words.{words_ended, word_after};

use crate::texts::texts_of;
use doc_model::NodeView;
use key_sources::KeySource;
use lists::List;
use node_lists::in_order;
use std::alloc::{AllocError, Global};
use xpath_meaning::EvalStop;
use xpath_values::{Atom, Value};

/// The elements whose IDs stand in the strings of a value, each of which is split at whitespace. `NotYet` names the
/// root, once the strings are known. Costs one look-up an ID, and puts the nodes in order.
pub fn named_by_ids<V: NodeView, K: KeySource<V>>(
    alloc: Global,
    view: &mut V,
    keys: &mut K,
    value: &Value,
) -> Result<Value, EvalStop>
    requires stands { Stands (V.sees view.old) (K.fits keys.old) }
    requires joined { HasJoined (V.sees view.old).steps value.now }
    ensures went { Went (V.sees view.old) (V.sees view.new) (K.made keys.old) (K.made keys.new) (K.fits keys.new) }
    ensures answers { Says (K.made keys.old).lookups (λ R. functions.named_by_ids R value.now) (V.sees view.old) (V.sees view.new) result }
{
    let texts = texts_of(alloc, view, value)?;
    let ids = words_of(alloc, texts.as_slice())?;
    let nodes = found_by_ids(alloc, view, keys, ids.as_slice())?;
    Ok(Value::Nodes(nodes))
}

/// The nodes that a key has for the strings of a value, where the key is given by the place of the first declaration of
/// its name; a key that is not bound gives the empty text. `NotYet` names the root, once the strings are known; a fault
/// is the first one of the key's declarations. Costs one look-up a string, and puts the nodes in order.
pub fn found_by_key<V: NodeView, K: KeySource<V>>(
    alloc: Global,
    view: &mut V,
    keys: &mut K,
    key: Option<u32>,
    value: &Value,
) -> Result<Value, EvalStop>
    requires stands { Stands (V.sees view.old) (K.fits keys.old) }
    requires joined { HasJoined (V.sees view.old).steps value.now }
    ensures went { Went (V.sees view.old) (V.sees view.new) (K.made keys.old) (K.made keys.new) (K.fits keys.new) }
    ensures answers { Says (K.made keys.old).lookups (λ R. functions.found_by_key R key value.now) (V.sees view.old) (V.sees view.new) result }
{
    match key {
        Some(key) => bound_key_nodes(alloc, view, keys, key, value),
        None => Ok(Value::Atom(Atom::Text(List::new(alloc)))),
    }
}

fn bound_key_nodes<V: NodeView, K: KeySource<V>>(
    alloc: Global,
    view: &mut V,
    keys: &mut K,
    key: u32,
    value: &Value,
) -> Result<Value, EvalStop>
    requires stands { Stands (V.sees view.old) (K.fits keys.old) }
    requires joined { HasJoined (V.sees view.old).steps value.now }
    ensures went { Went (V.sees view.old) (V.sees view.new) (K.made keys.old) (K.made keys.new) (K.fits keys.new) }
    ensures answers { Says (K.made keys.old).lookups (λ R. functions.found_by_key R (Some key) value.now) (V.sees view.old) (V.sees view.new) result }
{
    let texts = texts_of(alloc, view, value)?;
    let nodes = found_by_values(alloc, view, keys, key, texts.as_slice())?;
    Ok(Value::Nodes(nodes))
}

// What the IDs name, in document order, once the root is shut.
fn found_by_ids<V: NodeView, K: KeySource<V>>(
    alloc: Global,
    view: &mut V,
    keys: &mut K,
    ids: &[List<u8>],
) -> Result<List<u32>, EvalStop>
    requires { Stands (V.sees view.old) (K.fits keys.old) }
    ensures went { Went (V.sees view.old) (V.sees view.new) (K.made keys.old) (K.made keys.new) (K.fits keys.new) }
    ensures answers { Says (K.made keys.old).lookups (λ R. found R (λ id. R.by_id id) ids.now) (V.sees view.old) (V.sees view.new) result }
{
    whole(view)?;
    let mut nodes = List::new(alloc);
    for id in ids {
        let named = keys.by_id(alloc, view, id.as_slice())?;
        nodes.append(named)?;
    }
    let nodes = in_order(alloc, nodes)?;
    Ok(nodes)
}

// What a key has for the values, in document order, once the root is shut.
fn found_by_values<V: NodeView, K: KeySource<V>>(
    alloc: Global,
    view: &mut V,
    keys: &mut K,
    key: u32,
    values: &[List<u8>],
) -> Result<List<u32>, EvalStop>
    requires { Stands (V.sees view.old) (K.fits keys.old) }
    ensures went { Went (V.sees view.old) (V.sees view.new) (K.made keys.old) (K.made keys.new) (K.fits keys.new) }
    ensures answers { Says (K.made keys.old).lookups (λ R. found R (λ value. R.by_key key value) values.now) (V.sees view.old) (V.sees view.new) result }
{
    whole(view)?;
    let mut nodes = List::new(alloc);
    for value in values {
        let had = keys.by_key(alloc, view, key, value.as_slice())?;
        nodes.append(had)?;
    }
    let nodes = in_order(alloc, nodes)?;
    Ok(nodes)
}

// Nothing, once the root is shut.
fn whole<V: NodeView>(view: &mut V) -> Result<(), EvalStop>
    ensures moves { Moves (V.sees view.old) (V.sees view.new) }
    ensures answers { SaysAlways (λ R. R.whole) (V.sees view.old) (V.sees view.new) result }
{
    match view.extent(0) {
        Some(_) => Ok(()),
        None => Err(EvalStop::NotYet(0)),
    }
}

// The words of each text, in order.
fn words_of(alloc: Global, texts: &[List<u8>]) -> Result<List<List<u8>>, AllocError>
    ensures { IfOk result (λ all. all ≡ flat_map words texts.now) }
{
    let mut all = List::new(alloc);
    for text in texts {
        add_words(alloc, &mut all, text.as_slice())?;
    }
    Ok(all)
}

fn add_words(alloc: Global, all: &mut List<List<u8>>, text: &[u8]) -> Result<(), AllocError>
    ensures { OnOk result (all.new ≡ all.old ++ words text.now) }
{
    let mut word = List::new(alloc);
    for byte in text {
        word = add_byte(alloc, all, word, *byte)?;
    }
    add_word(all, word)
}

// The word behind one more byte, where whitespace ends the word before it.
fn add_byte(
    alloc: Global,
    all: &mut List<List<u8>>,
    word: List<u8>,
    byte: u8,
) -> Result<List<u8>, AllocError>
    ensures all { OnOk result (all.new ≡ all.old ++ words_ended word byte) }
    ensures word { IfOk result (λ after. after ≡ word_after word byte) }
{
    if is_space(byte) {
        add_word(all, word)?;
        return Ok(List::new(alloc));
    }
    let mut after = word;
    after.push(byte)?;
    Ok(after)
}

// Adds a word, if there is one.
fn add_word(all: &mut List<List<u8>>, word: List<u8>) -> Result<(), AllocError>
    ensures { OnOk result (all.new ≡ all.old ++ filter is_word (word ∷ [])) }
{
    if !word.is_empty() {
        all.push(word)?;
    }
    Ok(())
}

fn is_space(byte: u8) -> bool
    ensures { result ≡ is_space byte }
{
    matches!(byte, b' ' | b'\t' | b'\r' | b'\n')
}
