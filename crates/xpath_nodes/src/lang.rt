//! The language that holds at a node (XPath 1.0, section 4.3).

ghost use Rattle.std.specs.Prelude.{◌≡◌, IfOk};
ghost use Rattle.doc_model.specs.Answers.{Known};
ghost use Rattle.doc_model.specs.View.{Moves};
ghost use Rattle.key_sources.specs.Going.{SaysAlways};
ghost use Rattle.xpath_laws.specs.Sound.{Each, IsThere};
ghost use Rattle.xpath_meaning.specs.Functions as functions;
ghost use Rattle.xpath_meaning.specs.Outcome.{◌>>=◌ as ◌>>>◌};

use crate::asking::axis_nodes;
use crate::texts::{first_of, node_text};
use doc_model::{Axis, NodeView, Test};
use lists::List;
use std::alloc::{AllocError, Global};
use xpath_funcs::lang_matches;
use xpath_meaning::EvalStop;

/// Whether the language that holds at a node, which the nearest `xml:lang` gives, is the one that is asked for or one of
/// its kinds. Goes through the node's ancestors and their attributes up to the first `xml:lang`.
pub fn speaks<V: NodeView>(
    alloc: Global,
    view: &mut V,
    n: u32,
    asked: &[u8],
) -> Result<bool, EvalStop>
    requires { IsThere (V.sees view.old).rules (V.sees view.old).steps n }
    ensures moves { Moves (V.sees view.old) (V.sees view.new) }
    ensures answers { SaysAlways (λ R. functions.language_of R n >>> λ language. Known (functions.speaks language asked.now)) (V.sees view.old) (V.sees view.new) result }
{
    let language = language_of(alloc, view, n)?;
    match language {
        Some(language) => Ok(lang_matches(language.as_slice(), asked)),
        None => Ok(false),
    }
}

fn language_of<V: NodeView>(
    alloc: Global,
    view: &mut V,
    n: u32,
) -> Result<Option<List<u8>>, EvalStop>
    requires { IsThere (V.sees view.old).rules (V.sees view.old).steps n }
    ensures moves { Moves (V.sees view.old) (V.sees view.new) }
    ensures answers { SaysAlways (λ R. functions.language_of R n) (V.sees view.old) (V.sees view.new) result }
{
    let nodes = axis_nodes(alloc, view, n, Axis::AncestorOrSelf, &Test::Any)?;
    let test = lang_test(alloc)?;
    nearest_lang(alloc, view, nodes.as_slice(), &test)
}

// The first xml:lang of nodes that are given from the inside out.
fn nearest_lang<V: NodeView>(
    alloc: Global,
    view: &mut V,
    nodes: &[u32],
    test: &Test,
) -> Result<Option<List<u8>>, EvalStop>
    requires there { Each (IsThere (V.sees view.old).rules (V.sees view.old).steps) nodes.now }
    requires test { test.now ≡ functions.lang_test }
    ensures moves { Moves (V.sees view.old) (V.sees view.new) }
    ensures answers { SaysAlways (λ R. functions.nearest_lang R nodes.now) (V.sees view.old) (V.sees view.new) result }
{
    view.told();
    for node in nodes {
        let found = axis_nodes(alloc, view, *node, Axis::Attribute, test)?;
        if let Some(attribute) = first_of(&found) {
            let text = node_text(alloc, view, attribute)?;
            return Ok(Some(text));
        }
    }
    Ok(None)
}

fn lang_test(alloc: Global) -> Result<Test, AllocError>
    ensures { IfOk result (λ test. test ≡ functions.lang_test) }
{
    Ok(Test::Name {
        uri: List::from_slice(alloc, b"http://www.w3.org/XML/1998/namespace")?,
        local: List::from_slice(alloc, b"lang")?,
    })
}
