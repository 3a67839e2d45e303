//! Names of nodes (XPath 1.0, section 4.1) and what tells them apart (XSLT 1.0, section 12.4).

ghost use Rattle.std.specs.Prelude.{◌≡◌, IfOk};
ghost use Rattle.doc_model.specs.Answers.{Known};
ghost use Rattle.doc_model.specs.Lawful.{IsJoined};
ghost use Rattle.doc_model.specs.View.{Moves, name_of};
ghost use Rattle.key_sources.specs.Going.{SaysAlways, Gives};
ghost use Rattle.xpath_meaning.specs.Calls.{part_of_name};
ghost use Rattle.xpath_meaning.specs.Conversions.{text};
ghost use Rattle.xpath_meaning.specs.Functions as functions;
ghost use Rattle.xpath_meaning.specs.Outcome.{◌>>=◌ as ◌>>>◌};

use doc_model::{NameText, NodeView};
use lists::List;
use std::alloc::{AllocError, Global};
use xpath_meaning::EvalStop;
use xpath_values::{Atom, Value};

fn text_value(bytes: List<u8>) -> Value
    ensures { result ≡ text bytes }
{
    Value::Atom(Atom::Text(bytes))
}

fn name_of<V: NodeView>(alloc: Global, view: &mut V, n: u32) -> Result<NameText, EvalStop>
    requires { IsJoined (V.sees view.old).steps n }
    ensures moves { Moves (V.sees view.old) (V.sees view.new) }
    ensures answers { SaysAlways (λ R. R.row n >>> λ row. Known (name_of row)) (V.sees view.old) (V.sees view.new) result }
{
    let mut name = NameText {
        prefix: List::new(alloc),
        uri: List::new(alloc),
        local: List::new(alloc),
    };
    view.name(alloc, n, &mut name)?;
    Ok(name)
}

/// The local part of a node's name; of an instruction its target. Costs a copy of the name.
pub fn local_name<V: NodeView>(alloc: Global, view: &mut V, n: u32) -> Result<Value, EvalStop>
    requires { IsJoined (V.sees view.old).steps n }
    ensures moves { Moves (V.sees view.old) (V.sees view.new) }
    ensures answers { SaysAlways (λ R. part_of_name functions.local_name R n) (V.sees view.old) (V.sees view.new) result }
{
    let name = name_of(alloc, view, n)?;
    let NameText {
        prefix: _,
        uri: _,
        local,
    } = name;
    Ok(text_value(local))
}

/// The namespace URI of a node's name, empty where it has none. Costs a copy of the name.
pub fn namespace_uri<V: NodeView>(alloc: Global, view: &mut V, n: u32) -> Result<Value, EvalStop>
    requires { IsJoined (V.sees view.old).steps n }
    ensures moves { Moves (V.sees view.old) (V.sees view.new) }
    ensures answers { SaysAlways (λ R. part_of_name functions.namespace_uri R n) (V.sees view.old) (V.sees view.new) result }
{
    let name = name_of(alloc, view, n)?;
    let NameText {
        prefix: _,
        uri,
        local: _,
    } = name;
    Ok(text_value(uri))
}

/// A node's name as it is written: prefix, colon and local part, or the local part alone. Costs a copy of it.
pub fn full_name<V: NodeView>(alloc: Global, view: &mut V, n: u32) -> Result<Value, EvalStop>
    requires { IsJoined (V.sees view.old).steps n }
    ensures moves { Moves (V.sees view.old) (V.sees view.new) }
    ensures answers { SaysAlways (λ R. part_of_name functions.full_name R n) (V.sees view.old) (V.sees view.new) result }
{
    let name = name_of(alloc, view, n)?;
    let NameText {
        prefix,
        uri: _,
        local,
    } = name;
    let written = qualified(prefix, local)?;
    Ok(text_value(written))
}

fn qualified(prefix: List<u8>, local: List<u8>) -> Result<List<u8>, AllocError>
    ensures { IfOk result (λ name. name ≡ functions.qualified prefix local) }
{
    if prefix.is_empty() {
        return Ok(local);
    }
    let mut name = prefix;
    name.push(b':')?;
    name.append(local)?;
    Ok(name)
}

/// `n` and the number of the node's row. Sees no document; fails only for want of memory.
pub fn generate_id(alloc: Global, n: u32) -> Result<Value, EvalStop>
    ensures { Gives (Known (text (functions.generated_id n))) result }
{
    let id = format!(in alloc; "n{n}")?;
    Ok(text_value(List::from_vec(id.into_bytes())))
}
