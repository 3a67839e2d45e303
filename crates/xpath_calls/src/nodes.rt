//! Functions on nodes (XPath 1.0, sections 4.1, 4.3 and 4.4).

ghost use Rattle.doc_model.specs.Answers.{Known};
ghost use Rattle.doc_model.specs.View.{Moves};
ghost use Rattle.key_sources.specs.Going.{SaysAlways};
ghost use Rattle.std.specs.Prelude.{pos};
ghost use Rattle.whole_num.specs.declared.number.Num.TheVariants.{Whole};
ghost use Rattle.xpath_calls.specs.Given as given;
ghost use Rattle.xpath_laws.specs.Sound.{Each, IsThere};
ghost use Rattle.xpath_meaning.specs.Calls as calls;
ghost use Rattle.xpath_meaning.specs.Conversions as conversions;
ghost use Rattle.xpath_meaning.specs.Functions as functions;
ghost use Rattle.xpath_meaning.specs.Outcome.{◌>>=◌ as ◌>>>◌};
ghost use Rattle.xpath_nodes.specs.Held.{AllJoined, IsJoinedIf};
ghost use Rattle.xpath_operations.specs.Operands.{IsHeld};

use crate::plain::plainly;
use crate::taken::{first_at, nodes_at, text_at};
use crate::texts::{empty, truth_value};
use doc_model::NodeView;
use lists::List;
use std::alloc::Global;
use xpath_binding::Function;
use xpath_meaning::{Context, EvalStop};
use xpath_nodes::{full_name, local_name, namespace_uri, speaks, sum};
use xpath_operations::Operand;
use xpath_values::{Atom, Value};

// What a function gives that asks for no keys and IDs; one that does gives the empty text.
pub(crate) fn by_nodes<V: NodeView>(
    alloc: Global,
    view: &mut V,
    function: Function,
    arguments: &List<Operand>,
    ctx: &Context,
) -> Result<Value, EvalStop>
    requires held { Each (IsHeld (V.sees view.old).steps) arguments.now }
    requires context { IsThere (V.sees view.old).rules (V.sees view.old).steps ctx.now.node }
    ensures moves { Moves (V.sees view.old) (V.sees view.new) }
    ensures answers { SaysAlways (λ R. given.by_nodes function arguments.now R ctx.now) (V.sees view.old) (V.sees view.new) result }
{
    match function {
        Function::Sum => summed(alloc, view, nodes_at(arguments, 0)),
        Function::LocalName => local_name_of(alloc, view, first_at(arguments, 0)),
        Function::NamespaceUri => namespace_uri_of(alloc, view, first_at(arguments, 0)),
        Function::Name => full_name_of(alloc, view, first_at(arguments, 0)),
        Function::Lang => speaking(alloc, view, ctx.node, text_at(arguments, 0)),
        _ => {
            view.told();
            plainly(alloc, function, arguments, ctx)
        }
    }
}

fn summed<V: NodeView>(alloc: Global, view: &mut V, nodes: &[u32]) -> Result<Value, EvalStop>
    requires { AllJoined (V.sees view.old).steps nodes.now }
    ensures moves { Moves (V.sees view.old) (V.sees view.new) }
    ensures answers { SaysAlways (λ R. functions.sum_onto R (Whole (pos 0)) nodes.now >>> λ n. Known (conversions.number n)) (V.sees view.old) (V.sees view.new) result }
{
    let total = sum(alloc, view, nodes)?;
    Ok(Value::Atom(Atom::Number(total)))
}

fn local_name_of<V: NodeView>(
    alloc: Global,
    view: &mut V,
    first: Option<u32>,
) -> Result<Value, EvalStop>
    requires { IsJoinedIf (V.sees view.old).steps first }
    ensures moves { Moves (V.sees view.old) (V.sees view.new) }
    ensures answers { SaysAlways (λ R. calls.of_first (calls.part_of_name functions.local_name R) first) (V.sees view.old) (V.sees view.new) result }
{
    match first {
        Some(n) => local_name(alloc, view, n),
        None => {
            view.told();
            empty(alloc)
        }
    }
}

fn namespace_uri_of<V: NodeView>(
    alloc: Global,
    view: &mut V,
    first: Option<u32>,
) -> Result<Value, EvalStop>
    requires { IsJoinedIf (V.sees view.old).steps first }
    ensures moves { Moves (V.sees view.old) (V.sees view.new) }
    ensures answers { SaysAlways (λ R. calls.of_first (calls.part_of_name functions.namespace_uri R) first) (V.sees view.old) (V.sees view.new) result }
{
    match first {
        Some(n) => namespace_uri(alloc, view, n),
        None => {
            view.told();
            empty(alloc)
        }
    }
}

fn full_name_of<V: NodeView>(
    alloc: Global,
    view: &mut V,
    first: Option<u32>,
) -> Result<Value, EvalStop>
    requires { IsJoinedIf (V.sees view.old).steps first }
    ensures moves { Moves (V.sees view.old) (V.sees view.new) }
    ensures answers { SaysAlways (λ R. calls.of_first (calls.part_of_name functions.full_name R) first) (V.sees view.old) (V.sees view.new) result }
{
    match first {
        Some(n) => full_name(alloc, view, n),
        None => {
            view.told();
            empty(alloc)
        }
    }
}

fn speaking<V: NodeView>(
    alloc: Global,
    view: &mut V,
    n: u32,
    asked: &[u8],
) -> Result<Value, EvalStop>
    requires { IsThere (V.sees view.old).rules (V.sees view.old).steps n }
    ensures moves { Moves (V.sees view.old) (V.sees view.new) }
    ensures answers { SaysAlways (λ R. functions.language_of R n >>> λ language. Known (conversions.truth (functions.speaks language asked.now))) (V.sees view.old) (V.sees view.new) result }
{
    let speaks = speaks(alloc, view, n, asked)?;
    truth_value(speaks)
}
