//! Calls of functions whose arguments were evaluated.

ghost use Rattle.doc_model.specs.View.{Moves};
ghost use Rattle.key_sources.specs.Going.{Says, SaysAlways, Stands, Went};
ghost use Rattle.xpath_calls.specs.Given as given;
ghost use Rattle.xpath_calls.specs.Holding.{HeldIf};
ghost use Rattle.xpath_calls.specs.Taking as taking;
ghost use Rattle.xpath_laws.specs.Sound.{Each, IsThere};
ghost use Rattle.xpath_meaning.specs.Outcome.{◌>>=◌ as ◌>>>◌};
ghost use Rattle.xpath_nodes.specs.Held.{HasJoined};
ghost use Rattle.xpath_operations.specs.Operands.{IsHeld};
ghost use Rattle.std.specs.Prelude.{IfOk, option_copied};

use crate::nodes::by_nodes;
use crate::taken::value_at;
use crate::taking::{is_of_context, kind_at};
use crate::texts::empty;
use doc_model::NodeView;
use key_sources::KeySource;
use lists::List;
use std::alloc::Global;
use xpath_binding::Function;
use xpath_meaning::{Context, EvalStop};
use xpath_nodes::{found_by_key, named_by_ids};
use xpath_operations::{Operand, OperandKind, operand_of};
use xpath_values::Value;

/// What a function gives of its arguments, in a context; where it takes an argument and has none, that is the context node.
/// `slot` is the place of the key's first declaration, if the call is bound to one. Costs what the function does.
pub fn called<V: NodeView, K: KeySource<V>>(
    alloc: Global,
    view: &mut V,
    keys: &mut K,
    function: Function,
    slot: Option<u32>,
    arguments: List<Operand>,
    ctx: &Context,
) -> Result<Value, EvalStop>
    requires stands { Stands (V.sees view.old) (K.fits keys.old) }
    requires held { Each (IsHeld (V.sees view.old).steps) arguments }
    requires context { IsThere (V.sees view.old).rules (V.sees view.old).steps ctx.now.node }
    ensures went { Went (V.sees view.old) (V.sees view.new) (K.made keys.old) (K.made keys.new) (K.fits keys.new) }
    ensures answers { Says (K.made keys.old).lookups (λ R. taking.completed function arguments R ctx.now >>> λ xs. given.given function slot xs R ctx.now) (V.sees view.old) (V.sees view.new) result }
{
    let completed = completed(alloc, view, function, arguments, ctx)?;
    given(alloc, view, keys, function, slot, &completed, ctx)
}

fn completed<V: NodeView>(
    alloc: Global,
    view: &mut V,
    function: Function,
    arguments: List<Operand>,
    ctx: &Context,
) -> Result<List<Operand>, EvalStop>
    requires held { Each (IsHeld (V.sees view.old).steps) arguments }
    requires context { IsThere (V.sees view.old).rules (V.sees view.old).steps ctx.now.node }
    ensures moves { Moves (V.sees view.old) (V.sees view.new) }
    ensures answers { SaysAlways (λ R. taking.completed function arguments R ctx.now) (V.sees view.old) (V.sees view.new) result }
    ensures held { IfOk result (λ xs. Each (IsHeld (V.sees view.new).steps) xs) }
{
    if arguments.is_empty() {
        return own_arguments(alloc, view, function, ctx);
    }
    view.told();
    Ok(arguments)
}

// The context node as the only argument, where the function takes one.
fn own_arguments<V: NodeView>(
    alloc: Global,
    view: &mut V,
    function: Function,
    ctx: &Context,
) -> Result<List<Operand>, EvalStop>
    requires { IsThere (V.sees view.old).rules (V.sees view.old).steps ctx.now.node }
    ensures moves { Moves (V.sees view.old) (V.sees view.new) }
    ensures answers { SaysAlways (λ R. taking.own_arguments (taking.is_of_context function) function R ctx.now) (V.sees view.old) (V.sees view.new) result }
    ensures held { IfOk result (λ xs. Each (IsHeld (V.sees view.new).steps) xs) }
{
    view.told();
    let mut arguments = List::new(alloc);
    if is_of_context(function) {
        let own = own_argument(alloc, view, kind_at(function, 0), ctx)?;
        arguments.push(own)?;
        return Ok(arguments);
    }
    Ok(arguments)
}

fn own_argument<V: NodeView>(
    alloc: Global,
    view: &mut V,
    kind: Option<OperandKind>,
    ctx: &Context,
) -> Result<Operand, EvalStop>
    requires { IsThere (V.sees view.old).rules (V.sees view.old).steps ctx.now.node }
    ensures moves { Moves (V.sees view.old) (V.sees view.new) }
    ensures answers { SaysAlways (λ R. taking.own_argument kind R ctx.now) (V.sees view.old) (V.sees view.new) result }
    ensures held { IfOk result (λ x. IsHeld (V.sees view.new).steps x) }
{
    view.told();
    let mut nodes = List::new(alloc);
    nodes.push(ctx.node)?;
    match kind {
        Some(kind) => operand_of(alloc, view, kind, Value::Nodes(nodes)),
        None => Ok(Operand::Name),
    }
}

fn given<V: NodeView, K: KeySource<V>>(
    alloc: Global,
    view: &mut V,
    keys: &mut K,
    function: Function,
    slot: Option<u32>,
    arguments: &List<Operand>,
    ctx: &Context,
) -> Result<Value, EvalStop>
    requires stands { Stands (V.sees view.old) (K.fits keys.old) }
    requires held { Each (IsHeld (V.sees view.old).steps) arguments.now }
    requires context { IsThere (V.sees view.old).rules (V.sees view.old).steps ctx.now.node }
    ensures went { Went (V.sees view.old) (V.sees view.new) (K.made keys.old) (K.made keys.new) (K.fits keys.new) }
    ensures answers { Says (K.made keys.old).lookups (λ R. given.given function slot arguments.now R ctx.now) (V.sees view.old) (V.sees view.new) result }
{
    match function {
        Function::Id => ids_of(alloc, view, keys, value_at(arguments, 0)),
        Function::Key => keyed_by(alloc, view, keys, slot, value_at(arguments, 1)),
        _ => by_nodes(alloc, view, function, arguments, ctx),
    }
}

fn ids_of<V: NodeView, K: KeySource<V>>(
    alloc: Global,
    view: &mut V,
    keys: &mut K,
    value: Option<&Value>,
) -> Result<Value, EvalStop>
    requires stands { Stands (V.sees view.old) (K.fits keys.old) }
    requires held { HeldIf (V.sees view.old).steps (option_copied value) }
    ensures went { Went (V.sees view.old) (V.sees view.new) (K.made keys.old) (K.made keys.new) (K.fits keys.new) }
    ensures answers { Says (K.made keys.old).lookups (λ R. given.ids_of (option_copied value.entry) R) (V.sees view.old) (V.sees view.new) result }
{
    match value {
        Some(value) => named_by_ids(alloc, view, keys, value),
        None => empty(alloc),
    }
}

fn keyed_by<V: NodeView, K: KeySource<V>>(
    alloc: Global,
    view: &mut V,
    keys: &mut K,
    slot: Option<u32>,
    value: Option<&Value>,
) -> Result<Value, EvalStop>
    requires stands { Stands (V.sees view.old) (K.fits keys.old) }
    requires held { HeldIf (V.sees view.old).steps (option_copied value) }
    ensures went { Went (V.sees view.old) (V.sees view.new) (K.made keys.old) (K.made keys.new) (K.fits keys.new) }
    ensures answers { Says (K.made keys.old).lookups (λ R. given.keyed_by slot (option_copied value.entry) R) (V.sees view.old) (V.sees view.new) result }
{
    match value {
        Some(value) => found_by_key(alloc, view, keys, slot, value),
        None => empty(alloc),
    }
}
