//! The value of an expression, by the values of its parts. One function a question: what an expression is as a value, as an
//! operand, a node-set or a predicate; and what operators, steps, predicates and calls make of them.

ghost use Rattle.std.specs.Prelude.{◌≡◌, ◌<◌, ◌^◌, map, IfOk};
ghost use Rattle.std.specs.Option.{option_map};
ghost use Rattle.key_sources.specs.Going.{Says, Went};
ghost use Rattle.xpath_calls.specs.Taking as taking;
ghost use Rattle.xpath_core.specs.Left.{Follows, IsLeft, IsLevel, IsPlace, StopsLevel, left_at, test_in, tested_in};
ghost use Rattle.xpath_core.specs.Ready.{IsReady};
ghost use Rattle.xpath_laws.specs.Sound.{Each, IsThere, IsNodeSet};
ghost use Rattle.xpath_meaning.specs.Calls as calls;
ghost use Rattle.xpath_meaning.specs.Evaluation.{evaluation_of, meant, meant_path, meant_step, path_items_of, filter_value};
ghost use Rattle.xpath_meaning.specs.Items as items;
ghost use Rattle.xpath_meaning.specs.Meanings.{nodes_at, holds_at};
ghost use Rattle.xpath_meaning.specs.Operators.{binary};
ghost use Rattle.xpath_meaning.specs.Readings.{values_of};
ghost use Rattle.xpath_meaning.specs.Steps as steps;
ghost use Rattle.xpath_meaning.specs.Streams.{first_item};
ghost use Rattle.xpath_operations.specs.Operands as operands;

use crate::judged::judged_by_first;
use crate::leaves::{none, number_value, text_value, variable};
use crate::levels::{Child, Level, Place, Tested, Turn, count_at, finished};
use crate::node_tests::{meets, nodes_on, test_of};
use crate::operations::operations_of;
use crate::places::{at_node, keep_if, size_of, start_of};
use doc_model::{Look, NodeView, Test};
use key_sources::KeySource;
use lists::List;
use node_lists::in_order;
use std::alloc::Global;
use xpath_calls::{Function, call_of, called, kind_at};
use xpath_meaning::{Context, Env, EvalStop, Size};
use xpath_nodes::{value_holds, value_nodes};
use xpath_operations::{
    Operand, OperandKind, combined, decided, kind_of, negated, operand_of, operand_of_first,
};
use xpath_syntax::{Expr, NameRef, Op, Path, StepExpr};
use xpath_values::Value;

/// The value of an expression in a context. A value and a fault are those at the end of the call, and so at every growth;
/// `NotYet` names a row that must be shut first and at a step of the call was not; a fault is the expression's first.
/// Operands, arguments, steps and predicates are evaluated from left to right, and nothing behind what decides.
pub fn eval<V: NodeView, K: KeySource<V>>(
    alloc: Global,
    view: &mut V,
    keys: &mut K,
    e: &Expr,
    ctx: &Context,
    env: &Env,
) -> Result<Value, EvalStop>
    requires { IsReady (V.sees view.old) (K.fits keys.old) (values_of env.now) ctx.now }
    ensures went { Went (V.sees view.old) (V.sees view.new) (K.made keys.old) (K.made keys.new) (K.fits keys.new) }
    ensures answers { Says (K.made keys.old).lookups (λ R. evaluation_of R e.now (values_of env.now) ctx.now) (V.sees view.old) (V.sees view.new) result }
{
    value(alloc, view, keys, e, ctx, env)
}

// The value. The tree of a chain of operators is as deep as the chain is long, so it is taken apart by a loop first.
#[cycle(eval)]
fn value<V: NodeView, K: KeySource<V>>(
    alloc: Global,
    view: &mut V,
    keys: &mut K,
    e: &Expr,
    ctx: &Context,
    env: &Env,
) -> Result<Value, EvalStop>
    requires { IsReady (V.sees view.old) (K.fits keys.old) (values_of env.now) ctx.now }
    ensures went { Went (V.sees view.old) (V.sees view.new) (K.made keys.old) (K.made keys.new) (K.fits keys.new) }
    ensures answers { Says (K.made keys.old).lookups (λ R. (meant e.now).value R (values_of env.now) ctx.now) (V.sees view.old) (V.sees view.new) result }
{
    match e {
        Expr::Binary { op, left, right } => {
            chain(alloc, view, keys, *op, left.get(), right.get(), ctx, env)
        }
        Expr::Minus(inner) => {
            let number = operand(
                alloc,
                view,
                keys,
                OperandKind::Number,
                inner.get(),
                ctx,
                env,
            )?;
            negated(number)
        }
        Expr::Literal(bytes) => text_value(bytes),
        Expr::Number(whole) => Ok(number_value(*whole)),
        Expr::Variable(name) => variable(alloc, env, name.slot),
        Expr::Call { name, args } => call(alloc, view, keys, name, args.as_slice(), ctx, env),
        Expr::Path(path) => {
            let nodes = path_nodes(alloc, view, keys, path, ctx, env)?;
            Ok(Value::Nodes(nodes))
        }
        Expr::Filter {
            primary,
            predicates,
            tail,
        } => {
            let predicates = predicates.as_slice();
            filter(alloc, view, keys, primary.get(), predicates, tail, ctx, env)
        }
    }
}

// An operation: the innermost of its chain of operators, and then each operator on the value so far.
#[cycle(eval)]
fn chain<V: NodeView, K: KeySource<V>>(
    alloc: Global,
    view: &mut V,
    keys: &mut K,
    op: Op,
    left: &Expr,
    right: &Expr,
    ctx: &Context,
    env: &Env,
) -> Result<Value, EvalStop>
    requires { IsReady (V.sees view.old) (K.fits keys.old) (values_of env.now) ctx.now }
    ensures went { Went (V.sees view.old) (V.sees view.new) (K.made keys.old) (K.made keys.new) (K.fits keys.new) }
    ensures answers { Says (K.made keys.old).lookups (λ R. binary op (meant left.now) (meant right.now) R (values_of env.now) ctx.now) (V.sees view.old) (V.sees view.new) result }
{
    let chain = operations_of(alloc, op, left, right)?;
    let x = operand(alloc, view, keys, kind_of(chain.op), chain.left, ctx, env)?;
    let mut result = applied(alloc, view, keys, chain.op, x, chain.right, ctx, env)?;
    for next in chain.above.as_slice() {
        let x = operand_of(alloc, view, kind_of(next.op), result)?;
        result = applied(alloc, view, keys, next.op, x, next.right, ctx, env)?;
    }
    Ok(result)
}

// What an operator gives behind its left operand.
#[cycle(eval)]
fn applied<V: NodeView, K: KeySource<V>>(
    alloc: Global,
    view: &mut V,
    keys: &mut K,
    op: Op,
    left: Operand,
    right: &Expr,
    ctx: &Context,
    env: &Env,
) -> Result<Value, EvalStop>
    requires ready { IsReady (V.sees view.old) (K.fits keys.old) (values_of env.now) ctx.now }
    requires there { operands.IsHeld (V.sees view.old).steps left }
    ensures went { Went (V.sees view.old) (V.sees view.new) (K.made keys.old) (K.made keys.new) (K.fits keys.new) }
    ensures answers { Says (K.made keys.old).lookups (λ R. operands.applied op left (meant right.now) R (values_of env.now) ctx.now) (V.sees view.old) (V.sees view.new) result }
{
    match decided(op, &left) {
        Some(value) => Ok(value),
        None => {
            let y = operand(alloc, view, keys, kind_of(op), right, ctx, env)?;
            combined(alloc, view, op, left, y)
        }
    }
}

// The expression as an operand of this kind.
#[cycle(eval)]
pub(crate) fn operand<V: NodeView, K: KeySource<V>>(
    alloc: Global,
    view: &mut V,
    keys: &mut K,
    kind: OperandKind,
    e: &Expr,
    ctx: &Context,
    env: &Env,
) -> Result<Operand, EvalStop>
    requires { IsReady (V.sees view.old) (K.fits keys.old) (values_of env.now) ctx.now }
    ensures went { Went (V.sees view.old) (V.sees view.new) (K.made keys.old) (K.made keys.new) (K.fits keys.new) }
    ensures answers { Says (K.made keys.old).lookups (λ R. operands.operand_as kind (meant e.now) R (values_of env.now) ctx.now) (V.sees view.old) (V.sees view.new) result }
{
    match judged_by_first(kind, e) {
        Some(path) => {
            let node = first(alloc, view, keys, path, ctx, env)?;
            operand_of_first(alloc, view, kind, node)
        }
        None => {
            let value = value(alloc, view, keys, e, ctx, env)?;
            operand_of(alloc, view, kind, value)
        }
    }
}

// The expression where a node-set is needed.
#[cycle(eval)]
fn nodes<V: NodeView, K: KeySource<V>>(
    alloc: Global,
    view: &mut V,
    keys: &mut K,
    e: &Expr,
    ctx: &Context,
    env: &Env,
) -> Result<List<u32>, EvalStop>
    requires { IsReady (V.sees view.old) (K.fits keys.old) (values_of env.now) ctx.now }
    ensures went { Went (V.sees view.old) (V.sees view.new) (K.made keys.old) (K.made keys.new) (K.fits keys.new) }
    ensures answers { Says (K.made keys.old).lookups (λ R. nodes_at (meant e.now) R (values_of env.now) ctx.now) (V.sees view.old) (V.sees view.new) result }
{
    let value = value(alloc, view, keys, e, ctx, env)?;
    value_nodes(value)
}

/// Whether an expression holds as a predicate at the node of the context: a number if it is the position (XPath 1.0, section
/// 2.4), any other value if it is true. Of a path whose nodes may be taken one by one nothing is evaluated behind its first
/// node. What stops it is as for `eval`.
#[cycle(eval)]
pub fn holds<V: NodeView, K: KeySource<V>>(
    alloc: Global,
    view: &mut V,
    keys: &mut K,
    e: &Expr,
    ctx: &Context,
    env: &Env,
) -> Result<bool, EvalStop>
    requires { IsReady (V.sees view.old) (K.fits keys.old) (values_of env.now) ctx.now }
    ensures went { Went (V.sees view.old) (V.sees view.new) (K.made keys.old) (K.made keys.new) (K.fits keys.new) }
    ensures answers { Says (K.made keys.old).lookups (λ R. holds_at (meant e.now) R (values_of env.now) ctx.now) (V.sees view.old) (V.sees view.new) result }
{
    match judged_by_first(OperandKind::Truth, e) {
        Some(path) => {
            let node = first(alloc, view, keys, path, ctx, env)?;
            Ok(node.is_some())
        }
        None => {
            let value = value(alloc, view, keys, e, ctx, env)?;
            Ok(value_holds(&value, ctx.position))
        }
    }
}

// A call of a function.
#[cycle(eval)]
fn call<V: NodeView, K: KeySource<V>>(
    alloc: Global,
    view: &mut V,
    keys: &mut K,
    name: &NameRef,
    args: &[Expr],
    ctx: &Context,
    env: &Env,
) -> Result<Value, EvalStop>
    requires { IsReady (V.sees view.old) (K.fits keys.old) (values_of env.now) ctx.now }
    ensures went { Went (V.sees view.old) (V.sees view.new) (K.made keys.old) (K.made keys.new) (K.fits keys.new) }
    ensures answers { Says (K.made keys.old).lookups (λ R. calls.call name.now (map meant args.now) R (values_of env.now) ctx.now) (V.sees view.old) (V.sees view.new) result }
{
    match call_of(name, args.len()) {
        Some(function) => {
            let taken = arguments(alloc, view, keys, function, args, ctx, env)?;
            called(alloc, view, keys, function, name.slot, taken, ctx)
        }
        None => none(alloc),
    }
}

// The arguments of a function from the left, each as the function takes it.
#[cycle(eval)]
fn arguments<V: NodeView, K: KeySource<V>>(
    alloc: Global,
    view: &mut V,
    keys: &mut K,
    function: Function,
    args: &[Expr],
    ctx: &Context,
    env: &Env,
) -> Result<List<Operand>, EvalStop>
    requires { IsReady (V.sees view.old) (K.fits keys.old) (values_of env.now) ctx.now }
    ensures went { Went (V.sees view.old) (V.sees view.new) (K.made keys.old) (K.made keys.new) (K.fits keys.new) }
    ensures answers { Says (K.made keys.old).lookups (λ R. taking.arguments function 0 (map meant args.now) R (values_of env.now) ctx.now) (V.sees view.old) (V.sees view.new) result }
{
    let mut taken = List::new(alloc);
    for arg in args {
        let kind = kind_at(function, taken.len());
        let x = argument(alloc, view, keys, kind, arg, ctx, env)?;
        taken.push(x)?;
    }
    Ok(taken)
}

// An argument as its function takes it.
#[cycle(eval)]
fn argument<V: NodeView, K: KeySource<V>>(
    alloc: Global,
    view: &mut V,
    keys: &mut K,
    kind: Option<OperandKind>,
    e: &Expr,
    ctx: &Context,
    env: &Env,
) -> Result<Operand, EvalStop>
    requires { IsReady (V.sees view.old) (K.fits keys.old) (values_of env.now) ctx.now }
    ensures went { Went (V.sees view.old) (V.sees view.new) (K.made keys.old) (K.made keys.new) (K.fits keys.new) }
    ensures answers { Says (K.made keys.old).lookups (λ R. taking.argument kind (meant e.now) R (values_of env.now) ctx.now) (V.sees view.old) (V.sees view.new) result }
{
    match kind {
        Some(kind) => operand(alloc, view, keys, kind, e, ctx, env),
        None => Ok(Operand::Name),
    }
}

// The nodes of a location path.
#[cycle(eval)]
fn path_nodes<V: NodeView, K: KeySource<V>>(
    alloc: Global,
    view: &mut V,
    keys: &mut K,
    path: &Path,
    ctx: &Context,
    env: &Env,
) -> Result<List<u32>, EvalStop>
    requires { IsReady (V.sees view.old) (K.fits keys.old) (values_of env.now) ctx.now }
    ensures went { Went (V.sees view.old) (V.sees view.new) (K.made keys.old) (K.made keys.new) (K.fits keys.new) }
    ensures answers { Says (K.made keys.old).lookups (λ R. steps.path_nodes (meant_path path.now) R (values_of env.now) ctx.now) (V.sees view.old) (V.sees view.new) result }
{
    let mut from = List::new(alloc);
    from.push(start_of(path, ctx))?;
    steps(alloc, view, keys, path.parts.as_slice(), from, ctx, env)
}

// The nodes of steps one behind the other.
#[cycle(eval)]
fn steps<V: NodeView, K: KeySource<V>>(
    alloc: Global,
    view: &mut V,
    keys: &mut K,
    parts: &[StepExpr],
    from: List<u32>,
    ctx: &Context,
    env: &Env,
) -> Result<List<u32>, EvalStop>
    requires ready { IsReady (V.sees view.old) (K.fits keys.old) (values_of env.now) ctx.now }
    requires there { IsNodeSet (IsThere (V.sees view.old).rules (V.sees view.old).steps) from }
    ensures went { Went (V.sees view.old) (V.sees view.new) (K.made keys.old) (K.made keys.new) (K.fits keys.new) }
    ensures answers { Says (K.made keys.old).lookups (λ R. steps.steps_nodes (map meant_step parts.now) from R (values_of env.now) ctx.now) (V.sees view.old) (V.sees view.new) result }
{
    let mut nodes = from;
    for part in parts {
        nodes = step(alloc, view, keys, part, nodes.as_slice(), ctx, env)?;
    }
    Ok(nodes)
}

// The nodes of a step from each of these.
#[cycle(eval)]
fn step<V: NodeView, K: KeySource<V>>(
    alloc: Global,
    view: &mut V,
    keys: &mut K,
    part: &StepExpr,
    from: &[u32],
    ctx: &Context,
    env: &Env,
) -> Result<List<u32>, EvalStop>
    requires ready { IsReady (V.sees view.old) (K.fits keys.old) (values_of env.now) ctx.now }
    requires there { IsNodeSet (IsThere (V.sees view.old).rules (V.sees view.old).steps) from.now }
    ensures went { Went (V.sees view.old) (V.sees view.new) (K.made keys.old) (K.made keys.new) (K.fits keys.new) }
    ensures answers { Says (K.made keys.old).lookups (λ R. steps.step_nodes (meant_step part.now) from.now R (values_of env.now) ctx.now) (V.sees view.old) (V.sees view.new) result }
{
    let test = test_of(alloc, &part.test)?;
    step_by(alloc, view, keys, part, &test, from, ctx, env)
}

// The same, where its node test is given.
#[cycle(eval)]
fn step_by<V: NodeView, K: KeySource<V>>(
    alloc: Global,
    view: &mut V,
    keys: &mut K,
    part: &StepExpr,
    test: &Test,
    from: &[u32],
    ctx: &Context,
    env: &Env,
) -> Result<List<u32>, EvalStop>
    requires ready { IsReady (V.sees view.old) (K.fits keys.old) (values_of env.now) ctx.now }
    requires test { test.now ≡ test_in part.now }
    requires there { IsNodeSet (IsThere (V.sees view.old).rules (V.sees view.old).steps) from.now }
    ensures went { Went (V.sees view.old) (V.sees view.new) (K.made keys.old) (K.made keys.new) (K.fits keys.new) }
    ensures answers { Says (K.made keys.old).lookups (λ R. steps.step_nodes (meant_step part.now) from.now R (values_of env.now) ctx.now) (V.sees view.old) (V.sees view.new) result }
{
    let mut all = List::new(alloc);
    for node in from {
        let found = nodes_on(alloc, view, part, test, *node)?;
        let left = filtered(
            alloc,
            view,
            keys,
            part.predicates.as_slice(),
            found,
            ctx,
            env,
        )?;
        all.append(left)?;
    }
    let nodes = in_order(alloc, all)?;
    Ok(nodes)
}

// What the predicates leave of a list, one after the other.
#[cycle(eval)]
fn filtered<V: NodeView, K: KeySource<V>>(
    alloc: Global,
    view: &mut V,
    keys: &mut K,
    predicates: &[Expr],
    nodes: List<u32>,
    ctx: &Context,
    env: &Env,
) -> Result<List<u32>, EvalStop>
    requires ready { IsReady (V.sees view.old) (K.fits keys.old) (values_of env.now) ctx.now }
    requires there { Each (IsThere (V.sees view.old).rules (V.sees view.old).steps) nodes }
    ensures went { Went (V.sees view.old) (V.sees view.new) (K.made keys.old) (K.made keys.new) (K.fits keys.new) }
    ensures answers { Says (K.made keys.old).lookups (λ R. steps.filtered (map meant predicates.now) nodes R (values_of env.now) ctx.now) (V.sees view.old) (V.sees view.new) result }
{
    let mut left = nodes;
    for predicate in predicates {
        left = kept_by(alloc, view, keys, predicate, left.as_slice(), ctx, env)?;
    }
    Ok(left)
}

// The nodes at which a predicate holds.
#[cycle(eval)]
fn kept_by<V: NodeView, K: KeySource<V>>(
    alloc: Global,
    view: &mut V,
    keys: &mut K,
    predicate: &Expr,
    nodes: &[u32],
    ctx: &Context,
    env: &Env,
) -> Result<List<u32>, EvalStop>
    requires ready { IsReady (V.sees view.old) (K.fits keys.old) (values_of env.now) ctx.now }
    requires there { Each (IsThere (V.sees view.old).rules (V.sees view.old).steps) nodes.now }
    ensures went { Went (V.sees view.old) (V.sees view.new) (K.made keys.old) (K.made keys.new) (K.fits keys.new) }
    ensures answers { Says (K.made keys.old).lookups (λ R. steps.kept_by (meant predicate.now) nodes.now R (values_of env.now) ctx.now) (V.sees view.old) (V.sees view.new) result }
{
    let size = size_of(nodes);
    let mut kept = List::new(alloc);
    let mut position = 0;
    for node in nodes {
        position += 1;
        let at = at_node(ctx, size, position, *node);
        let here = holds(alloc, view, keys, predicate, &at, env)?;
        keep_if(&mut kept, here, *node)?;
    }
    Ok(kept)
}

// A primary with predicates, and the path behind it.
#[cycle(eval)]
fn filter<V: NodeView, K: KeySource<V>>(
    alloc: Global,
    view: &mut V,
    keys: &mut K,
    primary: &Expr,
    predicates: &[Expr],
    tail: &Option<Path>,
    ctx: &Context,
    env: &Env,
) -> Result<Value, EvalStop>
    requires { IsReady (V.sees view.old) (K.fits keys.old) (values_of env.now) ctx.now }
    ensures went { Went (V.sees view.old) (V.sees view.new) (K.made keys.old) (K.made keys.new) (K.fits keys.new) }
    ensures answers { Says (K.made keys.old).lookups (λ R. filter_value (meant primary.now) (map meant predicates.now) (option_map meant_path tail.now) R (values_of env.now) ctx.now) (V.sees view.old) (V.sees view.new) result }
{
    let found = nodes(alloc, view, keys, primary, ctx, env)?;
    let left = filtered(alloc, view, keys, predicates, found, ctx, env)?;
    let behind = tail_nodes(alloc, view, keys, tail, left, ctx, env)?;
    Ok(Value::Nodes(behind))
}

// The nodes of the path behind a primary, if there is one.
#[cycle(eval)]
fn tail_nodes<V: NodeView, K: KeySource<V>>(
    alloc: Global,
    view: &mut V,
    keys: &mut K,
    tail: &Option<Path>,
    from: List<u32>,
    ctx: &Context,
    env: &Env,
) -> Result<List<u32>, EvalStop>
    requires ready { IsReady (V.sees view.old) (K.fits keys.old) (values_of env.now) ctx.now }
    requires there { IsNodeSet (IsThere (V.sees view.old).rules (V.sees view.old).steps) from }
    ensures went { Went (V.sees view.old) (V.sees view.new) (K.made keys.old) (K.made keys.new) (K.fits keys.new) }
    ensures answers { Says (K.made keys.old).lookups (λ R. steps.tail_nodes (option_map meant_path tail.now) from R (values_of env.now) ctx.now) (V.sees view.old) (V.sees view.new) result }
{
    match tail {
        Some(path) => steps(alloc, view, keys, path.parts.as_slice(), from, ctx, env),
        None => Ok(from),
    }
}

// The first item of a location path whose nodes may be taken one by one, if there is one.
#[cycle(eval)]
fn first<V: NodeView, K: KeySource<V>>(
    alloc: Global,
    view: &mut V,
    keys: &mut K,
    path: &Path,
    ctx: &Context,
    env: &Env,
) -> Result<Option<u32>, EvalStop>
    requires { IsReady (V.sees view.old) (K.fits keys.old) (values_of env.now) ctx.now }
    ensures went { Went (V.sees view.old) (V.sees view.new) (K.made keys.old) (K.made keys.new) (K.fits keys.new) }
    ensures answers { Says (K.made keys.old).lookups (λ R. first_item (path_items_of R path.now (values_of env.now) ctx.now)) (V.sees view.old) (V.sees view.new) result }
{
    let parts = path.parts.as_slice();
    let start = start_of(path, ctx);
    let mut place = Place::start(alloc, parts, start)?;
    next_item(alloc, view, keys, parts, &mut place, ctx, env)
}

// The next item from a place in child steps, if there is one. What stops leaves the place as it stands.
#[cycle(eval)]
pub(crate) fn next_item<V: NodeView, K: KeySource<V>>(
    alloc: Global,
    view: &mut V,
    keys: &mut K,
    parts: &[StepExpr],
    place: &mut Place,
    ctx: &Context,
    env: &Env,
) -> Result<Option<u32>, EvalStop>
    requires ready { IsReady (V.sees view.old) (K.fits keys.old) (values_of env.now) ctx.now }
    requires place { IsPlace (V.sees view.old).rules (V.sees view.old).steps parts.now place.old }
    ensures went { Went (V.sees view.old) (V.sees view.new) (K.made keys.old) (K.made keys.new) (K.fits keys.new) }
    ensures answers { Says (K.made keys.old).lookups (λ R. first_item (left_at parts.now place.old R (values_of env.now) ctx.now)) (V.sees view.old) (V.sees view.new) result }
    ensures place { IsPlace (V.sees view.new).rules (V.sees view.new).steps parts.now place.new }
    ensures left { IsLeft (K.made keys.old).lookups (V.sees view.new).rules (V.sees view.new).steps parts.now (values_of env.now) ctx.now place.old place.new result }
{
    'walk: loop {
        let turn = place.come(alloc, parts.len())?;
        match turn {
            Turn::Item(n) => return Ok(Some(n)),
            Turn::End => return Ok(None),
            Turn::Child(at) => {
                let part = &parts[at];
                let level = place.level_at(at);
                let test = place.test_at(at);
                let child = next_child(alloc, view, keys, part, test, level, ctx, env)?;
                place.go_on(at, child);
            }
        }
    }
}

// The next child that a level comes to, tested by the predicates of the step if it meets its node test.
#[cycle(eval)]
fn next_child<V: NodeView, K: KeySource<V>>(
    alloc: Global,
    view: &mut V,
    keys: &mut K,
    part: &StepExpr,
    test: &Test,
    level: &Level,
    ctx: &Context,
    env: &Env,
) -> Result<Child, EvalStop>
    requires ready { IsReady (V.sees view.old) (K.fits keys.old) (values_of env.now) ctx.now }
    requires test { test.now ≡ test_in part.now }
    requires level { IsLevel (V.sees view.old).rules (V.sees view.old).steps level.now }
    ensures went { Went (V.sees view.old) (V.sees view.new) (K.made keys.old) (K.made keys.new) (K.fits keys.new) }
    ensures stops { StopsLevel (K.made keys.old).lookups (meant_step part.now) level.now (values_of env.now) ctx.now (V.sees view.old) (V.sees view.new) result }
    ensures child { IfOk result (λ child. Follows (K.made keys.old).lookups (V.sees view.new).rules (V.sees view.new).steps (meant_step part.now) level.now (values_of env.now) ctx.now child) }
{
    let predicates = part.predicates.as_slice();
    let counts = level.counts.as_slice();
    let mut children = level.children;
    match children.next(view) {
        Look::Node(k) => {
            if !meets(view, k, test) {
                return Ok(Child::Other { n: k, children });
            }
            let tested = tested(alloc, view, keys, predicates, counts, k, ctx, env)?;
            Ok(Child::Tested {
                n: k,
                children,
                tested,
            })
        }
        Look::Nothing => Ok(Child::None),
        Look::NotYet => Err(EvalStop::NotYet(level.node)),
    }
}

// A node tested by predicates, where so many nodes came to each of them before.
#[cycle(eval)]
fn tested<V: NodeView, K: KeySource<V>>(
    alloc: Global,
    view: &mut V,
    keys: &mut K,
    predicates: &[Expr],
    counts: &[u64],
    n: u32,
    ctx: &Context,
    env: &Env,
) -> Result<Tested, EvalStop>
    requires ready { IsReady (V.sees view.old) (K.fits keys.old) (values_of env.now) ctx.now }
    requires node { IsThere (V.sees view.old).rules (V.sees view.old).steps n }
    requires counts { Each (λ count. count < 2 ^ 32) counts.now }
    ensures went { Went (V.sees view.old) (V.sees view.new) (K.made keys.old) (K.made keys.new) (K.fits keys.new) }
    ensures answers { Says (K.made keys.old).lookups (λ R. items.tested (map meant predicates.now) counts.now n R (values_of env.now) ctx.now) (V.sees view.old) (V.sees view.new) (tested_in result) }
{
    let mut after = List::new(alloc);
    for predicate in predicates {
        let position = count_at(counts, after.len()) + 1;
        let at = at_node(ctx, Size::Unasked, position, n);
        let here = holds(alloc, view, keys, predicate, &at, env)?;
        after.push(position)?;
        if !here {
            return finished(after, counts, false);
        }
    }
    finished(after, counts, true)
}
