//! Expressions with their names bound.

ghost use Rattle.std.specs.Prelude.{◌≡◌, map, option_map, IfOk};
ghost use Rattle.xpath_binding.specs.Around.{scope};
ghost use Rattle.xpath_binding.specs.Binding as spec;
ghost use Rattle.xpath_binding.specs.Names.{Answers, resolution};
ghost use Rattle.xpath_binding.specs.Scope.{outside_patterns};

use crate::around::{Around, bind_variable, call_uri};
use crate::error::BindError;
use crate::names::{VarNames, bind_name};
use lists::{Boxed, List};
use std::alloc::{AllocError, Global};
use xml_names::Scopes;
use xpath_chains::{chain_of, copy_name};
use xpath_syntax::{AxisName, Expr, NameRef, Path, StepExpr, TestExpr};

/// Binds the names of an expression, or gives its first refusal in the order of its tokens. Each name gets the URI of its
/// prefix, which is empty where it has none; the name of a call of key() gets that of the key which its first argument
/// names. With `vars` each variable gets its place, globals first; without them no variable is unknown. Costs O(size of
/// the tree) steps beside the look-ups of names, and takes no stack by the length of a chain of operators.
pub fn bind(
    alloc: Global,
    e: Expr,
    scopes: &Scopes,
    vars: Option<&VarNames>,
) -> Result<Expr, BindError>
    ensures { Answers (spec.bound (outside_patterns (resolution scopes.now) (option_map (λ vars. vars.now) vars.entry)) e) result }
{
    let around = Around {
        scopes,
        vars,
        in_pattern: false,
    };
    bind_expr(alloc, &e, &around)
}

// The operands of a chain of operators are bound in their order.
#[cycle(binding)]
fn bind_expr(alloc: Global, e: &Expr, around: &Around<'_>) -> Result<Expr, BindError>
    ensures { Answers (spec.bound (scope around.now) e.now) result }
{
    let chain = chain_of(alloc, e)?;
    let mut whole = bind_operand(alloc, chain.first, around)?;
    for applied in chain.above.as_slice() {
        let right = bind_expr(alloc, applied.right, around)?;
        whole = Expr::Binary {
            op: applied.op,
            left: Boxed::new(alloc, whole)?,
            right: Boxed::new(alloc, right)?,
        };
    }
    Ok(whole)
}

#[cycle(binding)]
fn bind_operand(alloc: Global, e: &Expr, around: &Around<'_>) -> Result<Expr, BindError>
    ensures { Answers (spec.bound (scope around.now) e.now) result }
{
    match e {
        Expr::Binary { op, left, right } => {
            let left = Boxed::new(alloc, bind_expr(alloc, left.get(), around)?)?;
            let right = Boxed::new(alloc, bind_expr(alloc, right.get(), around)?)?;
            Ok(Expr::Binary {
                op: *op,
                left,
                right,
            })
        }
        Expr::Minus(inner) => {
            let inner = Boxed::new(alloc, bind_expr(alloc, inner.get(), around)?)?;
            Ok(Expr::Minus(inner))
        }
        Expr::Literal(text) => Ok(Expr::Literal(copy_text(text)?)),
        Expr::Number(whole) => Ok(Expr::Number(*whole)),
        Expr::Variable(name) => Ok(Expr::Variable(bind_variable(alloc, name, around)?)),
        Expr::Call { name, args } => bind_call(alloc, name, args, around),
        Expr::Path(path) => Ok(Expr::Path(bind_path(alloc, path, around)?)),
        Expr::Filter {
            primary,
            predicates,
            tail,
        } => {
            let primary = Boxed::new(alloc, bind_expr(alloc, primary.get(), around)?)?;
            let predicates = bind_all(alloc, predicates, around)?;
            let tail = bind_tail(alloc, tail, around)?;
            Ok(Expr::Filter {
                primary,
                predicates,
                tail,
            })
        }
    }
}

fn copy_text(text: &List<u8>) -> Result<List<u8>, AllocError>
    ensures { IfOk result (λ copy. copy ≡ text.now) }
{
    text.clone()
}

fn first_literal(args: &List<Expr>) -> Option<&[u8]>
    ensures { option_map (λ text. text.now) result ≡ spec.first_literal args.now }
{
    match args.get(0) {
        Some(Expr::Literal(text)) => Some(text.as_slice()),
        _ => None,
    }
}

#[cycle(binding)]
fn bind_call(
    alloc: Global,
    name: &NameRef,
    args: &List<Expr>,
    around: &Around<'_>,
) -> Result<Expr, BindError>
    ensures { Answers (spec.bound_call (scope around.now) name.now args.now) result }
{
    let uri = call_uri(alloc, name, args.len(), first_literal(args), around)?;
    let args = bind_all(alloc, args, around)?;
    let mut name = copy_name(name)?;
    name.uri = Some(uri);
    Ok(Expr::Call { name, args })
}

#[cycle(binding)]
fn bind_all(alloc: Global, all: &List<Expr>, around: &Around<'_>) -> Result<List<Expr>, BindError>
    ensures { Answers (spec.in_order (map (spec.bound (scope around.now)) all.now)) result }
{
    let mut bound = List::new(alloc);
    for one in all.as_slice() {
        bound.push(bind_expr(alloc, one, around)?)?;
    }
    Ok(bound)
}

#[cycle(binding)]
fn bind_tail(
    alloc: Global,
    tail: &Option<Path>,
    around: &Around<'_>,
) -> Result<Option<Path>, BindError>
    ensures { Answers (spec.bound_tail (option_map (spec.bound_path (scope around.now)) tail.now)) result }
{
    match tail {
        None => Ok(None),
        Some(path) => Ok(Some(bind_path(alloc, path, around)?)),
    }
}

#[cycle(binding)]
fn bind_path(alloc: Global, path: &Path, around: &Around<'_>) -> Result<Path, BindError>
    ensures { Answers (spec.bound_path (scope around.now) path.now) result }
{
    let parts = bind_steps(alloc, &path.parts, around)?;
    Ok(Path {
        absolute: path.absolute,
        parts,
        streams: path.streams,
    })
}

#[cycle(binding)]
fn bind_steps(
    alloc: Global,
    steps: &List<StepExpr>,
    around: &Around<'_>,
) -> Result<List<StepExpr>, BindError>
    ensures { Answers (spec.in_order (map (spec.bound_step (scope around.now)) steps.now)) result }
{
    let mut bound = List::new(alloc);
    for step in steps.as_slice() {
        bound.push(bind_step(alloc, step, around)?)?;
    }
    Ok(bound)
}

/// A step of a path with its names bound: its axis is judged first, then its node test, then its predicates.
#[cycle(binding)]
pub fn bind_step(alloc: Global, step: &StepExpr, around: &Around<'_>) -> Result<StepExpr, BindError>
    ensures { Answers (spec.bound_step (scope around.now) step.now) result }
{
    let test = bind_test(alloc, step.axis, &step.test, around.scopes)?;
    let predicates = bind_all(alloc, &step.predicates, around)?;
    Ok(StepExpr {
        axis: step.axis,
        test,
        predicates,
    })
}

fn is_namespace(axis: AxisName) -> bool
    ensures { result ≡ spec.is_namespace axis }
{
    axis == AxisName::Namespace
}

fn bind_test(
    alloc: Global,
    axis: AxisName,
    test: &TestExpr,
    scopes: &Scopes,
) -> Result<TestExpr, BindError>
    ensures { Answers (spec.bound_test (resolution scopes.now) axis test.now) result }
{
    if is_namespace(axis) {
        return Err(BindError::Unsupported);
    }
    bind_node_test(alloc, copy_test(test)?, scopes)
}

fn copy_test(test: &TestExpr) -> Result<TestExpr, AllocError>
    ensures { IfOk result (λ copy. copy ≡ test.now) }
{
    test.clone()
}

fn bind_node_test(alloc: Global, test: TestExpr, scopes: &Scopes) -> Result<TestExpr, BindError>
    ensures { Answers (spec.tested (resolution scopes.now) test) result }
{
    match test {
        TestExpr::AnyName => Ok(TestExpr::AnyName),
        TestExpr::InPrefix(name) => Ok(TestExpr::InPrefix(bind_name(alloc, name, scopes)?)),
        TestExpr::Name(name) => Ok(TestExpr::Name(bind_name(alloc, name, scopes)?)),
        TestExpr::Node => Ok(TestExpr::Node),
        TestExpr::Text => Ok(TestExpr::Text),
        TestExpr::Comment => Ok(TestExpr::Comment),
        TestExpr::Instruction(target) => Ok(TestExpr::Instruction(target)),
    }
}
