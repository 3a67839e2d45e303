//! Variables and keys in expressions that there are none of.

ghost use Rattle.std.specs.Prelude.{◌≡◌, IfOk};
ghost use Rattle.std.specs.List.{list_any};
ghost use Rattle.sheet_names.specs.Searching as spec;
ghost use Rattle.sheet_names.specs.Searching.{search_for};

use crate::name_set::NameSet;
use crate::slots::slot_of;
use lists::List;
use sheet_reading::Given;
use sheet_values::Value;
use std::alloc::{AllocError, Global};
use xpath_syntax::{
    Expr, NameRef, Part, Path, Pattern, PatternPath, PatternStart, PatternStep, StepExpr,
};

/// What is looked for.
#[derive(Drop)]
pub enum Sought<'a> {
    /// A variable that is neither among the globals nor among the locals in scope.
    Variable {
        globals: &'a NameSet,
        locals: &'a NameSet,
    },
    /// A key. None is declared yet.
    Key,
}

fn is_sought(alloc: Global, variable: &NameRef, sought: &Sought<'_>) -> Result<bool, AllocError>
    ensures { IfOk result (λ is. is ≡ (search_for sought.now).variable variable.now) }
{
    match sought {
        Sought::Variable { globals, locals } => {
            Ok(slot_of(alloc, globals, locals, variable)?.is_none())
        }
        Sought::Key => Ok(false),
    }
}

fn is_key_call(name: &NameRef) -> bool
    ensures { result ≡ spec.unknown_keys.call name.now }
{
    name.prefix.is_empty() && name.local.as_slice() == b"key".as_slice()
}

fn is_sought_call(name: &NameRef, sought: &Sought<'_>) -> bool
    ensures { result ≡ (search_for sought.now).call name.now }
{
    match sought {
        Sought::Variable {
            globals: _,
            locals: _,
        } => false,
        Sought::Key => is_key_call(name),
    }
}

/// Whether an expression has what is looked for, at any depth. It goes over left operands by a loop, so a chain of
/// operators takes no stack. Takes a time linear in the tree. Fails only for want of memory.
#[cycle(searching)]
pub fn has(alloc: Global, e: &Expr, sought: &Sought<'_>) -> Result<bool, AllocError>
    ensures { IfOk result (λ found. found ≡ spec.has (search_for sought.now) e.now) }
{
    let mut at = e;
    loop {
        match at {
            Expr::Binary { op: _, left, right } => {
                if has(alloc, right.get(), sought)? {
                    return Ok(true);
                }
                at = left.get();
            }
            Expr::Minus(inner) => at = inner.get(),
            Expr::Literal(_) => return Ok(false),
            Expr::Number(_) => return Ok(false),
            Expr::Variable(name) => return is_sought(alloc, name, sought),
            Expr::Call { name, args } => return call_has(alloc, name, args, sought),
            Expr::Path(path) => return path_has(alloc, path, sought),
            Expr::Filter {
                primary,
                predicates,
                tail,
            } => {
                if any_has(alloc, predicates, sought)? {
                    return Ok(true);
                }
                if tail_has(alloc, tail, sought)? {
                    return Ok(true);
                }
                at = primary.get();
            }
        }
    }
}

#[cycle(searching)]
fn call_has(
    alloc: Global,
    name: &NameRef,
    args: &List<Expr>,
    sought: &Sought<'_>,
) -> Result<bool, AllocError>
    ensures { IfOk result (λ found. found ≡ spec.call_has (search_for sought.now) name.now args.now) }
{
    if is_sought_call(name, sought) {
        return Ok(true);
    }
    any_has(alloc, args, sought)
}

#[cycle(searching)]
fn any_has(alloc: Global, all: &List<Expr>, sought: &Sought<'_>) -> Result<bool, AllocError>
    ensures { IfOk result (λ found. found ≡ list_any (spec.has (search_for sought.now)) all.now) }
{
    for one in all.as_slice() {
        if has(alloc, one, sought)? {
            return Ok(true);
        }
    }
    Ok(false)
}

#[cycle(searching)]
fn tail_has(alloc: Global, tail: &Option<Path>, sought: &Sought<'_>) -> Result<bool, AllocError>
    ensures { IfOk result (λ found. found ≡ spec.tail_has (search_for sought.now) tail.now) }
{
    match tail {
        None => Ok(false),
        Some(path) => path_has(alloc, path, sought),
    }
}

#[cycle(searching)]
fn path_has(alloc: Global, path: &Path, sought: &Sought<'_>) -> Result<bool, AllocError>
    ensures { IfOk result (λ found. found ≡ spec.path_has (search_for sought.now) path.now) }
{
    for step in path.parts.as_slice() {
        if step_has(alloc, step, sought)? {
            return Ok(true);
        }
    }
    Ok(false)
}

#[cycle(searching)]
fn step_has(alloc: Global, step: &StepExpr, sought: &Sought<'_>) -> Result<bool, AllocError>
    ensures { IfOk result (λ found. found ≡ spec.step_has (search_for sought.now) step.now) }
{
    any_has(alloc, &step.predicates, sought)
}

fn key_is_sought(sought: &Sought<'_>) -> bool
    ensures { result ≡ (search_for sought.now).key }
{
    match sought {
        Sought::Variable {
            globals: _,
            locals: _,
        } => false,
        Sought::Key => true,
    }
}

fn start_has(start: &PatternStart, sought: &Sought<'_>) -> bool
    ensures { result ≡ spec.start_has (search_for sought.now) start.now }
{
    match start {
        PatternStart::Relative | PatternStart::Root | PatternStart::Deep | PatternStart::Id(_) =>
            false,
        PatternStart::Key { name: _, value: _ } => key_is_sought(sought),
    }
}

fn steps_have(alloc: Global, steps: &[PatternStep], sought: &Sought<'_>) -> Result<bool, AllocError>
    ensures { IfOk result (λ found. found ≡ list_any (spec.pattern_step_has (search_for sought.now)) steps.now) }
{
    for step in steps {
        if step_has(alloc, &step.part, sought)? {
            return Ok(true);
        }
    }
    Ok(false)
}

fn pattern_path_has(
    alloc: Global,
    path: &PatternPath,
    sought: &Sought<'_>,
) -> Result<bool, AllocError>
    ensures { IfOk result (λ found. found ≡ spec.pattern_path_has (search_for sought.now) path.now) }
{
    if start_has(&path.start, sought) {
        return Ok(true);
    }
    steps_have(alloc, path.parts.as_slice(), sought)
}

fn pattern_has(alloc: Global, pattern: &Pattern, sought: &Sought<'_>) -> Result<bool, AllocError>
    ensures { IfOk result (λ found. found ≡ spec.pattern_has (search_for sought.now) pattern.now) }
{
    for path in pattern.alternatives.as_slice() {
        if pattern_path_has(alloc, path, sought)? {
            return Ok(true);
        }
    }
    Ok(false)
}

fn part_has(alloc: Global, part: &Part, sought: &Sought<'_>) -> Result<bool, AllocError>
    ensures { IfOk result (λ found. found ≡ spec.part_has (search_for sought.now) part.now) }
{
    match part {
        Part::Plain(_) => Ok(false),
        Part::Value(e) => has(alloc, e, sought),
    }
}

fn parts_have(alloc: Global, parts: &[Part], sought: &Sought<'_>) -> Result<bool, AllocError>
    ensures { IfOk result (λ found. found ≡ list_any (spec.part_has (search_for sought.now)) parts.now) }
{
    for part in parts {
        if part_has(alloc, part, sought)? {
            return Ok(true);
        }
    }
    Ok(false)
}

fn value_has(alloc: Global, value: &Value, sought: &Sought<'_>) -> Result<bool, AllocError>
    ensures { IfOk result (λ found. found ≡ spec.value_has (search_for sought.now) value.now) }
{
    match value {
        Value::Expression(e) => has(alloc, e, sought),
        Value::Pattern(pattern) => pattern_has(alloc, pattern, sought),
        Value::Template(parts) => parts_have(alloc, parts.as_slice(), sought),
        Value::Name(_)
        | Value::NameTests(_)
        | Value::Priority(_)
        | Value::IsText(_)
        | Value::IsNumber(_)
        | Value::IsDescending(_)
        | Value::IsYes(_)
        | Value::Unused => Ok(false),
    }
}

/// Whether the value of one of these attributes has what is looked for. Costs as `has` does.
pub fn given_have(alloc: Global, given: &[Given], sought: &Sought<'_>) -> Result<bool, AllocError>
    ensures { IfOk result (λ found. found ≡ list_any (spec.given_has (search_for sought.now)) given.now) }
{
    for one in given {
        if value_has(alloc, &one.value, sought)? {
            return Ok(true);
        }
    }
    Ok(false)
}
