//! Copies of expressions with the slots of their variables.

ghost use Rattle.std.specs.Prelude.{◌≡◌, map, IfOk};
ghost use Rattle.sheet_names.specs.Joining.{joined};
ghost use Rattle.sheet_names.specs.Placing as spec;
ghost use Rattle.sheet_names.specs.Slots.{placed_name};

use crate::name_set::NameSet;
use crate::slots::slot_of;
use lists::{Boxed, List};
use std::alloc::{AllocError, Global};
use xpath_chains::copy_name;
use xpath_syntax::{Expr, NameRef, Op, Part, Path, StepExpr, TestExpr};

/// An operator and its right operand.
#[derive(Drop)]
struct Operand {
    op: Op,
    right: Boxed<Expr>,
}

/// Applies the operators, the last first.
fn join(alloc: Global, first: Expr, mut above: List<Operand>) -> Result<Expr, AllocError>
    ensures { IfOk result (λ whole. whole ≡ joined first above) }
{
    let mut whole = first;
    while let Some(Operand { op, right }) = above.pop() {
        let left = Boxed::new(alloc, whole)?;
        whole = Expr::Binary { op, left, right };
    }
    Ok(whole)
}

fn copy_text(text: &List<u8>) -> Result<List<u8>, AllocError>
    ensures { IfOk result (λ copy. copy ≡ text.now) }
{
    text.clone()
}

fn copy_test(test: &TestExpr) -> Result<TestExpr, AllocError>
    ensures { IfOk result (λ copy. copy ≡ test.now) }
{
    test.clone()
}

fn place_name(
    alloc: Global,
    name: &NameRef,
    globals: &NameSet,
    locals: &NameSet,
) -> Result<NameRef, AllocError>
    ensures { IfOk result (λ copy. copy ≡ placed_name globals.now locals.now name.now) }
{
    let mut copy = copy_name(name)?;
    copy.slot = slot_of(alloc, globals, locals, name)?;
    Ok(copy)
}

/// A copy of an expression in which each variable has its slot. It goes over left operands by a loop, so a chain of
/// operators takes no stack. Takes a time linear in the tree. Fails only for want of memory.
#[cycle(placing)]
pub fn place(
    alloc: Global,
    e: &Expr,
    globals: &NameSet,
    locals: &NameSet,
) -> Result<Expr, AllocError>
    ensures { IfOk result (λ copy. copy ≡ spec.placed globals.now locals.now e.now) }
{
    let mut above = List::new(alloc);
    let mut at = e;
    loop {
        match at {
            Expr::Binary { op, left, right } => {
                let right = Boxed::new(alloc, place(alloc, right.get(), globals, locals)?)?;
                above.push(Operand { op: *op, right })?;
                at = left.get();
            }
            Expr::Minus(inner) => {
                let inner = Boxed::new(alloc, place(alloc, inner.get(), globals, locals)?)?;
                return join(alloc, Expr::Minus(inner), above);
            }
            Expr::Literal(text) => return join(alloc, Expr::Literal(copy_text(text)?), above),
            Expr::Number(whole) => return join(alloc, Expr::Number(*whole), above),
            Expr::Variable(name) => {
                let name = place_name(alloc, name, globals, locals)?;
                return join(alloc, Expr::Variable(name), above);
            }
            Expr::Call { name, args } => {
                let name = copy_name(name)?;
                let args = place_all(alloc, args, globals, locals)?;
                return join(alloc, Expr::Call { name, args }, above);
            }
            Expr::Path(path) => {
                let path = place_path(alloc, path, globals, locals)?;
                return join(alloc, Expr::Path(path), above);
            }
            Expr::Filter {
                primary,
                predicates,
                tail,
            } => {
                let primary = Boxed::new(alloc, place(alloc, primary.get(), globals, locals)?)?;
                let predicates = place_all(alloc, predicates, globals, locals)?;
                let tail = place_tail(alloc, tail, globals, locals)?;
                let filter = Expr::Filter {
                    primary,
                    predicates,
                    tail,
                };
                return join(alloc, filter, above);
            }
        }
    }
}

#[cycle(placing)]
fn place_all(
    alloc: Global,
    all: &List<Expr>,
    globals: &NameSet,
    locals: &NameSet,
) -> Result<List<Expr>, AllocError>
    ensures { IfOk result (λ copy. copy ≡ map (spec.placed globals.now locals.now) all.now) }
{
    let mut copies = List::new(alloc);
    for one in all.as_slice() {
        copies.push(place(alloc, one, globals, locals)?)?;
    }
    Ok(copies)
}

#[cycle(placing)]
fn place_tail(
    alloc: Global,
    tail: &Option<Path>,
    globals: &NameSet,
    locals: &NameSet,
) -> Result<Option<Path>, AllocError>
    ensures { IfOk result (λ copy. copy ≡ spec.placed_tail globals.now locals.now tail.now) }
{
    match tail {
        None => Ok(None),
        Some(path) => Ok(Some(place_path(alloc, path, globals, locals)?)),
    }
}

#[cycle(placing)]
fn place_path(
    alloc: Global,
    path: &Path,
    globals: &NameSet,
    locals: &NameSet,
) -> Result<Path, AllocError>
    ensures { IfOk result (λ copy. copy ≡ spec.placed_path globals.now locals.now path.now) }
{
    Ok(Path {
        absolute: path.absolute,
        parts: place_steps(alloc, &path.parts, globals, locals)?,
        streams: path.streams,
    })
}

#[cycle(placing)]
fn place_steps(
    alloc: Global,
    steps: &List<StepExpr>,
    globals: &NameSet,
    locals: &NameSet,
) -> Result<List<StepExpr>, AllocError>
    ensures { IfOk result (λ copy. copy ≡ map (spec.placed_step globals.now locals.now) steps.now) }
{
    let mut copies = List::new(alloc);
    for step in steps.as_slice() {
        copies.push(place_step(alloc, step, globals, locals)?)?;
    }
    Ok(copies)
}

#[cycle(placing)]
fn place_step(
    alloc: Global,
    step: &StepExpr,
    globals: &NameSet,
    locals: &NameSet,
) -> Result<StepExpr, AllocError>
    ensures { IfOk result (λ copy. copy ≡ spec.placed_step globals.now locals.now step.now) }
{
    Ok(StepExpr {
        axis: step.axis,
        test: copy_test(&step.test)?,
        predicates: place_all(alloc, &step.predicates, globals, locals)?,
    })
}

fn place_part(
    alloc: Global,
    part: &Part,
    globals: &NameSet,
    locals: &NameSet,
) -> Result<Part, AllocError>
    ensures { IfOk result (λ copy. copy ≡ spec.placed_part globals.now locals.now part.now) }
{
    match part {
        Part::Plain(text) => Ok(Part::Plain(copy_text(text)?)),
        Part::Value(e) => Ok(Part::Value(place(alloc, e, globals, locals)?)),
    }
}

/// A copy of a value template in which each variable has its slot, as of an expression.
pub fn place_parts(
    alloc: Global,
    parts: &[Part],
    globals: &NameSet,
    locals: &NameSet,
) -> Result<List<Part>, AllocError>
    ensures { IfOk result (λ copy. copy ≡ map (spec.placed_part globals.now locals.now) parts.now) }
{
    let mut copies = List::new(alloc);
    for part in parts {
        copies.push(place_part(alloc, part, globals, locals)?)?;
    }
    Ok(copies)
}
