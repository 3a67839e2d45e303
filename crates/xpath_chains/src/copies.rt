//! Copies of trees.

ghost use Rattle.std.specs.Prelude.{◌≡◌, IfOk};
ghost use Rattle.xpath_chains.specs.Copies.{joined};

use lists::{Boxed, List};
use std::alloc::{AllocError, Global};
use xpath_syntax::{Expr, NameRef, Op, Path, PatternPath, PatternStart, PatternStep, StepExpr};

/// An operator and the copy of its right operand.
#[derive(Drop)]
struct Copied {
    op: Op,
    right: Boxed<Expr>,
}

/// Applies the operators, the last first.
fn join(alloc: Global, first: Expr, mut above: List<Copied>) -> Result<Expr, AllocError>
    ensures { IfOk result (λ whole. whole ≡ joined first above) }
{
    let mut whole = first;
    while let Some(Copied { op, right }) = above.pop() {
        let left = Boxed::new(alloc, whole)?;
        whole = Expr::Binary { op, left, right };
    }
    Ok(whole)
}

fn copy_text(text: &List<u8>) -> Result<List<u8>, AllocError>
    ensures { IfOk result (λ copy. copy ≡ text.now) }
{
    text.clone()
}

/// A copy of a name, with what it is bound to. Fails only for want of memory.
pub fn copy_name(name: &NameRef) -> Result<NameRef, AllocError>
    ensures { IfOk result (λ copy. copy ≡ name.now) }
{
    name.clone()
}

fn copy_start(start: &PatternStart) -> Result<PatternStart, AllocError>
    ensures { IfOk result (λ copy. copy ≡ start.now) }
{
    start.clone()
}

/// A copy of an expression. It goes over left operands by a loop, so a chain of operators takes no stack. Costs O(size
/// of the tree) steps; fails only for want of memory.
#[cycle(copies)]
pub fn copy(alloc: Global, e: &Expr) -> Result<Expr, AllocError>
    ensures { IfOk result (λ copy. copy ≡ e.now) }
{
    let mut above = List::new(alloc);
    let mut at = e;
    loop {
        match at {
            Expr::Binary { op, left, right } => {
                let right = Boxed::new(alloc, copy(alloc, right.get())?)?;
                above.push(Copied { op: *op, right })?;
                at = left.get();
            }
            Expr::Minus(inner) => {
                let inner = Boxed::new(alloc, copy(alloc, inner.get())?)?;
                return join(alloc, Expr::Minus(inner), above);
            }
            Expr::Literal(text) => return join(alloc, Expr::Literal(copy_text(text)?), above),
            Expr::Number(whole) => return join(alloc, Expr::Number(*whole), above),
            Expr::Variable(name) => return join(alloc, Expr::Variable(copy_name(name)?), above),
            Expr::Call { name, args } => {
                let name = copy_name(name)?;
                let args = copy_all(alloc, args)?;
                return join(alloc, Expr::Call { name, args }, above);
            }
            Expr::Path(path) => return join(alloc, Expr::Path(copy_path(alloc, path)?), above),
            Expr::Filter {
                primary,
                predicates,
                tail,
            } => {
                let primary = Boxed::new(alloc, copy(alloc, primary.get())?)?;
                let predicates = copy_all(alloc, predicates)?;
                let tail = copy_tail(alloc, tail)?;
                let filter = Expr::Filter {
                    primary,
                    predicates,
                    tail,
                };
                return join(alloc, filter, above);
            }
        }
    }
}

#[cycle(copies)]
fn copy_all(alloc: Global, all: &List<Expr>) -> Result<List<Expr>, AllocError>
    ensures { IfOk result (λ copy. copy ≡ all.now) }
{
    let mut copies = List::new(alloc);
    for one in all.as_slice() {
        copies.push(copy(alloc, one)?)?;
    }
    Ok(copies)
}

#[cycle(copies)]
fn copy_tail(alloc: Global, tail: &Option<Path>) -> Result<Option<Path>, AllocError>
    ensures { IfOk result (λ copy. copy ≡ tail.now) }
{
    match tail {
        None => Ok(None),
        Some(path) => Ok(Some(copy_path(alloc, path)?)),
    }
}

#[cycle(copies)]
fn copy_path(alloc: Global, path: &Path) -> Result<Path, AllocError>
    ensures { IfOk result (λ copy. copy ≡ path.now) }
{
    Ok(Path {
        absolute: path.absolute,
        parts: copy_steps(alloc, &path.parts)?,
        streams: path.streams,
    })
}

#[cycle(copies)]
fn copy_steps(alloc: Global, steps: &List<StepExpr>) -> Result<List<StepExpr>, AllocError>
    ensures { IfOk result (λ copy. copy ≡ steps.now) }
{
    let mut copies = List::new(alloc);
    for step in steps.as_slice() {
        copies.push(copy_step(alloc, step)?)?;
    }
    Ok(copies)
}

#[cycle(copies)]
fn copy_step(alloc: Global, step: &StepExpr) -> Result<StepExpr, AllocError>
    ensures { IfOk result (λ copy. copy ≡ step.now) }
{
    Ok(StepExpr {
        axis: step.axis,
        test: step.test.clone()?,
        predicates: copy_all(alloc, &step.predicates)?,
    })
}

/// A copy of a path of a pattern, as of an expression.
pub fn copy_pattern_path(alloc: Global, path: &PatternPath) -> Result<PatternPath, AllocError>
    ensures { IfOk result (λ copy. copy ≡ path.now) }
{
    let mut parts = List::new(alloc);
    for step in path.parts.as_slice() {
        parts.push(PatternStep {
            deep: step.deep,
            part: copy_step(alloc, &step.part)?,
        })?;
    }
    Ok(PatternPath {
        start: copy_start(&path.start)?,
        parts,
    })
}
