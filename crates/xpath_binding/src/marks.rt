//! The location paths of an expression that may be read one by one.

ghost use Rattle.std.specs.Prelude.{◌≡◌, map};
ghost use Rattle.std.specs.List.{list_all};
ghost use Rattle.xpath_binding.specs.Marks.{is_plain, marked, marked_path, marked_step, marked_tail, may_stream};

use lists::List;
use std::mem;
use xpath_chains::step_mentions_last;
use xpath_syntax::{AxisName, Expr, Path, StepExpr};

/// Marks each location path of an expression that has a step, and only steps on the child axis without last() in their
/// predicates, where `allowed`, which says that the sheet uses last() nowhere outside predicates; and takes the mark of
/// the others. The path behind a primary is no location path. Takes no memory, and no stack by the length of a chain of
/// operators: on the way down each left operand is replaced by what is above it, and on the way back put in again.
#[cycle(mark)]
pub fn mark(e: &mut Expr, allowed: bool)
    ensures { e.new ≡ marked allowed e.old }
{
    let mut above = Expr::Number(0);
    let mut at = mem::replace(e, Expr::Number(0));
    while let Expr::Binary { op: _, left, right } = &mut at {
        mark(right.get_mut(), allowed);
        let next = mem::replace(left.get_mut(), above);
        above = at;
        at = next;
    }
    mark_operand(&mut at, allowed);
    while let Expr::Binary {
        op: _,
        left,
        right: _,
    } = &mut above
    {
        let next = mem::replace(left.get_mut(), at);
        at = above;
        above = next;
    }
    *e = at;
}

#[cycle(mark)]
fn mark_operand(e: &mut Expr, allowed: bool)
    ensures { e.new ≡ marked allowed e.old }
{
    match e {
        Expr::Binary { op: _, left, right } => {
            mark(left.get_mut(), allowed);
            mark(right.get_mut(), allowed);
        }
        Expr::Minus(inner) => mark(inner.get_mut(), allowed),
        Expr::Literal(_) => {}
        Expr::Number(_) => {}
        Expr::Variable(_) => {}
        Expr::Call { name: _, args } => mark_all(args, allowed),
        Expr::Path(path) => mark_path(path, allowed),
        Expr::Filter {
            primary,
            predicates,
            tail,
        } => {
            mark(primary.get_mut(), allowed);
            mark_all(predicates, allowed);
            mark_tail(tail, allowed);
        }
    }
}

#[cycle(mark)]
fn mark_tail(tail: &mut Option<Path>, allowed: bool)
    ensures { tail.new ≡ marked_tail allowed tail.old }
{
    if let Some(path) = tail {
        mark_path(path, allowed);
        path.streams = false;
    }
}

#[cycle(mark)]
fn mark_path(path: &mut Path, allowed: bool)
    ensures { path.new ≡ marked_path allowed path.old }
{
    mark_steps(&mut path.parts, allowed);
    path.streams = allowed && streams(&path.parts);
}

#[cycle(mark)]
fn mark_all(all: &mut List<Expr>, allowed: bool)
    ensures { all.new ≡ map (marked allowed) all.old }
{
    for i in 0..all.len() {
        mark(all.item_mut(i), allowed);
    }
}

#[cycle(mark)]
fn mark_steps(all: &mut List<StepExpr>, allowed: bool)
    ensures { all.new ≡ map (marked_step allowed) all.old }
{
    for i in 0..all.len() {
        mark_step(all.item_mut(i), allowed);
    }
}

#[cycle(mark)]
fn mark_step(step: &mut StepExpr, allowed: bool)
    ensures { step.new ≡ marked_step allowed step.old }
{
    mark_all(&mut step.predicates, allowed);
}

/// Whether the nodes of steps may be read one by one.
fn streams(steps: &List<StepExpr>) -> bool
    ensures { result ≡ may_stream steps.now }
{
    for step in steps.as_slice() {
        if step.axis != AxisName::Child || step_mentions_last(step) {
            return false;
        }
    }
    !steps.is_empty()
}
