//! Which calls a tree has. Each question costs O(size of the tree) steps, goes over left operands by a loop and takes no
//! memory.

ghost use Rattle.std.specs.Prelude.{◌≡◌, codes, map};
ghost use Rattle.std.specs.List.{list_any};
ghost use Rattle.xpath_chains.specs.Mentions as spec;

use lists::List;
use xpath_syntax::{Expr, NameRef, Path, StepExpr};

fn is_function(name: &NameRef, word: &[u8]) -> bool
    ensures { result ≡ spec.is_function word.now name.now }
{
    name.prefix.is_empty() && name.local.as_slice() == word
}

#[cycle(mentions)]
fn mentions(e: &Expr, word: &[u8]) -> bool
    ensures { result ≡ spec.mentions word.now e.now }
{
    let mut at = e;
    loop {
        match at {
            Expr::Binary { op: _, left, right } => {
                if mentions(right.get(), word) {
                    return true;
                }
                at = left.get();
            }
            Expr::Minus(inner) => at = inner.get(),
            Expr::Literal(_) | Expr::Number(_) | Expr::Variable(_) => return false,
            Expr::Call { name, args } => return is_function(name, word) || any_mentions(args, word),
            Expr::Path(path) => return path_mentions(path, word),
            Expr::Filter {
                primary,
                predicates,
                tail,
            } => {
                if any_mentions(predicates, word) || tail_mentions(tail, word) {
                    return true;
                }
                at = primary.get();
            }
        }
    }
}

#[cycle(mentions)]
fn any_mentions(all: &List<Expr>, word: &[u8]) -> bool
    ensures { result ≡ list_any (λ e. spec.mentions word.now e) all.now }
{
    for one in all.as_slice() {
        if mentions(one, word) {
            return true;
        }
    }
    false
}

#[cycle(mentions)]
fn tail_mentions(tail: &Option<Path>, word: &[u8]) -> bool
    ensures { result ≡ spec.tail_mentions word.now tail.now }
{
    match tail {
        None => false,
        Some(path) => path_mentions(path, word),
    }
}

#[cycle(mentions)]
fn path_mentions(path: &Path, word: &[u8]) -> bool
    ensures { result ≡ spec.path_mentions word.now path.now }
{
    for step in path.parts.as_slice() {
        if step_mentions(step, word) {
            return true;
        }
    }
    false
}

#[cycle(mentions)]
fn step_mentions(step: &StepExpr, word: &[u8]) -> bool
    ensures { result ≡ spec.step_mentions word.now step.now }
{
    any_mentions(&step.predicates, word)
}

/// Whether an expression calls last(), at any depth.
pub fn mentions_last(e: &Expr) -> bool
    ensures { result ≡ spec.mentions (codes "last") e.now }
{
    mentions(e, b"last")
}

/// Whether the predicates of a step call last(), at any depth.
pub fn step_mentions_last(step: &StepExpr) -> bool
    ensures { result ≡ spec.step_mentions (codes "last") step.now }
{
    step_mentions(step, b"last")
}

/// Whether an expression calls position(), at any depth.
pub fn mentions_position(e: &Expr) -> bool
    ensures { result ≡ spec.mentions (codes "position") e.now }
{
    mentions(e, b"position")
}

/// Whether an expression calls last() where it stands in no predicate, of a step or of a primary.
#[cycle(outside)]
pub fn uses_last_outside_predicates(e: &Expr) -> bool
    ensures { result ≡ spec.last_outside e.now }
{
    let mut at = e;
    loop {
        match at {
            Expr::Binary { op: _, left, right } => {
                if uses_last_outside_predicates(right.get()) {
                    return true;
                }
                at = left.get();
            }
            Expr::Minus(inner) => at = inner.get(),
            Expr::Literal(_) | Expr::Number(_) | Expr::Variable(_) | Expr::Path(_) => return false,
            Expr::Call { name, args } => {
                return is_function(name, b"last") || any_uses_last(args);
            }
            Expr::Filter {
                primary,
                predicates: _,
                tail: _,
            } => at = primary.get(),
        }
    }
}

#[cycle(outside)]
fn any_uses_last(all: &List<Expr>) -> bool
    ensures { result ≡ list_any (λ e. spec.last_outside e) all.now }
{
    for one in all.as_slice() {
        if uses_last_outside_predicates(one) {
            return true;
        }
    }
    false
}
