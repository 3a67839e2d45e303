//! The operands of a chain of operators.

ghost use Rattle.std.specs.Prelude.{◌≡◌, IfOk};
ghost use Rattle.xpath_chains.specs.Chains.{IsOperand, chained};

use lists::List;
use std::alloc::{AllocError, Global};
use xpath_syntax::{Expr, Op};

/// An operator and its right operand.
#[derive(Drop)]
pub struct Applied<'a> {
    pub op: Op,
    pub right: &'a Expr,
}

/// An expression as a first operand, which is no operation of two itself, and the operators that are applied to it, the
/// innermost first.
#[derive(Drop)]
pub struct Chain<'a> {
    pub first: &'a Expr,
    pub above: List<Applied<'a>>,
}

/// The chain of an expression. Costs O(its operators) steps and takes no stack; fails only for want of memory.
pub fn chain_of<'a>(alloc: Global, e: &'a Expr) -> Result<Chain<'a>, AllocError>
    ensures whole { IfOk result (λ c. chained c.first.now c.above ≡ e.now) }
    ensures first { IfOk result (λ c. IsOperand c.first.now) }
{
    let mut above = Vec::new(alloc);
    let mut at = e;
    while let Expr::Binary { op, left, right } = at {
        above.push(Applied {
            op: *op,
            right: right.get(),
        })?;
        at = left.get();
    }
    above.reverse();
    Ok(Chain {
        first: at,
        above: List::from_vec(above),
    })
}
