//! Chains of operators that group to the left (XPath 1.0, section 3.5).

ghost use Rattle.std.specs.Prelude.{◌≡◌, IfOk};
ghost use Rattle.xpath_chains.specs.Chains.{chained};
ghost use Rattle.xpath_syntax.specs.declared.expression.Expr.TheVariants as expr;

use lists::List;
use std::alloc::{AllocError, Global};
use xpath_chains::Applied;
use xpath_syntax::{Expr, Op};

/// An operation as its innermost one, and the operators that are applied to it, the innermost first.
#[derive(Drop)]
pub(crate) struct Operations<'a> {
    pub(crate) op: Op,
    pub(crate) left: &'a Expr,
    pub(crate) right: &'a Expr,
    pub(crate) above: List<Applied<'a>>,
}

/// The operations of a chain. Costs O(its operators) steps and takes no stack, and no memory where there is one operator.
pub(crate) fn operations_of<'a>(
    alloc: Global,
    op: Op,
    left: &'a Expr,
    right: &'a Expr,
) -> Result<Operations<'a>, AllocError>
    ensures { IfOk result (λ all. chained (expr.Binary all.op all.left.now all.right.now) all.above ≡ expr.Binary op left.now right.now) }
{
    let mut above = Vec::new(alloc);
    let mut innermost = op;
    let mut first = left;
    let mut second = right;
    while let Expr::Binary { op, left, right } = first {
        above.push(Applied {
            op: innermost,
            right: second,
        })?;
        innermost = *op;
        second = right.get();
        first = left.get();
    }
    above.reverse();
    Ok(Operations {
        op: innermost,
        left: first,
        right: second,
        above: List::from_vec(above),
    })
}
