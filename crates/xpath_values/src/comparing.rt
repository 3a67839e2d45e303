ghost use Rattle.std.specs.Prelude.{◌≡◌, Ok};
ghost use Rattle.std.specs.Str.{bytes_eq};
ghost use Rattle.xpath_values.specs.Comparisons as spec;

use crate::atom::{Atom, number_of, truth_of};
use std::cmp::Ordering;
use whole_num::{NumFault, compare as order};
use xpath_syntax::Op;

/// Whether a comparison holds of two atoms (XPath 1.0, section 3.4). `=` and `!=` compare as booleans if either is one,
/// else as numbers if either is one, else as texts; the four others compare as numbers. With NaN all are false but
/// `!=`. The fault is that of the left operand's number, else that of the right one's. Of an operator that is no
/// comparison the answer is false. Linear in the texts; takes no memory.
pub fn compare(op: Op, a: &Atom, b: &Atom) -> Result<bool, NumFault>
    ensures { result ≡ spec.compared op a.now b.now }
{
    match op {
        Op::Equal => equal(a, b),
        Op::NotEqual => Ok(!equal(a, b)?),
        Op::Less | Op::LessEqual | Op::Greater | Op::GreaterEqual => as_numbers(op, a, b),
        Op::Or | Op::And | Op::Add | Op::Subtract | Op::Multiply | Op::Div | Op::Mod | Op::Union =>
            Ok(false),
    }
}

fn equal(a: &Atom, b: &Atom) -> Result<bool, NumFault>
    ensures { result ≡ spec.equal a.now b.now }
{
    match (a, b) {
        (Atom::Truth(_), _) | (_, Atom::Truth(_)) => Ok(truth_of(a) == truth_of(b)),
        (Atom::Number(_), _) | (_, Atom::Number(_)) => as_numbers(Op::Equal, a, b),
        (Atom::Text(a), Atom::Text(b)) => Ok(a.as_slice() == b.as_slice()),
    }
}

fn as_numbers(op: Op, a: &Atom, b: &Atom) -> Result<bool, NumFault>
    ensures { result ≡ spec.as_numbers op a.now b.now }
{
    let a = number_of(a)?;
    let b = number_of(b)?;
    Ok(meets(op, order(a, b)))
}

/// Whether two numbers in this order meet an operator; NaN stands in no order.
fn meets(op: Op, order: Option<Ordering>) -> bool
    ensures { result ≡ spec.meets op order }
{
    match order {
        Some(Ordering::Less) => matches!(op, Op::NotEqual | Op::Less | Op::LessEqual),
        Some(Ordering::Equal) => matches!(op, Op::Equal | Op::LessEqual | Op::GreaterEqual),
        Some(Ordering::Greater) => matches!(op, Op::NotEqual | Op::Greater | Op::GreaterEqual),
        None => matches!(op, Op::NotEqual),
    }
}
