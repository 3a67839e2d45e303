//! Arithmetic and comparison (XPath 1.0, 3.4 and 3.5). Each call costs O(1) and takes no memory.

ghost use Rattle.std.specs.Prelude.{◌≡◌, ◌≢◌, ℤ, ◌*ℤ◌, Ok, Err, IfOk};
ghost use Rattle.whole_num.specs.declared.number.Num.TheVariants.{Whole};
ghost use Rattle.whole_num.specs.declared.number.NumFault.TheVariants.{Fraction};
ghost use Rattle.whole_num.specs.Number.{IsNumber, ranged, sum_of, difference_of, product_of, quotient_of, quotient, remainder, remainder_of, IsRemainder, order_of};

use crate::number::{GREATEST, Num, NumFault};
use std::cmp::Ordering;

/// A whole number, or NumberRange where it is out of range.
pub(crate) fn in_range(whole: i64) -> Result<Num, NumFault>
    ensures { result ≡ ranged whole }
{
    if -GREATEST <= whole && whole <= GREATEST {
        Ok(Num::Whole(whole))
    } else {
        Err(NumFault::NumberRange)
    }
}

/// The sum. NaN with anything is NaN; NumberRange where the sum is out of range.
pub fn add(a: Num, b: Num) -> Result<Num, NumFault>
    ensures value { result ≡ sum_of a b }
    ensures number { IfOk result IsNumber }
{
    match (a, b) {
        (Num::Whole(a), Num::Whole(b)) => in_range(a.checked_add(b).ok_or(NumFault::NumberRange)?),
        (Num::NaN, _) | (_, Num::NaN) => Ok(Num::NaN),
    }
}

/// The difference. NaN with anything is NaN; NumberRange where the difference is out of range.
pub fn sub(a: Num, b: Num) -> Result<Num, NumFault>
    ensures value { result ≡ difference_of a b }
    ensures number { IfOk result IsNumber }
{
    match (a, b) {
        (Num::Whole(a), Num::Whole(b)) => in_range(a.checked_sub(b).ok_or(NumFault::NumberRange)?),
        (Num::NaN, _) | (_, Num::NaN) => Ok(Num::NaN),
    }
}

/// The product. NaN with anything is NaN; NumberRange where the product is out of range.
pub fn mul(a: Num, b: Num) -> Result<Num, NumFault>
    ensures value { result ≡ product_of a b }
    ensures number { IfOk result IsNumber }
{
    match (a, b) {
        (Num::Whole(a), Num::Whole(b)) => in_range(a.checked_mul(b).ok_or(NumFault::NumberRange)?),
        (Num::NaN, _) | (_, Num::NaN) => Ok(Num::NaN),
    }
}

fn divided(a: i64, b: i64) -> Result<Num, NumFault>
    ensures { result ≡ quotient a b }
{
    if b == 0 {
        if a == 0 {
            Ok(Num::NaN)
        } else {
            Err(NumFault::NumberRange)
        }
    } else if a.wrapping_rem(b) == 0 {
        in_range(a.checked_div(b).ok_or(NumFault::NumberRange)?)
    } else {
        Err(NumFault::Fraction)
    }
}

/// The quotient. NaN with anything is NaN, and so is `0 div 0`; NumberRange where a number is divided by 0,
/// Fraction where the quotient isn't whole.
pub fn div(a: Num, b: Num) -> Result<Num, NumFault>
    ensures value { result ≡ quotient_of a b }
    ensures number { IfOk result IsNumber }
{
    match (a, b) {
        (Num::Whole(a), Num::Whole(b)) => divided(a, b),
        (Num::NaN, _) | (_, Num::NaN) => Ok(Num::NaN),
    }
}

/// A whole quotient times the divisor is the dividend, and where the answer is Fraction no whole number is.
pub fn quotient_is_exact()
    ensures whole { (a b z : ℤ) → quotient a b ≡ Ok (Whole z) → z *ℤ b ≡ a }
    ensures fraction { (a b z : ℤ) → quotient a b ≡ Err Fraction → z *ℤ b ≢ a }
{}

/// The remainder of the division that truncates, with the dividend's sign. NaN with anything is NaN, and so is
/// a remainder by 0. There is no fault.
pub fn rem(a: Num, b: Num) -> Result<Num, NumFault>
    ensures value { result ≡ remainder_of a b }
    ensures number { IsNumber a → IfOk result IsNumber }
{
    match (a, b) {
        (Num::Whole(a), Num::Whole(b)) => {
            if b == 0 {
                Ok(Num::NaN)
            } else {
                Ok(Num::Whole(a.wrapping_rem(b)))
            }
        }
        (Num::NaN, _) | (_, Num::NaN) => Ok(Num::NaN),
    }
}

/// A remainder is what a multiple of the divisor leaves of the dividend, smaller than the divisor and with the dividend's
/// sign; and no other whole number is.
pub fn remainder_is_exact()
    ensures whole { (a b r : ℤ) → remainder a b ≡ Ok (Whole r) → IsRemainder a b r }
    ensures only { (a b r s : ℤ) → IsRemainder a b r → IsRemainder a b s → r ≡ s }
{}

/// The order of two numbers, and None exactly where one is NaN.
pub fn compare(a: Num, b: Num) -> Option<Ordering>
    ensures { result ≡ order_of a b }
{
    match (a, b) {
        (Num::Whole(a), Num::Whole(b)) => Some(a.cmp(&b)),
        (Num::NaN, _) | (_, Num::NaN) => None,
    }
}
