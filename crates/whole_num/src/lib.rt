//! The whole-number profile of XPath numbers: arithmetic, comparison, reading and printing.
#![tactic(auto)]

mod arithmetic;
mod number;
mod printing;
mod reading;

pub use arithmetic::{add, compare, div, mul, quotient_is_exact, rem, remainder_is_exact, sub};
pub use number::{GREATEST, Memory, Num, NumFault};
pub use printing::{print, printed_is_read};
pub use reading::{parse, read_by_form};

#[cfg(test)]
mod tests;
