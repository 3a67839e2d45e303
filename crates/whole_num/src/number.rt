//! Numbers and their faults.

use thiserror::Error;

/// The greatest magnitude of a number, 2^53 - 1.
pub const GREATEST: i64 = 9_007_199_254_740_991;

/// A number: not a number, or a whole number of magnitude at most `GREATEST`. There is one zero.
///
/// No call asks for that bound: each gives what it says for any two values, and a number where they are numbers.
#[derive(Clone, Copy, Debug, PartialEq, Eq)]
pub enum Num {
    /// Not a number.
    NaN,
    /// A whole number.
    Whole(i64),
}

/// Why a calculation or a text gives no number.
#[derive(Clone, Copy, Debug, PartialEq, Eq, Error)]
pub enum NumFault {
    /// The magnitude of the result is above `GREATEST`.
    #[error("the number is out of range")]
    NumberRange,
    /// The result isn't whole.
    #[error("the number is not whole")]
    Fraction,
}

/// Want of memory.
#[derive(Clone, Copy, Debug, PartialEq, Eq, Error)]
#[error("out of memory")]
pub struct Memory;
