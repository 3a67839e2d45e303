//! Texts to numbers (XPath 1.0, 4.4).

ghost use Rattle.std.specs.Prelude.{◌≡◌, ◌+◌, ◌≤◌, ◌∷◌, [], List, ℕ, Result, true, length, min, IfOk, MatchOption};
ghost use Rattle.std.specs.Char.{is_ascii_digit};
ghost use Rattle.std.specs.List.{prefix_len, list_all, list_any};
ghost use Rattle.std.specs.Str.Parse.{digits_value};
ghost use Rattle.whole_num.specs.Number.{greatest, IsNumber, ranged};
ghost use Rattle.whole_num.specs.Text as spec;
ghost use Rattle.whole_num.specs.Text.{Reads, number_of};
ghost use Rattle.whole_num.specs.declared.number.Num.{Num};
ghost use Rattle.whole_num.specs.declared.number.NumFault.{NumFault};

use crate::arithmetic::in_range;
use crate::number::{GREATEST, Num, NumFault};

fn is_space(b: u8) -> bool
    ensures { result ≡ spec.is_space b }
{
    matches!(b, b' ' | b'\t' | b'\r' | b'\n')
}

/// How many bytes at the front are whitespace.
fn spaces(bytes: &[u8]) -> usize
    ensures value { result ≡ prefix_len spec.is_space bytes.now }
    ensures within { result ≤ length bytes.now }
{
    bytes.iter().take_while(|b| is_space(**b)).count()
}

/// How many bytes at the front are digits.
fn digits(bytes: &[u8]) -> usize
    ensures value { result ≡ prefix_len is_ascii_digit bytes.now }
    ensures within { result ≤ length bytes.now }
{
    bytes.iter().take_while(|b| b.is_ascii_digit()).count()
}

fn first(bytes: &[u8]) -> Option<(u8, &[u8])>
    ensures { MatchOption result (bytes.now ≡ []) (λ r. bytes.now ≡ r.0 ∷ r.1.now) }
{
    match bytes {
        [] => None,
        [b, rest @ ..] => Some((*b, rest)),
    }
}

/// The number that the digits make, or one above the greatest where they make more.
fn magnitude(digits: &[u8]) -> u64
    requires { list_all is_ascii_digit digits.now ≡ true }
    ensures { result ≡ min (digits_value 10 digits.now) (greatest + 1) }
{
    let mut magnitude = 0;
    for d in digits {
        magnitude = (magnitude * 10 + (*d - b'0') as u64).min(GREATEST as u64 + 1);
    }
    magnitude
}

fn has_nonzero(fraction: &[u8]) -> bool
    ensures { result ≡ list_any spec.is_nonzero fraction.now }
{
    fraction.iter().any(|d| *d != b'0')
}

fn with_sign(negative: bool, magnitude: u64) -> Result<Num, NumFault>
    requires { magnitude ≤ greatest + 1 }
    ensures { result ≡ ranged (spec.with_sign negative magnitude) }
{
    let magnitude = magnitude as i64;
    in_range(if negative { -magnitude } else { magnitude })
}

fn value(negative: bool, whole: &[u8], fraction: &[u8]) -> Result<Num, NumFault>
    requires { list_all is_ascii_digit whole.now ≡ true }
    ensures { result ≡ spec.value_of negative whole.now fraction.now }
{
    if has_nonzero(fraction) {
        Err(NumFault::Fraction)
    } else {
        with_sign(negative, magnitude(whole))
    }
}

fn is_blank(bytes: &[u8]) -> bool
    ensures { result ≡ list_all spec.is_space bytes.now }
{
    bytes.iter().all(|b| is_space(*b))
}

/// The value, where only whitespace is left and there was a digit.
fn at_end(negative: bool, whole: &[u8], fraction: &[u8], rest: &[u8]) -> Result<Num, NumFault>
    requires { list_all is_ascii_digit whole.now ≡ true }
    ensures { result ≡ spec.number_at_end negative whole.now fraction.now rest.now }
{
    if is_blank(rest) && whole.len() + fraction.len() > 0 {
        value(negative, whole, fraction)
    } else {
        Ok(Num::NaN)
    }
}

fn from_point(negative: bool, whole: &[u8], rest: &[u8]) -> Result<Num, NumFault>
    requires { list_all is_ascii_digit whole.now ≡ true }
    ensures { result ≡ spec.number_from_point negative whole.now rest.now }
{
    match first(rest) {
        Some((b'.', behind)) => {
            let (fraction, rest) = behind.split_at(digits(behind));
            at_end(negative, whole, fraction, rest)
        }
        Some(_) | None => at_end(negative, whole, &[], rest),
    }
}

fn from_digits(negative: bool, bytes: &[u8]) -> Result<Num, NumFault>
    ensures { result ≡ spec.number_from_digits negative bytes.now }
{
    let (whole, rest) = bytes.split_at(digits(bytes));
    from_point(negative, whole, rest)
}

fn from_sign(bytes: &[u8]) -> Result<Num, NumFault>
    ensures { result ≡ spec.number_from_sign bytes.now }
{
    match first(bytes) {
        Some((b'-', behind)) => from_digits(true, behind),
        Some(_) | None => from_digits(false, bytes),
    }
}

/// The number that a text gives: whitespace, perhaps a `-`, digits that may be followed by `.` and digits, or `.`
/// and digits, and whitespace; NaN where it is none of these. Fraction where a digit behind the point isn't 0, else
/// NumberRange where the number is out of range. Costs O(length of the text) at any length and takes no memory.
pub fn parse(text: &[u8]) -> Result<Num, NumFault>
    ensures value { result ≡ number_of text.now }
    ensures number { IfOk result IsNumber }
{
    let (_, rest) = text.split_at(spaces(text));
    from_sign(rest)
}

/// The calculation gives what the form of the text says, and no other answer does.
pub fn read_by_form()
    ensures reads { (text : List ℕ) → Reads text (number_of text) }
    ensures alone { (text : List ℕ) (r : Result Num NumFault) → Reads text r → r ≡ number_of text }
{}
