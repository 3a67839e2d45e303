//! Numbers to text (XPath 1.0, 4.2).

ghost use Rattle.std.specs.Prelude.{◌≡◌, ◌++◌, OnOk, OnErr, Ok};
ghost use Rattle.whole_num.specs.Number.{IsNumber};
ghost use Rattle.whole_num.specs.Text.{text_of, number_of};
ghost use Rattle.whole_num.specs.declared.number.Num.{Num};

use crate::number::{Memory, Num};
use itoa::Buffer;
use std::alloc::{AllocError, Global};

impl From<AllocError> for Memory {
    fn from(_error: AllocError) -> Memory {
        Memory
    }
}

/// Appends the text of a number: `NaN`, or the digits with `-` before those of a negative number.
/// Costs O(length of the text) and its memory; a refusal leaves `into` as it was.
pub fn print(_alloc: Global, n: Num, into: &mut Vec<u8>) -> Result<(), Memory>
    ensures ok { OnOk result (into.new.items ≡ into.old.items ++ text_of n) }
    ensures err { OnErr result (into.new.items ≡ into.old.items) }
{
    match n {
        Num::NaN => into.extend_from_slice(b"NaN")?,
        Num::Whole(whole) => into.extend_from_slice(Buffer::new().format(whole).as_bytes())?,
    }
    Ok(())
}

/// What is printed of a number is read as that number.
pub fn printed_is_read()
    ensures { (n : Num) → IsNumber n → number_of (text_of n) ≡ Ok n }
{}
