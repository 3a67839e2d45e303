ghost use Rattle.std.specs.Prelude.{◌≡◌, ◌+◌, ◌^◌, ◌<◌, ◌++◌, IfOk, OnOk};
ghost use Rattle.xpath_funcs.specs.Substrings as spec;

use crate::characters::continues;
use lists::List;
use std::alloc::Global;
use whole_num::{Memory, Num};

/// The characters at positions from `from` to before `from` and `len` together, or all from `from` on without a
/// length, the first position being 1 (XPath 1.0, section 4.2). The positions are compared as whole numbers of any
/// size; NaN gives none. Linear in the text; fails only for want of memory.
pub fn substring(alloc: Global, a: &[u8], from: Num, len: Option<Num>) -> Result<List<u8>, Memory>
    ensures { IfOk result (λ text. text ≡ spec.substring a.now from len) }
{
    let mut kept = List::new(alloc);
    let mut position = 0;
    for byte in a {
        position = position_of(position, *byte);
        keep(&mut kept, is_at(from, len, position), *byte)?;
    }
    Ok(kept)
}

/// Whether the character at this position is asked for.
fn is_at(from: Num, len: Option<Num>, position: u64) -> bool
    ensures { result ≡ spec.is_at from len position }
{
    match (from, len) {
        (Num::NaN, _) | (_, Some(Num::NaN)) => false,
        (Num::Whole(from), None) => i128::from(from) <= i128::from(position),
        (Num::Whole(from), Some(Num::Whole(len))) => {
            let position = i128::from(position);
            i128::from(from) <= position && position < i128::from(from) + i128::from(len)
        }
    }
}

/// The position of the character of one more byte, behind a byte of the character at this position; 0 is before the
/// first.
fn position_of(position: u64, byte: u8) -> u64
    requires { position + 1 < 2 ^ 64 }
    ensures { result ≡ spec.position_of position byte }
{
    if position == 0 || !continues(byte) {
        position + 1
    } else {
        position
    }
}

fn keep(kept: &mut List<u8>, is_asked: bool, byte: u8) -> Result<(), Memory>
    ensures { OnOk result (kept.new ≡ kept.old ++ spec.kept_byte is_asked byte) }
{
    if is_asked {
        kept.push(byte)?;
    }
    Ok(())
}
