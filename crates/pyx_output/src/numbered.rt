// The prefixes `ns0`, `ns1` and so on.
ghost use Rattle.std.specs.Prelude.{◌≡◌, ◌<◌, ◌^◌, ℕ, IfOk, Some};
ghost use Rattle.std.specs.Fmt.{decimal};
ghost use Rattle.pyx_output.specs.Numbered.{numbered};

use itoa::Buffer;
use lists::List;
use std::alloc::{AllocError, Global};

/// The prefix with this number.
pub fn numbered(alloc: Global, number: u64) -> Result<List<u8>, AllocError>
    ensures { IfOk result (λ prefix. prefix ≡ numbered number) }
{
    let mut prefix = List::from_slice(alloc, b"ns")?;
    prefix.extend_from_slice(Buffer::new().format(number).as_bytes())?;
    Ok(prefix)
}

/// The number of a prefix that has one; of others, as `ns01`, it may give any.
pub fn number_of(prefix: &[u8]) -> Option<u64>
    ensures { (k : ℕ) → k < 2 ^ 64 → prefix.now ≡ numbered k → result ≡ Some k }
{
    match prefix {
        [b'n', b's', digits @ ..] => read_number(digits),
        _ => None,
    }
}

fn read_number(digits: &[u8]) -> Option<u64>
    ensures { (k : ℕ) → k < 2 ^ 64 → digits.now ≡ decimal k → result ≡ Some k }
{
    match std::str::from_utf8(digits) {
        Ok(text) => text.parse::<u64>().ok(),
        Err(_) => None,
    }
}
