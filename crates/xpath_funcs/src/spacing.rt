ghost use Rattle.std.specs.Prelude.{◌≡◌, ◌++◌, IfOk, OnOk};
ghost use Rattle.whole_num.specs.Text.{is_space};
ghost use Rattle.xpath_funcs.specs.Spaces as spec;

use lists::List;
use std::alloc::Global;
use whole_num::Memory;

/// The words of a text, one space between any two (XPath 1.0, section 4.2). Linear in the text; fails only for want of
/// memory.
pub fn normalize_space(alloc: Global, a: &[u8]) -> Result<List<u8>, Memory>
    ensures { IfOk result (λ text. text ≡ spec.normalized a.now) }
{
    let mut kept = List::new(alloc);
    let mut inside = false;
    for byte in a {
        add(&mut kept, inside, *byte)?;
        inside = !is_space(*byte);
    }
    Ok(kept)
}

// Adds a byte of a word, behind a space if it begins one that isn't the first.
fn add(kept: &mut List<u8>, inside: bool, byte: u8) -> Result<(), Memory>
    ensures { OnOk result (kept.new ≡ kept.old ++ spec.added kept.old inside byte) }
{
    if is_space(byte) {
        return Ok(());
    }
    if !inside && !kept.is_empty() {
        kept.push(b' ')?;
    }
    Ok(kept.push(byte)?)
}

fn is_space(byte: u8) -> bool
    ensures { result ≡ is_space byte }
{
    matches!(byte, b' ' | b'\t' | b'\r' | b'\n')
}
