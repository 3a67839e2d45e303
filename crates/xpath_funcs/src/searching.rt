//! Parts of texts. A search goes over a text once, whatever it holds.

ghost use Rattle.std.specs.Prelude.{◌≡◌, ◌+◌, ◌≤◌, IfOk, IfSome, length};
ghost use Rattle.xpath_funcs.specs.Searches as spec;

use lists::List;
use memchr::memmem;
use std::alloc::Global;
use whole_num::Memory;

/// Whether a text begins with another (XPath 1.0, section 4.2). Takes no memory.
pub fn starts_with(a: &[u8], b: &[u8]) -> bool
    ensures { result ≡ spec.begins_with a.now b.now }
{
    a.starts_with(b)
}

/// Whether a text holds another. Linear in both; takes no memory.
pub fn contains(a: &[u8], b: &[u8]) -> bool
    ensures { result ≡ spec.contains a.now b.now }
{
    find(a, b).is_some()
}

/// What stands before the first occurrence of another text; empty if there is none. Linear in both; fails only for want
/// of memory.
pub fn substring_before(alloc: Global, a: &[u8], b: &[u8]) -> Result<List<u8>, Memory>
    ensures { IfOk result (λ text. text ≡ spec.before a.now b.now) }
{
    match find(a, b) {
        Some(at) => Ok(List::from_slice(alloc, &a[..at])?),
        None => Ok(List::new(alloc)),
    }
}

/// What stands behind the first occurrence of another text; empty if there is none. Linear in both; fails only for want
/// of memory.
pub fn substring_after(alloc: Global, a: &[u8], b: &[u8]) -> Result<List<u8>, Memory>
    ensures { IfOk result (λ text. text ≡ spec.after a.now b.now) }
{
    match find(a, b) {
        Some(at) => Ok(List::from_slice(alloc, &a[at + b.len()..])?),
        None => Ok(List::new(alloc)),
    }
}

/// Where a text stands first in another.
fn find(a: &[u8], b: &[u8]) -> Option<usize>
    ensures place { result ≡ spec.place_of a.now b.now }
    ensures within { IfSome result (λ at. at + length b.now ≤ length a.now) }
{
    memmem::find(a, b)
}
