//! What the bytes of a word tell.

ghost use Rattle.std.specs.Prelude.{◌≡◌, IfOk};
ghost use Rattle.xpath_grammar.specs.Words as words;
ghost use Rattle.std.specs.Prelude.{drop};

use lists::List;
use name_grammar::{local, prefix};
use std::alloc::{AllocError, Global};
use xpath_syntax::NameRef;

fn behind_first(text: &[u8]) -> &[u8]
    ensures { result.now ≡ drop 1 text.now }
{
    match text {
        [] => text,
        [_, rest @ ..] => rest,
    }
}

/// What stands between the quotes of a literal (XPath 1.0, 3.7). Costs O(1).
pub fn quoted(text: &[u8]) -> &[u8]
    ensures { result.now ≡ words.literal_of text.now }
{
    let rest = behind_first(text);
    let (inner, _) = rest.split_at(rest.len().saturating_sub(1));
    inner
}

/// A copy of what stands between the quotes. Fails only for want of memory. Costs O(length of the text).
pub fn literal(alloc: Global, text: &[u8]) -> Result<List<u8>, AllocError>
    ensures { IfOk result (λ bytes. bytes ≡ words.literal_of text.now) }
{
    List::from_slice(alloc, quoted(text))
}

/// A name as it is written: its prefix, which may be empty, and its local name. Fails only for want of memory. Costs
/// O(length of the text).
pub fn name(alloc: Global, text: &[u8]) -> Result<NameRef, AllocError>
    ensures { IfOk result (λ name. name ≡ words.name_of text.now) }
{
    Ok(NameRef {
        prefix: List::from_slice(alloc, prefix(text))?,
        local: List::from_slice(alloc, local(text))?,
        uri: None,
        slot: None,
    })
}

/// The name behind `$`. Costs O(length of the text).
pub(crate) fn variable(alloc: Global, text: &[u8]) -> Result<NameRef, AllocError>
    ensures { IfOk result (λ name. name ≡ words.variable_of text.now) }
{
    name(alloc, behind_first(text))
}

/// The prefix before `:*`, with no local name. Costs O(length of the text).
pub(crate) fn in_prefix(alloc: Global, text: &[u8]) -> Result<NameRef, AllocError>
    ensures { IfOk result (λ name. name ≡ words.in_prefix_of text.now) }
{
    Ok(NameRef {
        prefix: List::from_slice(alloc, prefix(text))?,
        local: List::new(alloc),
        uri: None,
        slot: None,
    })
}
