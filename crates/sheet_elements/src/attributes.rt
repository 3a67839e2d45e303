ghost use Rattle.std.specs.Prelude.{◌≡◌, option_map};
ghost use Rattle.sheet_elements.specs.Attributes as spec;

use crate::names::{is_xsl, word_of};
use crate::table::{Kind, Row, rows};
use crate::tag::{Tag, Word};

// The row of an attribute without a namespace.
fn row_of(tag: Tag, word: Word) -> Option<Row>
    ensures { result ≡ spec.row_of tag word }
{
    rows(tag).iter().copied().find(|row| row.word.is(word))
}

/// What the value of an element's attribute is, and None where the element may not have it. An attribute of another
/// namespace has no effect; on a literal element it has.
#[tactic(auto, unfolding(crate::specs::Attributes::kind_of))]
pub fn kind_of(tag: Tag, uri: &[u8], local: &[u8]) -> Option<Kind>
    ensures { result ≡ spec.kind_of tag uri.now local.now }
{
    if is_xsl(uri) {
        return kind_of_xsl(tag, local);
    }
    if is_literal(tag) {
        return Some(Kind::Template);
    }
    if !uri.is_empty() {
        return Some(Kind::Unused);
    }
    match row_of(tag, word_of(local)) {
        Some(row) => Some(row.kind),
        None => None,
    }
}

// Attributes of the namespace itself, which literal elements alone may have (7.1.1).
fn kind_of_xsl(tag: Tag, local: &[u8]) -> Option<Kind>
    ensures { result ≡ spec.kind_of_xsl tag local.now }
{
    let unused = is_literal(tag)
        && (local == b"version".as_slice() || local == b"exclude-result-prefixes".as_slice());
    unused.then_some(Kind::Unused)
}

/// Whether an element is one of the result.
pub fn is_literal(tag: Tag) -> bool
    ensures { result ≡ spec.is_literal tag }
{
    tag.is(Tag::Literal)
}

fn makes_element(tag: Tag) -> bool
    ensures { result ≡ spec.makes_element tag }
{
    tag.is(Tag::Element) || tag.is(Tag::Copy)
}

/// Whether an attribute is known and not supported: sets of attributes and prefixes of extensions.
#[tactic(auto, unfolding(crate::specs::Attributes::is_left_out_attribute))]
pub fn is_left_out_attribute(tag: Tag, uri: &[u8], local: &[u8]) -> bool
    ensures { result ≡ spec.is_left_out_attribute tag uri.now local.now }
{
    if is_literal(tag) {
        is_xsl(uri)
            && (local == b"use-attribute-sets".as_slice()
                || local == b"extension-element-prefixes".as_slice())
    } else {
        makes_element(tag) && uri.is_empty() && local == b"use-attribute-sets".as_slice()
    }
}
