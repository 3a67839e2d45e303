//! The elements of one source.

ghost use Rattle.std.specs.Prelude.{◌≡◌};
ghost use Rattle.sheet_compile.specs.Answers.{Answers};
ghost use Rattle.sheet_compile.specs.Modules as spec;

use crate::stop::CompileStop;
use lists::List;
use sheet_ast::ScopeEntry;
use sheet_reading::{Item, read_elements};
use sheet_source::{Document, read_document};
use std::alloc::Global;

/// What one source gives before names are looked at.
#[derive(Drop)]
pub struct Module {
    /// The root element alone: it is the only node outside of all elements.
    pub root: List<Item>,
    /// The declarations of namespaces, which number the scopes of its elements.
    pub scopes: List<ScopeEntry>,
}

fn children_in(item: &Item) -> &[Item]
    ensures { result.now ≡ spec.children_in item.now }
{
    match item {
        Item::Text(_) => &[],
        Item::Element(element) => element.children.as_slice(),
    }
}

/// What stands in the first of these nodes.
pub fn children_of_first(nodes: &[Item]) -> &[Item]
    ensures { result.now ≡ spec.children_of_first nodes.now }
{
    match nodes {
        [] => &[],
        [first, ..] => children_in(first),
    }
}

fn elements(alloc: Global, document: Document) -> Result<Module, CompileStop>
    ensures { Answers (spec.module_from document) result }
{
    let root = read_elements(alloc, &document)?;
    Ok(Module {
        root,
        scopes: document.scopes,
    })
}

/// The elements of a stylesheet of these bytes, or their first fault: that of the lines, or else that of an element by
/// itself in document order (XSLT 1.0, section 2). Linear in the bytes, but for the logarithm of what is in scope. It
/// recurs at most 100 elements deep.
pub fn read_module(alloc: Global, bytes: &[u8]) -> Result<Module, CompileStop>
    ensures { Answers (spec.module_of bytes.now) result }
{
    let document = read_document(alloc, bytes)?;
    elements(alloc, document)
}
