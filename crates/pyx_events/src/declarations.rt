// What attribute lines declare (Namespaces in XML 1.0, section 3).
ghost use Rattle.std.specs.Prelude.{◌≡◌, IfOk, OnOk, option_map};
ghost use Rattle.xml_names.specs.Bindings.{is_fixed};
ghost use Rattle.pyx_events.specs.Before.{declared_prefix, is_declaration, binding_of, with_uri};
ghost use Rattle.pyx_events.specs.Nodes.{declarations};
ghost use Rattle.pyx_events.specs.Standing.{with_binding};

use crate::pending_start::Attribute;
use lists::List;
use name_grammar::{local, prefix};
use shared_texts::Shared;
use std::alloc::{AllocError, Global};
use xml_names::{Binding, Scopes};

const XML: &[u8] = b"xml";

const XMLNS: &[u8] = b"xmlns";

// The prefix that an attribute line of this name declares.
fn declared_prefix(name: &[u8]) -> Option<&[u8]>
    ensures { option_map (λ it. it.now) result ≡ declared_prefix name.now }
{
    if name == XMLNS {
        return Some(&name[..0]);
    }
    if prefix(name) == XMLNS {
        return Some(local(name));
    }
    None
}

pub fn is_declaration(name: &[u8]) -> bool
    ensures { result ≡ is_declaration name.now }
{
    declared_prefix(name).is_some()
}

// Declarations of `xml` and `xmlns` have no effect.
fn is_fixed(prefix: &[u8]) -> bool
    ensures { result ≡ is_fixed prefix.now }
{
    prefix == XML || prefix == XMLNS
}

fn binding_of(alloc: Global, name: &[u8], value: &[u8]) -> Result<Option<Binding>, AllocError>
    ensures { IfOk result (λ binding. binding ≡ binding_of name.now value.now) }
{
    match declared_prefix(name) {
        Some(prefix) => {
            if is_fixed(prefix) {
                return Ok(None);
            }
            Ok(Some(Binding {
                prefix: List::from_slice(alloc, prefix)?,
                uri: Shared::from_slice(alloc, value)?,
            }))
        }
        None => Ok(None),
    }
}

/// The bindings that attribute lines make, in line order.
pub fn declarations(alloc: Global, lines: &[Attribute]) -> Result<List<Binding>, AllocError>
    ensures { IfOk result (λ made. made ≡ declarations lines.now) }
{
    let mut made = List::new(alloc);
    for it in lines {
        if let Some(binding) = binding_of(alloc, it.name.as_slice(), it.value.as_slice())? {
            made.push(binding)?;
        }
    }
    Ok(made)
}

/// Binds what an attribute line declares in the innermost scope.
pub fn declare(
    alloc: Global,
    scopes: &mut Scopes,
    name: &[u8],
    value: &[u8],
) -> Result<(), AllocError>
    ensures bound { OnOk result (scopes.new.scopes ≡ with_binding (binding_of name.now value.now) scopes.old.scopes) }
    ensures uris { OnOk result (scopes.new.uris ≡ with_uri (binding_of name.now value.now) scopes.old.uris) }
{
    match declared_prefix(name) {
        Some(prefix) => {
            if is_fixed(prefix) {
                return Ok(());
            }
            scopes.bind(alloc, prefix, value)
        }
        None => Ok(()),
    }
}
