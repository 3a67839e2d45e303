// The prefixes with which names are written.
ghost use Rattle.std.specs.Prelude.{◌≡◌, ◌++◌, ℕ, List, IfOk, IsTrue, true, false};
ghost use Rattle.pyx_output.specs.Bytes.{in_force};
ghost use Rattle.pyx_output.specs.Choosing.{choice_of, CanDeclare};
ghost use Rattle.pyx_output.specs.Declaring.{is_xml, asked, binds, has_prefix, declares, Head, element_choice, attribute_choice};
ghost use Rattle.pyx_output.specs.Used.{IsUsed};
ghost use Rattle.xml_names.specs.declared.scopes.Binding.{Binding};

use crate::nest::Nest;
use crate::used::is_used;
use lists::List;
use result_events::Name;
use std::alloc::{AllocError, Global};
use std::collections::BTreeMap;
use xml_names::is_fixed;

/// A prefix, and whether the element declares it for the name's URI.
#[derive(Debug, Drop)]
pub struct Chosen {
    pub prefix: List<u8>,
    pub declares: bool,
}

fn is_xml(name: &Name) -> bool
    ensures { result ≡ is_xml name.now }
{
    name.uri.as_slice() == b"http://www.w3.org/XML/1998/namespace".as_slice()
}

// The prefix that the name asks for.
fn asked(name: &Name) -> &[u8]
    ensures { result.now ≡ asked name.now }
{
    let prefix = name.prefix.as_slice();
    if is_fixed(prefix) {
        &prefix[..0]
    } else {
        prefix
    }
}

fn binds(nest: &Nest, prefix: &[u8], uri: &[u8]) -> bool
    ensures { result ≡ binds (in_force nest.now) prefix.now uri.now }
{
    match nest.resolve(prefix) {
        Some(other) => other.as_slice() == uri,
        None => false,
    }
}

fn as_it_stands(alloc: Global, prefix: &[u8]) -> Result<Chosen, AllocError>
    ensures { IfOk result (λ chosen. chosen ≡ record { prefix = prefix.now; declares = false }) }
{
    Ok(Chosen {
        prefix: List::from_slice(alloc, prefix)?,
        declares: false,
    })
}

fn declaring(alloc: Global, prefix: &[u8]) -> Result<Chosen, AllocError>
    ensures { IfOk result (λ chosen. chosen ≡ record { prefix = prefix.now; declares = true }) }
{
    Ok(Chosen {
        prefix: List::from_slice(alloc, prefix)?,
        declares: true,
    })
}

/// How an element is written that is about to be opened.
pub fn choose_for_element(alloc: Global, nest: &Nest, name: &Name) -> Result<Chosen, AllocError>
    ensures choice { IfOk result (λ chosen. choice_of chosen name.now.uri ≡ element_choice (in_force nest.now) name.now) }
    ensures prefix { IfOk result (λ chosen. chosen.prefix ≡ (element_choice (in_force nest.now) name.now).prefix) }
    ensures declared { IfOk result (λ chosen. CanDeclare chosen) }
{
    if is_xml(name) {
        return as_it_stands(alloc, b"xml");
    }
    if name.uri.is_empty() {
        return if nest.resolve(b"").is_some() {
            declaring(alloc, b"")
        } else {
            as_it_stands(alloc, b"")
        };
    }
    let prefix = asked(name);
    if binds(nest, prefix, name.uri.as_slice()) {
        as_it_stands(alloc, prefix)
    } else {
        declaring(alloc, prefix)
    }
}

/// How an attribute of the innermost element is written, where these prefixes are used in its head.
pub fn choose_for_attribute(
    alloc: Global,
    nest: &mut Nest,
    used: &BTreeMap<Vec<u8>, usize>,
    name: &Name,
) -> Result<Chosen, AllocError>
    ensures kept { nest.new ≡ nest.old }
    ensures declared { IfOk result (λ chosen. CanDeclare chosen) }
    ensures choice { (outer : List Binding) (head : Head) → in_force nest.old ≡ head.own ++ outer → IsUsed used.now head.used → ((prefix : List ℕ) → IsTrue (declares prefix head.own) → IsTrue (has_prefix prefix head.used)) →
        IfOk result (λ chosen. choice_of chosen name.now.uri ≡ attribute_choice outer head name.now) }
{
    if is_xml(name) {
        return as_it_stands(alloc, b"xml");
    }
    if name.uri.is_empty() {
        return as_it_stands(alloc, b"");
    }
    let prefix = asked(name);
    if !prefix.is_empty() {
        if binds(nest, prefix, name.uri.as_slice()) {
            return as_it_stands(alloc, prefix);
        }
        if !is_used(used, prefix) {
            return declaring(alloc, prefix);
        }
    }
    Ok(Chosen {
        prefix: nest.free_prefix(alloc)?,
        declares: true,
    })
}
