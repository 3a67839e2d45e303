ghost use Rattle.std.specs.Prelude.{◌≡◌, option_map, IfOk};
ghost use Rattle.computed_names.specs.Computed as spec;
ghost use Rattle.computed_names.specs.Computed.{Answers};

use crate::stop::NameStop;
use lists::List;
use name_grammar::{is_name, is_ncname, local, prefix};
use result_events::Name;
use sheet_scopes::{ScopeEntry, resolve};
use std::alloc::{AllocError, Global};

/// The name that xsl:element or xsl:attribute computes (XSLT 1.0, sections 7.1.2 and 7.1.3), in the namespace `uri`
/// where one is given, and else in that of its prefix in the scope `at`; an element without a prefix is in the default
/// namespace. `BadName` comes exactly where `name` is no name (Namespaces in XML 1.0, section 4) or, of an attribute,
/// is `xmlns` or has no namespace and the local name `xmlns`; `UnboundPrefix` exactly where it is none of these, no
/// namespace is given and its prefix is unbound. The name keeps its prefix, also where it has no namespace.
pub fn computed_name(
    alloc: Global,
    name: &[u8],
    uri: Option<&[u8]>,
    entries: &[ScopeEntry],
    at: u32,
    attribute: bool,
) -> Result<Name, NameStop>
    ensures { Answers (spec.computed attribute name.now (option_map (λ uri. uri.now) uri.entry) entries.now at) result }
{
    if !is_name(name) || attribute && is_xmlns(name) {
        return Err(NameStop::BadName);
    }
    let prefix = prefix(name);
    match namespace(attribute, prefix, uri, resolve(entries, at, prefix)) {
        Some(uri) => named(alloc, attribute, prefix, local(name), uri),
        None => Err(NameStop::UnboundPrefix),
    }
}

fn is_xmlns(name: &[u8]) -> bool
    ensures { result ≡ spec.is_xmlns name.now }
{
    name == b"xmlns".as_slice()
}

fn namespace<'a>(
    attribute: bool,
    prefix: &[u8],
    uri: Option<&'a [u8]>,
    found: Option<&'a [u8]>,
) -> Option<&'a [u8]>
    ensures { option_map (λ uri. uri.now) result ≡ spec.namespace_of attribute prefix.now (option_map (λ uri. uri.now) uri.entry) (option_map (λ uri. uri.now) found.entry) }
{
    match uri {
        Some(uri) => Some(uri),
        None => uri_of(attribute, prefix, found),
    }
}

fn uri_of<'a>(attribute: bool, prefix: &[u8], found: Option<&'a [u8]>) -> Option<&'a [u8]>
    ensures { option_map (λ uri. uri.now) result ≡ spec.uri_of attribute prefix.now (option_map (λ uri. uri.now) found.entry) }
{
    if !prefix.is_empty() {
        return found;
    }
    match found {
        Some(uri) if !attribute => Some(uri),
        _ => Some(&[]),
    }
}

fn named(
    alloc: Global,
    attribute: bool,
    prefix: &[u8],
    local: &[u8],
    uri: &[u8],
) -> Result<Name, NameStop>
    ensures { Answers (spec.named attribute prefix.now local.now (Some uri.now)) result }
{
    if attribute && uri.is_empty() && is_xmlns(local) {
        return Err(NameStop::BadName);
    }
    Ok(name_of(alloc, prefix, uri, local)?)
}

fn name_of(alloc: Global, prefix: &[u8], uri: &[u8], local: &[u8]) -> Result<Name, AllocError>
    ensures { IfOk result (λ name. name ≡ record { prefix = prefix.now; uri = uri.now; local = local.now }) }
{
    Ok(Name {
        prefix: List::from_slice(alloc, prefix)?,
        uri: List::from_slice(alloc, uri)?,
        local: List::from_slice(alloc, local)?,
    })
}

/// Whether this is the name of a processing instruction that xsl:processing-instruction may make (XSLT 1.0, section
/// 7.3): an NCName, and not `xml` in any case. Linear in the bytes.
pub fn is_target(name: &[u8]) -> bool
    ensures { result ≡ spec.is_target name.now }
{
    is_ncname(name) && !is_xml(name)
}

fn is_xml(name: &[u8]) -> bool
    ensures { result ≡ spec.is_xml name.now }
{
    matches!(name, [b'x' | b'X', b'm' | b'M', b'l' | b'L'])
}
