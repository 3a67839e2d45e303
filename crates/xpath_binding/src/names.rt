//! What names are bound to.

ghost use Rattle.std.specs.Prelude.{◌≡◌, ◌<◌, ◌+◌, ◌^◌, ◌++◌, List, length, Some, Ok, IfOk};
ghost use Rattle.xpath_binding.specs.Names as spec;
ghost use Rattle.xpath_binding.specs.Names.{Answers, resolution};
ghost use Rattle.xpath_binding.specs.Places.{last_place};
ghost use Rattle.xpath_binding.specs.Scope.{slot_in};

use crate::error::BindError;
use lists::List;
use std::alloc::Global;
use xml_names::Scopes;
use xpath_syntax::NameRef;

/// The variables that stand where an expression does. Of several of one name the last counts, and locals count before
/// globals, so the innermost local stands last.
#[derive(Drop)]
pub struct VarNames {
    pub globals: List<NameRef>,
    pub locals: List<NameRef>,
}

/// The URI of a prefix, which is empty where there is none.
pub fn uri_of(alloc: Global, scopes: &Scopes, prefix: &[u8]) -> Result<List<u8>, BindError>
    ensures { Answers (spec.uri_of (resolution scopes.now) prefix.now) result }
{
    if prefix.is_empty() {
        return Ok(List::new(alloc));
    }
    match scopes.resolve(prefix) {
        Some(uri) => Ok(List::from_slice(alloc, uri.as_slice())?),
        None => Err(BindError::UnboundPrefix),
    }
}

/// A name with the URI of its prefix.
pub fn bind_name(alloc: Global, name: NameRef, scopes: &Scopes) -> Result<NameRef, BindError>
    ensures { Answers (spec.bound_name (resolution scopes.now) name) result }
{
    let uri = uri_of(alloc, scopes, name.prefix.as_slice())?;
    let mut bound = name;
    bound.uri = Some(uri);
    Ok(bound)
}

fn is_named(variable: &NameRef, uri: &[u8], local: &[u8]) -> bool
    ensures { result ≡ spec.is_named uri.now local.now variable.now }
{
    match &variable.uri {
        None => false,
        Some(own) => own.as_slice() == uri && variable.local.as_slice() == local,
    }
}

/// The last place of a variable in a list.
fn last_place(names: &List<NameRef>, uri: &[u8], local: &[u8]) -> Option<usize>
    ensures { result ≡ last_place (spec.is_named uri.now local.now) names.now }
{
    let mut left = names.len();
    while left > 0 {
        left -= 1;
        if is_named(&names.as_slice()[left], uri, local) {
            return Some(left);
        }
    }
    None
}

// A place that no `u32` has would take more variables than memory has.
fn numbered(before: usize, place: usize) -> Result<u32, BindError>
    ensures { Answers (Ok (before + place)) result }
{
    match before.checked_add(place) {
        Some(place) => match u32::try_from(place) {
            Ok(slot) => Ok(slot),
            Err(_) => Err(BindError::Memory),
        },
        None => Err(BindError::Memory),
    }
}

/// The place of a variable, where globals are numbered first.
pub fn slot_of(vars: &VarNames, uri: &[u8], local: &[u8]) -> Result<u32, BindError>
    ensures { Answers (slot_in vars.now uri.now local.now) result }
{
    if let Some(place) = last_place(&vars.locals, uri, local) {
        return numbered(vars.globals.len(), place);
    }
    match last_place(&vars.globals, uri, local) {
        Some(place) => numbered(0, place),
        None => Err(BindError::UnknownVariable),
    }
}
