//! Names of the sheet, and the numbers of what they name.

ghost use Rattle.std.specs.Prelude.{◌≡◌, suc, option_map, IfOk};
ghost use Rattle.sheet_making.specs.Attributes as spec;

use lists::List;
use sheet_elements::Word;
use sheet_names::{NameSet, Names, first_name, numbered};
use sheet_reading::{Given, Name};
use std::alloc::{AllocError, Global};
use xpath_chains::copy_name;
use xpath_syntax::NameRef;

fn numbered_behind(place: usize) -> Result<u32, AllocError>
    ensures { IfOk result (λ number. number ≡ suc place) }
{
    match place.checked_add(1) {
        Some(number) => numbered(number),
        None => Err(AllocError),
    }
}

/// The name of a literal result element or of its attribute (XSLT 1.0, section 7.1.1).
pub fn bound(alloc: Global, name: &Name) -> Result<NameRef, AllocError>
    ensures { IfOk result (λ made. made ≡ spec.bound name.now) }
{
    Ok(NameRef {
        prefix: List::from_slice(alloc, name.prefix.as_slice())?,
        local: List::from_slice(alloc, name.local.as_slice())?,
        uri: Some(List::from_slice(alloc, name.uri.as_slice())?),
        slot: None,
    })
}

fn no_name(alloc: Global) -> NameRef
    ensures { result ≡ spec.no_name }
{
    NameRef {
        prefix: List::new(alloc),
        local: List::new(alloc),
        uri: Some(List::new(alloc)),
        slot: None,
    }
}

/// The name that an element is given; the first pass lets none be missing.
pub fn name_of(alloc: Global, given: &[Given]) -> Result<NameRef, AllocError>
    ensures { IfOk result (λ name. name ≡ spec.name_of given.now) }
{
    match first_name(Word::Name, given) {
        Some(name) => copy_name(name),
        None => Ok(no_name(alloc)),
    }
}

fn number_from(modes: &NameSet, place: Option<usize>) -> Result<u32, AllocError>
    ensures { IfOk result (λ number. number ≡ spec.number_from modes.now place) }
{
    match place {
        Some(place) => numbered_behind(place),
        None => numbered_behind(modes.len()),
    }
}

/// The number of a mode (XSLT 1.0, section 5.7): 0 where none is given. Those that templates have are numbered from 1; all
/// others have the number behind them, since no template is in one.
pub fn mode_number(
    alloc: Global,
    modes: &NameSet,
    mode: Option<&NameRef>,
) -> Result<u32, AllocError>
    ensures { IfOk result (λ number. number ≡ spec.mode_number modes.now (option_map (λ mode. mode.now) mode.entry)) }
{
    match mode {
        Some(mode) => number_from(modes, modes.place_of(alloc, mode)?),
        None => Ok(0),
    }
}

fn template_at(places: &[usize], name: Option<usize>) -> usize
    ensures { result ≡ spec.template_at places.now name }
{
    match name {
        Some(name) => places.get(name).copied().unwrap_or(0),
        None => 0,
    }
}

/// The place of the template that is called (XSLT 1.0, section 6); it is there by the second pass.
pub fn template_number(alloc: Global, names: &Names, name: &NameRef) -> Result<u32, AllocError>
    ensures { IfOk result (λ number. number ≡ spec.template_number names.now name.now) }
{
    let name = names.templates.names.place_of(alloc, name)?;
    numbered(template_at(names.templates.places.as_slice(), name))
}
