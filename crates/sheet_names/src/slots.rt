//! The slots of variables.

ghost use Rattle.std.specs.Prelude.{◌≡◌, ◌+◌, IfOk};
ghost use Rattle.sheet_names.specs.Names.{expanded, place_of};
ghost use Rattle.sheet_names.specs.Slots as spec;

use crate::name_set::NameSet;
use std::alloc::{AllocError, Global};
use xpath_syntax::NameRef;

/// A place as a number of the sheet. One that no `u32` has would take more of a sheet than memory has, and is told as want
/// of memory.
pub fn numbered(place: usize) -> Result<u32, AllocError>
    ensures { IfOk result (λ slot. slot ≡ place) }
{
    match u32::try_from(place) {
        Ok(slot) => Ok(slot),
        Err(_) => Err(AllocError),
    }
}

fn behind(before: usize, place: usize) -> Result<u32, AllocError>
    ensures { IfOk result (λ slot. slot ≡ before + place) }
{
    match before.checked_add(place) {
        Some(place) => numbered(place),
        None => Err(AllocError),
    }
}

fn global_slot(alloc: Global, globals: &NameSet, name: &NameRef) -> Result<Option<u32>, AllocError>
    ensures { IfOk result (λ slot. slot ≡ place_of globals.now (expanded name.now)) }
{
    match globals.place_of(alloc, name)? {
        Some(place) => Ok(Some(numbered(place)?)),
        None => Ok(None),
    }
}

/// The slot of a variable where there are these globals, and these locals in scope: globals are numbered first, and a
/// local hides a global. Takes a time linear in the name. Fails only for want of memory.
pub fn slot_of(
    alloc: Global,
    globals: &NameSet,
    locals: &NameSet,
    name: &NameRef,
) -> Result<Option<u32>, AllocError>
    ensures { IfOk result (λ slot. slot ≡ spec.slot_of globals.now locals.now (expanded name.now)) }
{
    match locals.place_of(alloc, name)? {
        Some(place) => Ok(Some(behind(globals.len(), place)?)),
        None => global_slot(alloc, globals, name),
    }
}
