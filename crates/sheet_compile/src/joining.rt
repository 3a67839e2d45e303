//! The stylesheet that elements make.

ghost use Rattle.std.specs.Prelude.{◌≡◌};
ghost use Rattle.sheet_compile.specs.Answers.{Answers};
ghost use Rattle.sheet_compile.specs.Joining as spec;
ghost use Rattle.sheet_compile.specs.Joining.{Joins, Orders};
ghost use Rattle.sheet_compile.specs.Modules.{top_level};

use crate::lines::line_of_global;
use crate::modules::{Module, children_of_first};
use crate::stop::{CompileStop, refused};
use global_order::OrderStop;
use lists::List;
use sheet_ast::{ScopeEntry, Sheet};
use sheet_circles::order_of_globals;
use sheet_elements::SheetKind;
use sheet_making::sheet_of;
use sheet_names::check_names;
use sheet_reading::Item;
use std::alloc::Global;

fn sheet_from(alloc: Global, items: &[Item], scopes: List<ScopeEntry>) -> Result<Sheet, CompileStop>
    ensures { Answers (spec.sheet_from items.now scopes) result }
{
    let names = check_names(alloc, items)?;
    Ok(sheet_of(alloc, &names, items, scopes)?)
}

// A circle is refused at the line of the first global that never becomes ready.
fn stop_of_order(items: &[Item], stop: OrderStop) -> CompileStop
    ensures { result ≡ spec.stop_of_order items.now stop }
{
    match stop {
        OrderStop::Circle(place) => refused(line_of_global(items, place), SheetKind::Circle),
        OrderStop::Memory => CompileStop::Memory,
    }
}

// Refuses a circle of globals.
fn ordered(alloc: Global, items: &[Item], sheet: &Sheet) -> Result<(), CompileStop>
    ensures { Orders items.now sheet.now result }
{
    match order_of_globals(alloc, sheet) {
        Ok(_) => Ok(()),
        Err(stop) => Err(stop_of_order(items, stop)),
    }
}

fn joined(alloc: Global, items: &[Item], scopes: List<ScopeEntry>) -> Result<Sheet, CompileStop>
    ensures { Joins items.now scopes result }
{
    let sheet = sheet_from(alloc, items, scopes)?;
    ordered(alloc, items, &sheet)?;
    Ok(sheet)
}

/// The stylesheet of a module's elements, or their first fault: that of a name in document order (XSLT 1.0, sections 6
/// and 11), or else Circle with the line of the first variable or parameter that never becomes ready (section 11.4).
/// Linear in the elements but for a logarithm for each global. It recurs as deep as elements and expressions are nested.
pub fn join(alloc: Global, source: Module) -> Result<Sheet, CompileStop>
    ensures { Joins (top_level source) source.scopes result }
{
    let Module { root, scopes } = source;
    joined(alloc, children_of_first(root.as_slice()), scopes)
}
