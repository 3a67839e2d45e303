//! The whole sheet.

ghost use Rattle.std.specs.Prelude.{◌≡◌, [], IfOk};
ghost use Rattle.sheet_making.specs.Sheets as spec;

use crate::scope::Making;
use crate::tops::{globals, last_method, rules, strips, templates};
use lists::List;
use sheet_ast::{ScopeEntry, Sheet};
use sheet_names::Names;
use sheet_reading::Item;
use sheet_sizes::asks_size;
use std::alloc::{AllocError, Global};

#[tactic(auto, unfolding(crate::specs::Sheets::sheet_with))]
fn made(alloc: Global, making: &Making, items: &[Item]) -> Result<Sheet, AllocError>
    ensures { IfOk result (λ sheet. sheet ≡ spec.sheet_with making.now.streams making.now.names.now [] items.now) }
{
    Ok(Sheet {
        rules: rules(alloc, making, items)?,
        templates: templates(alloc, making, items)?,
        globals: globals(alloc, making, items)?,
        keys: List::new(alloc),
        strips: strips(alloc, items)?,
        scopes: List::new(alloc),
        text_method: last_method(items).unwrap_or(false),
    })
}

fn sheet_with(
    alloc: Global,
    streams: bool,
    names: &Names,
    items: &[Item],
) -> Result<Sheet, AllocError>
    ensures { IfOk result (λ sheet. sheet ≡ spec.sheet_with streams names.now [] items.now) }
{
    let making = Making { names, streams };
    made(alloc, &making, items)
}

#[tactic(auto, unfolding(crate::specs::Sheets::marked))]
fn marked(alloc: Global, names: &Names, items: &[Item]) -> Result<Sheet, AllocError>
    ensures { IfOk result (λ sheet. sheet ≡ spec.marked names.now items.now) }
{
    let sheet = sheet_with(alloc, true, names, items)?;
    if asks_size(&sheet) {
        sheet_with(alloc, false, names, items)
    } else {
        Ok(sheet)
    }
}

/// The stylesheet of these top-level elements, which declare these names, with these scopes (XSLT 1.0, section 2.2). The
/// paths of its expressions are marked whose nodes may be taken one by one, unless some expression calls last() outside
/// predicates. Linear in the elements, with a look-up of each name. It recurs at most 100 elements deep. Fails only for
/// want of memory.
pub fn sheet_of(
    alloc: Global,
    names: &Names,
    items: &[Item],
    scopes: List<ScopeEntry>,
) -> Result<Sheet, AllocError>
    ensures { IfOk result (λ sheet. sheet ≡ spec.sheet_of names.now scopes items.now) }
{
    let mut sheet = marked(alloc, names, items)?;
    sheet.scopes = scopes;
    Ok(sheet)
}
