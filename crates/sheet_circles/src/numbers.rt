//! The numbers of what is mentioned: the globals in the order of the sheet, then the templates, then the modes.

ghost use Rattle.std.specs.Prelude.{◌≡◌, ◌+◌, ◌++◌, [], ◌∷◌, IfOk};
ghost use Rattle.sheet_graph.specs.Graph.{names_of, template_number};
ghost use Rattle.sheet_graph.specs.Mentions.{slot_mentions, OfTemplate, OfMode};

use lists::List;
use sheet_ast::Sheet;
use std::alloc::AllocError;

// The number of an item behind others. One that no node can bear is answered as want of memory.
fn number_behind(before: usize, place: u32) -> Result<u32, AllocError>
    ensures { IfOk result (λ number. number ≡ before + place) }
{
    let before = u32::try_from(before).map_err(|_| AllocError)?;
    before.checked_add(place).ok_or(AllocError)
}

// A variable. A local is no node: its slot stands behind those of the globals.
pub fn name_variable(
    sheet: &Sheet,
    slot: Option<u32>,
    names: &mut List<u32>,
) -> Result<(), AllocError>
    ensures { IfOk result (λ _. names.new ≡ names.old ++ names_of sheet.now (slot_mentions slot)) }
{
    match slot {
        Some(slot) if (slot as usize) < sheet.globals.len() => names.push(slot),
        _ => Ok(()),
    }
}

// The number of a template.
pub fn number_of_template(sheet: &Sheet, template: u32) -> Result<u32, AllocError>
    ensures { IfOk result (λ number. number ≡ template_number sheet.now template) }
{
    number_behind(sheet.globals.len(), template)
}

// A template that is called.
pub fn name_template(sheet: &Sheet, template: u32, names: &mut List<u32>) -> Result<(), AllocError>
    ensures { IfOk result (λ _. names.new ≡ names.old ++ names_of sheet.now (OfTemplate template ∷ [])) }
{
    names.push(number_of_template(sheet, template)?)
}

// A mode whose templates are applied.
pub fn name_mode(sheet: &Sheet, mode: u32, names: &mut List<u32>) -> Result<(), AllocError>
    ensures { IfOk result (λ _. names.new ≡ names.old ++ names_of sheet.now (OfMode mode ∷ [])) }
{
    let first = number_behind(sheet.globals.len(), 0)?;
    let behind = number_behind(sheet.templates.len(), first)?;
    names.push(number_behind(behind as usize, mode)?)
}
