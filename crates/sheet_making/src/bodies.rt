//! What elements make, each with the locals in scope before it.

ghost use Rattle.std.specs.Prelude.{◌≡◌, [], IfOk, OnOk};
ghost use Rattle.sheet_making.specs.Instructions as spec;
ghost use Rattle.sheet_making.specs.Instructions.{makes};
ghost use Rattle.sheet_making.specs.Scopes.{scope};

use crate::content::{Content, add, no_content};
use crate::instructions::make;
use crate::made::Made;
use crate::scope::Making;
use lists::List;
use sheet_ast::Instruction;
use sheet_names::{NameSet, enter};
use sheet_reading::{Item, Judged};
use std::alloc::{AllocError, Global};

/// So many elements may stand in each other.
pub const LEVELS: u32 = 100;

#[cycle(bodies)]
fn item(
    alloc: Global,
    levels: u32,
    making: &Making,
    locals: &mut NameSet,
    item: &Item,
) -> Result<Made, AllocError>
    ensures made { IfOk result (λ made. made ≡ spec.item_makes (makes levels) (scope making.now locals.old) item.now) }
    ensures kept { OnOk result (locals.new ≡ locals.old) }
{
    match item {
        Item::Text(text) => {
            let text = List::from_slice(alloc, text.as_slice())?;
            Ok(Made::Does(Instruction::LiteralText(text)))
        }
        Item::Element(element) => makes(alloc, levels, making, locals, element),
    }
}

/// What nodes make, each with the locals in scope before it.
#[cycle(bodies)]
pub fn all(
    alloc: Global,
    levels: u32,
    making: &Making,
    locals: &mut NameSet,
    items: &[Item],
) -> Result<Content, AllocError>
    ensures made { IfOk result (λ content. content ≡ spec.all_make (makes levels) (scope making.now locals.old) items.now) }
    ensures kept { OnOk result (locals.new ≡ locals.old) }
{
    let kept = locals.len();
    let mut content = no_content(alloc);
    for one in items {
        let made = item(alloc, levels, making, locals, one)?;
        add(&mut content, made)?;
        enter(alloc, locals, one)?;
    }
    locals.keep(kept);
    Ok(content)
}

#[cycle(bodies)]
fn layer(
    alloc: Global,
    levels: u32,
    making: &Making,
    locals: &mut NameSet,
    element: &Judged,
) -> Result<Made, AllocError>
    ensures made { IfOk result (λ made. made ≡ spec.layer (makes levels) (scope making.now locals.old) element.now) }
    ensures kept { OnOk result (locals.new ≡ locals.old) }
{
    let content = all(alloc, levels, making, locals, element.children.as_slice())?;
    make(alloc, element.tag, making, locals, element, content)
}

#[cycle(bodies)]
fn makes(
    alloc: Global,
    levels: u32,
    making: &Making,
    locals: &mut NameSet,
    element: &Judged,
) -> Result<Made, AllocError>
    ensures made { IfOk result (λ made. made ≡ makes levels (scope making.now locals.old) element.now) }
    ensures kept { OnOk result (locals.new ≡ locals.old) }
{
    if levels == 0 {
        Ok(Made::Nothing)
    } else {
        layer(alloc, levels - 1, making, locals, element)
    }
}

/// What stands in a top-level element, where no local is in scope.
pub fn content_of(alloc: Global, making: &Making, element: &Judged) -> Result<Content, AllocError>
    ensures { IfOk result (λ content. content ≡ spec.content_of (scope making.now []) element.now) }
{
    let mut locals = NameSet::new(alloc);
    all(
        alloc,
        LEVELS,
        making,
        &mut locals,
        element.children.as_slice(),
    )
}
