//! The names of a stylesheet, judged in document order.

ghost use Rattle.std.specs.Prelude.{◌≡◌, [], option_map, IfOk, OnOk};
ghost use Rattle.sheet_names.specs.Declaring.{no_names};
ghost use Rattle.sheet_names.specs.Judging as spec;
ghost use Rattle.sheet_names.specs.Judging.{checked};
ghost use Rattle.sheet_reading.specs.Judgement.{Answers};

use crate::declaring::{
    Names, add_item, add_some, called_name, names_of, no_names, template_name, variable_name,
};
use crate::name_set::NameSet;
use crate::searching::{Sought, given_have};
use sheet_elements::SheetKind;
use sheet_reading::{Item, Judged, ReadStop, need, refused};
use std::alloc::{AllocError, Global};
use xpath_syntax::NameRef;

/// So many elements may stand in each other.
const LEVELS: u32 = 100;

fn repeats(alloc: Global, names: &NameSet, name: Option<&NameRef>) -> Result<bool, AllocError>
    ensures { IfOk result (λ is. is ≡ spec.repeats names.now (option_map (λ name. name.now) name.entry)) }
{
    match name {
        Some(name) => names.has(alloc, name),
        None => Ok(false),
    }
}

fn knows(alloc: Global, names: &NameSet, name: Option<&NameRef>) -> Result<bool, AllocError>
    ensures { IfOk result (λ is. is ≡ spec.knows names.now (option_map (λ name. name.now) name.entry)) }
{
    match name {
        Some(name) => names.has(alloc, name),
        None => Ok(true),
    }
}

#[tactic(auto, unfolding(crate::specs::Judging::once))]
fn once(alloc: Global, locals: &NameSet, element: &Judged) -> Result<(), ReadStop>
    ensures { Answers (spec.once locals.now element.now) result }
{
    let hides = repeats(alloc, locals, variable_name(element))?;
    need(!hides, element.line, SheetKind::DuplicateVariable)
}

#[tactic(auto, unfolding(crate::specs::Judging::target))]
fn target(alloc: Global, names: &Names, element: &Judged) -> Result<(), ReadStop>
    ensures { Answers (spec.target names.now element.now) result }
{
    let known = knows(alloc, &names.templates.names, called_name(element))?;
    need(known, element.line, SheetKind::UnknownTemplate)
}

#[tactic(auto, unfolding(crate::specs::Judging::keys))]
fn keys(alloc: Global, element: &Judged) -> Result<(), ReadStop>
    ensures { Answers (spec.keys element.now) result }
{
    let sought = Sought::Key;
    let has = given_have(alloc, element.given.as_slice(), &sought)?;
    need(!has, element.line, SheetKind::UnknownKey)
}

fn lack(
    alloc: Global,
    names: &Names,
    locals: &NameSet,
    element: &Judged,
) -> Result<bool, AllocError>
    ensures { IfOk result (λ lack. lack ≡ spec.lack names.now locals.now element.now) }
{
    let sought = Sought::Variable {
        globals: &names.globals,
        locals,
    };
    given_have(alloc, element.given.as_slice(), &sought)
}

#[tactic(auto, unfolding(crate::specs::Judging::variables))]
fn variables(
    alloc: Global,
    names: &Names,
    locals: &NameSet,
    element: &Judged,
) -> Result<(), ReadStop>
    ensures { Answers (spec.variables names.now locals.now element.now) result }
{
    let lack = lack(alloc, names, locals, element)?;
    need(!lack, element.line, SheetKind::UnknownVariable)
}

/// Adds the local that a node declares, which is in scope behind it (XSLT 1.0, section 11.5). Fails only for want of memory.
pub fn enter(alloc: Global, locals: &mut NameSet, item: &Item) -> Result<(), AllocError>
    ensures { OnOk result (locals.new ≡ spec.behind locals.old item.now) }
{
    match item {
        Item::Text(_) => Ok(()),
        Item::Element(element) => add_some(alloc, locals, variable_name(element)),
    }
}

#[cycle(judging)]
fn item(
    alloc: Global,
    levels: u32,
    names: &Names,
    locals: &mut NameSet,
    item: &Item,
) -> Result<(), ReadStop>
    ensures answers { Answers (spec.item_of (checked levels names.now) locals.old item.now) result }
    ensures kept { OnOk result (locals.new ≡ locals.old) }
{
    match item {
        Item::Text(_) => Ok(()),
        Item::Element(element) => checked(alloc, levels, names, locals, element),
    }
}

#[cycle(judging)]
fn all(
    alloc: Global,
    levels: u32,
    names: &Names,
    locals: &mut NameSet,
    items: &[Item],
) -> Result<(), ReadStop>
    ensures answers { Answers (spec.all (checked levels names.now) locals.old items.now) result }
    ensures kept { OnOk result (locals.new ≡ locals.old) }
{
    let kept = locals.len();
    for one in items {
        item(alloc, levels, names, locals, one)?;
        enter(alloc, locals, one)?;
    }
    locals.keep(kept);
    Ok(())
}

// The checks of an element that look at nothing in it.
#[tactic(auto, unfolding(crate::specs::Judging::sound))]
fn sound(alloc: Global, names: &Names, locals: &NameSet, element: &Judged) -> Result<(), ReadStop>
    ensures { Answers (spec.sound names.now locals.now element.now) result }
{
    once(alloc, locals, element)?;
    target(alloc, names, element)?;
    keys(alloc, element)?;
    variables(alloc, names, locals, element)
}

#[cycle(judging)]
fn layer(
    alloc: Global,
    levels: u32,
    names: &Names,
    locals: &mut NameSet,
    element: &Judged,
) -> Result<(), ReadStop>
    ensures answers { Answers (spec.layer (checked levels names.now) names.now locals.old element.now) result }
    ensures kept { OnOk result (locals.new ≡ locals.old) }
{
    sound(alloc, names, locals, element)?;
    all(alloc, levels, names, locals, element.children.as_slice())
}

#[cycle(judging)]
fn checked(
    alloc: Global,
    levels: u32,
    names: &Names,
    locals: &mut NameSet,
    element: &Judged,
) -> Result<(), ReadStop>
    ensures answers { Answers (checked levels names.now locals.old element.now) result }
    ensures kept { OnOk result (locals.new ≡ locals.old) }
{
    if levels == 0 {
        Err(refused(element.line, SheetKind::SheetTooDeep))
    } else {
        layer(alloc, levels - 1, names, locals, element)
    }
}

#[tactic(auto, unfolding(crate::specs::Judging::new_template))]
fn new_template(alloc: Global, earlier: &Names, element: &Judged) -> Result<(), ReadStop>
    ensures { Answers (spec.new_template earlier.now element.now) result }
{
    let again = repeats(alloc, &earlier.templates.names, template_name(element))?;
    need(!again, element.line, SheetKind::DuplicateTemplate)
}

#[tactic(auto, unfolding(crate::specs::Judging::new_global))]
fn new_global(alloc: Global, earlier: &Names, element: &Judged) -> Result<(), ReadStop>
    ensures { Answers (spec.new_global earlier.now element.now) result }
{
    let again = repeats(alloc, &earlier.globals, variable_name(element))?;
    need(!again, element.line, SheetKind::DuplicateVariable)
}

#[tactic(auto, unfolding(crate::specs::Judging::top))]
fn top(alloc: Global, names: &Names, earlier: &Names, element: &Judged) -> Result<(), ReadStop>
    ensures { Answers (spec.top names.now earlier.now element.now) result }
{
    new_template(alloc, earlier, element)?;
    new_global(alloc, earlier, element)?;
    let mut locals = NameSet::new(alloc);
    checked(alloc, LEVELS, names, &mut locals, element)
}

fn top_item(alloc: Global, names: &Names, earlier: &Names, item: &Item) -> Result<(), ReadStop>
    ensures { Answers (spec.top_item names.now earlier.now item.now) result }
{
    match item {
        Item::Text(_) => Ok(()),
        Item::Element(element) => top(alloc, names, earlier, element),
    }
}

fn tops(alloc: Global, names: &Names, items: &[Item]) -> Result<(), ReadStop>
    ensures { Answers (spec.tops names.now no_names items.now) result }
{
    let mut earlier = no_names(alloc);
    for item in items {
        top_item(alloc, names, &earlier, item)?;
        add_item(alloc, &mut earlier, item)?;
    }
    Ok(())
}

/// The names that the top-level elements of a stylesheet declare, or the first fault of a name in document order. At one
/// element the checks have this order: DuplicateTemplate (a second template of one name), DuplicateVariable (a second
/// global of one name, or a local that hides a local), UnknownTemplate, UnknownKey, UnknownVariable, and then what stands
/// in it. A variable is known where a global has its name, or a local that stands before it among the elements around it
/// and their earlier siblings. No key is declared yet. SheetTooDeep comes where more than 100 elements stand in each other,
/// which none do that the first pass gives. Takes a time linear in the elements. Recurses at most 100 elements deep.
#[tactic(auto, unfolding(crate::specs::Judging::checked_names))]
pub fn check_names(alloc: Global, items: &[Item]) -> Result<Names, ReadStop>
    ensures { Answers (spec.checked_names items.now) result }
{
    let names = names_of(alloc, items)?;
    tops(alloc, &names, items)?;
    Ok(names)
}
