//! The names that the top-level elements of a stylesheet declare.

ghost use Rattle.std.specs.Prelude.{◌≡◌, ◌+◌, ◌||◌, option_map, IfOk, OnOk};
ghost use Rattle.sheet_names.specs.Declaring as spec;
ghost use Rattle.sheet_names.specs.Names.{with_some};
ghost use Rattle.sheet_names.specs.Values.{given_value};

use crate::name_set::NameSet;
use lists::List;
use sheet_elements::{Tag, Word};
use sheet_reading::{Given, Item, Judged};
use sheet_values::Value;
use std::alloc::{AllocError, Global};
use xpath_syntax::NameRef;

/// The templates of a stylesheet.
#[derive(Drop)]
pub struct Templates {
    /// The names of those that have one, in the order of the sheet.
    pub names: NameSet,
    /// The place of the template of each name among all templates, counted from 0.
    pub places: List<usize>,
    /// How many templates there are.
    pub count: usize,
}

/// The names that the top-level elements of a stylesheet declare.
#[derive(Drop)]
pub struct Names {
    pub templates: Templates,
    /// The variables and parameters, in the order of the sheet.
    pub globals: NameSet,
    /// The modes that templates have, in the order of the sheet.
    pub modes: NameSet,
}

fn name_in(value: &Value) -> Option<&NameRef>
    ensures { option_map (λ name. name.now) result ≡ spec.name_in value.now }
{
    match value {
        Value::Name(name) => Some(name),
        _ => None,
    }
}

fn name_given(word: Word, given: &Given) -> Option<&NameRef>
    ensures { option_map (λ name. name.now) result ≡ given_value spec.name_in word given.now }
{
    if given.word.is(word) {
        name_in(&given.value)
    } else {
        None
    }
}

/// The first name that an attribute of this word has. Takes a time linear in the attributes, and no memory.
pub fn first_name(word: Word, given: &[Given]) -> Option<&NameRef>
    ensures { option_map (λ name. name.now) result ≡ spec.first_name word given.now }
{
    for one in given {
        if let Some(name) = name_given(word, one) {
            return Some(name);
        }
    }
    None
}

fn name_where(test: bool, word: Word, element: &Judged) -> Option<&NameRef>
    ensures { option_map (λ name. name.now) result ≡ spec.name_where test word element.now }
{
    if test {
        first_name(word, element.given.as_slice())
    } else {
        None
    }
}

/// The name that a template has (XSLT 1.0, section 6).
pub fn template_name(element: &Judged) -> Option<&NameRef>
    ensures { option_map (λ name. name.now) result ≡ spec.template_name element.now }
{
    name_where(element.tag.is(Tag::Template), Word::Name, element)
}

/// The name of the template that xsl:call-template calls (XSLT 1.0, section 6).
pub fn called_name(element: &Judged) -> Option<&NameRef>
    ensures { option_map (λ name. name.now) result ≡ spec.called_name element.now }
{
    name_where(element.tag.is(Tag::CallTemplate), Word::Name, element)
}

/// The mode that a template has (XSLT 1.0, section 5.7).
pub fn mode_name(element: &Judged) -> Option<&NameRef>
    ensures { option_map (λ name. name.now) result ≡ spec.mode_name element.now }
{
    name_where(element.tag.is(Tag::Template), Word::Mode, element)
}

/// Whether an element is xsl:variable or xsl:param (XSLT 1.0, section 11).
pub fn is_variable(tag: Tag) -> bool
    ensures { result ≡ spec.is_variable tag }
{
    tag.is(Tag::Variable) || tag.is(Tag::Param)
}

/// The name of a variable or a parameter (XSLT 1.0, section 11).
pub fn variable_name(element: &Judged) -> Option<&NameRef>
    ensures { option_map (λ name. name.now) result ≡ spec.variable_name element.now }
{
    name_where(is_variable(element.tag), Word::Name, element)
}

/// Adds the name that there may be.
pub fn add_some(
    alloc: Global,
    names: &mut NameSet,
    name: Option<&NameRef>,
) -> Result<(), AllocError>
    ensures { OnOk result (names.new ≡ with_some names.old (option_map (λ name. name.now) name.entry)) }
{
    match name {
        Some(name) => names.add(alloc, name),
        None => Ok(()),
    }
}

// A place that no `usize` has would take more templates than memory has.
fn next(count: usize) -> Result<usize, AllocError>
    ensures { IfOk result (λ next. next ≡ count + 1) }
{
    match count.checked_add(1) {
        Some(next) => Ok(next),
        None => Err(AllocError),
    }
}

fn add_named(alloc: Global, templates: &mut Templates, name: &NameRef) -> Result<(), AllocError>
    ensures { OnOk result (templates.new ≡ spec.with_named templates.old name.now) }
{
    if templates.names.has(alloc, name)? {
        return Ok(());
    }
    templates.names.add(alloc, name)?;
    templates.places.push(templates.count)?;
    Ok(())
}

fn add_name(
    alloc: Global,
    templates: &mut Templates,
    name: Option<&NameRef>,
) -> Result<(), AllocError>
    ensures { OnOk result (templates.new ≡ spec.named templates.old (option_map (λ name. name.now) name.entry)) }
{
    match name {
        Some(name) => add_named(alloc, templates, name),
        None => Ok(()),
    }
}

fn add_template(
    alloc: Global,
    templates: &mut Templates,
    element: &Judged,
) -> Result<(), AllocError>
    ensures { OnOk result (templates.new ≡ spec.with_template templates.old element.now) }
{
    if !element.tag.is(Tag::Template) {
        return Ok(());
    }
    add_name(alloc, templates, template_name(element))?;
    templates.count = next(templates.count)?;
    Ok(())
}

fn add_top(alloc: Global, names: &mut Names, element: &Judged) -> Result<(), AllocError>
    ensures { OnOk result (names.new ≡ spec.with_top names.old element.now) }
{
    add_template(alloc, &mut names.templates, element)?;
    add_some(alloc, &mut names.globals, variable_name(element))?;
    add_some(alloc, &mut names.modes, mode_name(element))
}

/// Adds the names that a top-level element declares. Fails only for want of memory.
pub fn add_item(alloc: Global, names: &mut Names, item: &Item) -> Result<(), AllocError>
    ensures { OnOk result (names.new ≡ spec.with_item names.old item.now) }
{
    match item {
        Item::Text(_) => Ok(()),
        Item::Element(element) => add_top(alloc, names, element),
    }
}

/// No names.
pub fn no_names(alloc: Global) -> Names
    ensures { result ≡ spec.no_names }
{
    Names {
        templates: Templates {
            names: NameSet::new(alloc),
            places: List::new(alloc),
            count: 0,
        },
        globals: NameSet::new(alloc),
        modes: NameSet::new(alloc),
    }
}

/// The names that these top-level elements declare: of several of one name the first. Takes a time linear in the
/// attributes of these elements and their names. Fails only for want of memory.
#[tactic(auto, unfolding(crate::specs::Declaring::names_of))]
pub fn names_of(alloc: Global, items: &[Item]) -> Result<Names, AllocError>
    ensures { IfOk result (λ names. names ≡ spec.names_of items.now) }
{
    let mut names = no_names(alloc);
    for item in items {
        add_item(alloc, &mut names, item)?;
    }
    Ok(names)
}
