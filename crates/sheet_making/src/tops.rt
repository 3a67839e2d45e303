//! The top-level elements.

ghost use Rattle.std.specs.Prelude.{◌≡◌, ◌++◌, map, option_map, suc, IfOk};
ghost use Rattle.std.specs.Option.{option_or};
ghost use Rattle.sheet_making.specs.Sheets as spec;

use crate::attributes::{first_choice, first_tests};
use crate::bodies::content_of;
use crate::instructions::variable;
use crate::rules::add_rules;
use crate::scope::Making;
use lists::List;
use sheet_ast::{Rule, StripRuleDecl, Template};
use sheet_elements::{Tag, Word};
use sheet_names::{NameSet, is_variable, template_name};
use sheet_reading::{Item, Judged};
use sheet_values::NameTest;
use std::alloc::{self, AllocError};
use xpath_chains::copy_name;
use xpath_syntax::NameRef;

fn copy_some(name: Option<&NameRef>) -> Result<Option<NameRef>, AllocError>
    ensures { IfOk result (λ copy. copy ≡ option_map (λ name. name.now) name.entry) }
{
    match name {
        Some(name) => Ok(Some(copy_name(name)?)),
        None => Ok(None),
    }
}

fn template_of(
    alloc: alloc::Global,
    making: &Making,
    element: &Judged,
) -> Result<Template, AllocError>
    ensures { IfOk result (λ template. template ≡ spec.template_of making.now.names.now making.now.streams element.now) }
{
    let content = content_of(alloc, making, element)?;
    Ok(Template {
        name: copy_some(template_name(element))?,
        params: content.variables,
        body: content.body,
        line: element.line,
    })
}

fn add_template(
    alloc: alloc::Global,
    making: &Making,
    element: &Judged,
    all: &mut List<Template>,
) -> Result<(), AllocError>
    ensures { IfOk result (λ _. all.new ≡ all.old ++ spec.template_in making.now.names.now making.now.streams element.now) }
{
    if element.tag.is(Tag::Template) {
        all.push(template_of(alloc, making, element)?)
    } else {
        Ok(())
    }
}

fn add_template_in(
    alloc: alloc::Global,
    making: &Making,
    item: &Item,
    all: &mut List<Template>,
) -> Result<(), AllocError>
    ensures { IfOk result (λ _. all.new ≡ all.old ++ spec.by_element (spec.template_in making.now.names.now making.now.streams) item.now) }
{
    match item {
        Item::Text(_) => Ok(()),
        Item::Element(element) => add_template(alloc, making, element, all),
    }
}

/// The templates, in the order of the sheet.
pub fn templates(
    alloc: alloc::Global,
    making: &Making,
    items: &[Item],
) -> Result<List<Template>, AllocError>
    ensures { IfOk result (λ all. all ≡ spec.templates making.now.names.now making.now.streams items.now) }
{
    let mut all = List::new(alloc);
    for item in items {
        add_template_in(alloc, making, item, &mut all)?;
    }
    Ok(all)
}

// A number that no `u32` has would take more templates than memory has.
fn next(template: u32) -> Result<u32, AllocError>
    ensures { IfOk result (λ next. next ≡ suc template) }
{
    template.checked_add(1).ok_or(AllocError)
}

fn place_by(place: u32, element: &Judged) -> Result<u32, AllocError>
    ensures { IfOk result (λ behind. behind ≡ spec.place_by place element.now) }
{
    if element.tag.is(Tag::Template) {
        next(place)
    } else {
        Ok(place)
    }
}

// The place of the next template.
fn place_behind(place: u32, item: &Item) -> Result<u32, AllocError>
    ensures { IfOk result (λ behind. behind ≡ spec.place_behind place item.now) }
{
    match item {
        Item::Text(_) => Ok(place),
        Item::Element(element) => place_by(place, element),
    }
}

fn add_rules_at(
    alloc: alloc::Global,
    making: &Making,
    place: u32,
    element: &Judged,
    all: &mut List<Rule>,
) -> Result<(), AllocError>
    ensures { IfOk result (λ _. all.new ≡ all.old ++ spec.rules_at making.now.names.now making.now.streams place element.now) }
{
    if element.tag.is(Tag::Template) {
        add_rules(alloc, making, element, place, all)
    } else {
        Ok(())
    }
}

fn add_rules_in(
    alloc: alloc::Global,
    making: &Making,
    place: u32,
    item: &Item,
    all: &mut List<Rule>,
) -> Result<(), AllocError>
    ensures { IfOk result (λ _. all.new ≡ all.old ++ spec.by_element (spec.rules_at making.now.names.now making.now.streams place) item.now) }
{
    match item {
        Item::Text(_) => Ok(()),
        Item::Element(element) => add_rules_at(alloc, making, place, element, all),
    }
}

/// The rules, in the order of the sheet.
pub fn rules(
    alloc: alloc::Global,
    making: &Making,
    items: &[Item],
) -> Result<List<Rule>, AllocError>
    ensures { IfOk result (λ all. all ≡ spec.rules_from making.now.names.now making.now.streams 0 items.now) }
{
    let mut all = List::new(alloc);
    let mut place = 0;
    for item in items {
        add_rules_in(alloc, making, place, item, &mut all)?;
        place = place_behind(place, item)?;
    }
    Ok(all)
}

fn global_of(
    alloc: alloc::Global,
    making: &Making,
    element: &Judged,
) -> Result<sheet_ast::Global, AllocError>
    ensures { IfOk result (λ global. global ≡ spec.global_of making.now.names.now making.now.streams element.now) }
{
    let content = content_of(alloc, making, element)?;
    let locals = NameSet::new(alloc);
    let param = element.tag.is(Tag::Param);
    let made = variable(alloc, param, making, &locals, element, content.body)?;
    Ok(sheet_ast::Global {
        name: made.name,
        value: made.value,
        param,
    })
}

fn add_global(
    alloc: alloc::Global,
    making: &Making,
    element: &Judged,
    all: &mut List<sheet_ast::Global>,
) -> Result<(), AllocError>
    ensures { IfOk result (λ _. all.new ≡ all.old ++ spec.global_in making.now.names.now making.now.streams element.now) }
{
    if is_variable(element.tag) {
        all.push(global_of(alloc, making, element)?)
    } else {
        Ok(())
    }
}

fn add_global_in(
    alloc: alloc::Global,
    making: &Making,
    item: &Item,
    all: &mut List<sheet_ast::Global>,
) -> Result<(), AllocError>
    ensures { IfOk result (λ _. all.new ≡ all.old ++ spec.by_element (spec.global_in making.now.names.now making.now.streams) item.now) }
{
    match item {
        Item::Text(_) => Ok(()),
        Item::Element(element) => add_global(alloc, making, element, all),
    }
}

/// The variables and parameters, in the order of the sheet (XSLT 1.0, section 11.4).
pub fn globals(
    alloc: alloc::Global,
    making: &Making,
    items: &[Item],
) -> Result<List<sheet_ast::Global>, AllocError>
    ensures { IfOk result (λ all. all ≡ spec.globals making.now.names.now making.now.streams items.now) }
{
    let mut all = List::new(alloc);
    for item in items {
        add_global_in(alloc, making, item, &mut all)?;
    }
    Ok(all)
}

fn strip_rule(strip: bool, test: &NameTest) -> Result<StripRuleDecl, AllocError>
    ensures { IfOk result (λ rule. rule ≡ spec.strip_rule strip test.now) }
{
    Ok(StripRuleDecl {
        strip,
        uri: test.uri.clone()?,
        local: test.local.clone()?,
        precedence: 0,
    })
}

fn add_tests(
    strip: bool,
    tests: &[NameTest],
    rules: &mut List<StripRuleDecl>,
) -> Result<(), AllocError>
    ensures { IfOk result (λ _. rules.new ≡ rules.old ++ map (spec.strip_rule strip) tests.now) }
{
    for test in tests {
        rules.push(strip_rule(strip, test)?)?;
    }
    Ok(())
}

fn add_rules_of(
    strip: bool,
    element: &Judged,
    rules: &mut List<StripRuleDecl>,
) -> Result<(), AllocError>
    ensures { IfOk result (λ _. rules.new ≡ rules.old ++ spec.strip_rules strip element.now) }
{
    match first_tests(Word::Elements, element.given.as_slice()) {
        Some(tests) => add_tests(strip, tests.as_slice(), rules),
        None => Ok(()),
    }
}

fn add_strips(element: &Judged, rules: &mut List<StripRuleDecl>) -> Result<(), AllocError>
    ensures { IfOk result (λ _. rules.new ≡ rules.old ++ spec.strips_of element.now) }
{
    if element.tag.is(Tag::StripSpace) {
        add_rules_of(true, element, rules)
    } else if element.tag.is(Tag::PreserveSpace) {
        add_rules_of(false, element, rules)
    } else {
        Ok(())
    }
}

fn add_strips_in(item: &Item, rules: &mut List<StripRuleDecl>) -> Result<(), AllocError>
    ensures { IfOk result (λ _. rules.new ≡ rules.old ++ spec.by_element spec.strips_of item.now) }
{
    match item {
        Item::Text(_) => Ok(()),
        Item::Element(element) => add_strips(element, rules),
    }
}

/// The rules on whitespace, in the order of the sheet (XSLT 1.0, section 3.4).
pub fn strips(alloc: alloc::Global, items: &[Item]) -> Result<List<StripRuleDecl>, AllocError>
    ensures { IfOk result (λ all. all ≡ spec.strips items.now) }
{
    let mut all = List::new(alloc);
    for item in items {
        add_strips_in(item, &mut all)?;
    }
    Ok(all)
}

fn method_of(element: &Judged) -> Option<bool>
    ensures { result ≡ spec.method_of element.now }
{
    if element.tag.is(Tag::Output) {
        first_choice(Word::Method, element.given.as_slice())
    } else {
        None
    }
}

fn method_in(item: &Item) -> Option<bool>
    ensures { result ≡ spec.method_in item.now }
{
    match item {
        Item::Text(_) => None,
        Item::Element(element) => method_of(element),
    }
}

// The method of a later element counts.
fn later(last: Option<bool>, before: Option<bool>) -> Option<bool>
    ensures { result ≡ option_or last before }
{
    match last {
        Some(text) => Some(text),
        None => before,
    }
}

/// Whether the last xsl:output that has a method has the method text (XSLT 1.0, section 16).
pub fn last_method(items: &[Item]) -> Option<bool>
    ensures { result ≡ spec.last_method items.now }
{
    let mut last = None;
    for item in items {
        last = later(method_in(item), last);
    }
    last
}
