//! The attributes of an element: which it may have and has to have, and their values.

ghost use Rattle.std.specs.Prelude.{◌≡◌, IfOk};
ghost use Rattle.std.specs.List.{list_all, list_any};
ghost use Rattle.xpath_binding.specs.Names.{resolution};
ghost use Rattle.sheet_elements.specs.Table.{rows};
ghost use Rattle.sheet_reading.specs.Judgement.{Answers, at_line, each};
ghost use Rattle.sheet_reading.specs.Attributes as spec;

use crate::stop::{ReadStop, need, stop_at};
use crate::tree::{Given, Name};
use doc_model::Row;
use lists::List;
use sheet_elements::{
    Kind, Need, Row as TableRow, SheetKind, Tag, Word, is_left_out_attribute, kind_of, rows,
    word_of,
};
use sheet_source::Element;
use sheet_values::{Value, value_of};
use std::alloc::{AllocError, Global};
use xml_names::Scopes;

fn has_name(word: Word, attribute: &Row) -> bool
    ensures { result ≡ spec.has_name word attribute.now }
{
    attribute.uri.as_slice().is_empty() && word_of(attribute.local.as_slice()).is(word)
}

fn has(word: Word, attributes: &[Row]) -> bool
    ensures { result ≡ spec.has word attributes.now }
{
    attributes.iter().any(|attribute| has_name(word, attribute))
}

fn takes_value(tag: Tag) -> bool
    ensures { result ≡ spec.takes_value tag }
{
    matches!(tag, Tag::Variable | Tag::Param | Tag::WithParam)
}

/// Refuses a select beside a body (XSLT 1.0, section 11.2).
#[tactic(auto, unfolding(crate::specs::Attributes::valued_once))]
pub fn valued_once(tag: Tag, element: &Element) -> Result<(), ReadStop>
    ensures { Answers (spec.valued_once tag element.now) result }
{
    let twice = takes_value(tag)
        && has(Word::Select, element.start.attributes.as_slice())
        && !element.children.as_slice().is_empty();
    need(!twice, element.start.line, SheetKind::BadElement)
}

fn is_html(tag: Tag, attribute: &Row) -> bool
    ensures { result ≡ spec.is_html tag attribute.now }
{
    tag.is(Tag::Output)
        && has_name(Word::Method, attribute)
        && attribute.value.as_slice() == b"html".as_slice()
}

fn is_unsupported(tag: Tag, attribute: &Row) -> bool
    ensures { result ≡ spec.is_unsupported tag attribute.now }
{
    is_left_out_attribute(tag, attribute.uri.as_slice(), attribute.local.as_slice())
        || is_html(tag, attribute)
}

fn any_unsupported(tag: Tag, attributes: &[Row]) -> bool
    ensures { result ≡ list_any (spec.is_unsupported tag) attributes.now }
{
    attributes
        .iter()
        .any(|attribute| is_unsupported(tag, attribute))
}

/// Refuses an attribute or a method that is known and not supported.
#[tactic(auto, unfolding(crate::specs::Attributes::supported))]
pub fn supported(tag: Tag, element: &Element) -> Result<(), ReadStop>
    ensures { Answers (spec.supported tag element.now) result }
{
    let test = !any_unsupported(tag, element.start.attributes.as_slice());
    need(test, element.start.line, SheetKind::Unsupported)
}

fn is_allowed(tag: Tag, attribute: &Row) -> bool
    ensures { result ≡ spec.is_allowed tag attribute.now }
{
    kind_of(tag, attribute.uri.as_slice(), attribute.local.as_slice()).is_some()
}

fn are_allowed(tag: Tag, attributes: &[Row]) -> bool
    ensures { result ≡ list_all (spec.is_allowed tag) attributes.now }
{
    attributes
        .iter()
        .all(|attribute| is_allowed(tag, attribute))
}

/// Refuses an attribute that the element may not have.
#[tactic(auto, unfolding(crate::specs::Attributes::allowed))]
pub fn allowed(tag: Tag, element: &Element) -> Result<(), ReadStop>
    ensures { Answers (spec.allowed tag element.now) result }
{
    let test = are_allowed(tag, element.start.attributes.as_slice());
    need(test, element.start.line, SheetKind::BadAttribute)
}

fn is_required(row: &TableRow) -> bool
    ensures { result ≡ spec.is_required row.now }
{
    matches!(row.need, Need::Required)
}

fn is_either(row: &TableRow) -> bool
    ensures { result ≡ spec.is_either row.now }
{
    matches!(row.need, Need::Either)
}

fn is_met(attributes: &[Row], row: &TableRow) -> bool
    ensures { result ≡ spec.is_met attributes.now row.now }
{
    !is_required(row) || has(row.word, attributes)
}

fn is_chosen(attributes: &[Row], row: &TableRow) -> bool
    ensures { result ≡ spec.is_chosen attributes.now row.now }
{
    is_either(row) && has(row.word, attributes)
}

fn has_required(tag: Tag, attributes: &[Row]) -> bool
    ensures { result ≡ list_all (spec.is_met attributes.now) (rows tag) }
{
    rows(tag).iter().all(|row| is_met(attributes, row))
}

fn has_choice(tag: Tag) -> bool
    ensures { result ≡ list_any spec.is_either (rows tag) }
{
    rows(tag).iter().any(|row| is_either(row))
}

fn has_chosen(tag: Tag, attributes: &[Row]) -> bool
    ensures { result ≡ list_any (spec.is_chosen attributes.now) (rows tag) }
{
    rows(tag).iter().any(|row| is_chosen(attributes, row))
}

/// Refuses an element without an attribute that it has to have.
#[tactic(auto, unfolding(crate::specs::Attributes::complete))]
pub fn complete(tag: Tag, element: &Element) -> Result<(), ReadStop>
    ensures { Answers (spec.complete tag element.now) result }
{
    let attributes = element.start.attributes.as_slice();
    let test = has_required(tag, attributes) && (!has_choice(tag) || has_chosen(tag, attributes));
    need(test, element.start.line, SheetKind::MissingAttribute)
}

fn is_other_version(tag: Tag, attribute: &Row) -> bool
    ensures { result ≡ spec.is_other_version tag attribute.now }
{
    tag.is(Tag::Stylesheet)
        && has_name(Word::Version, attribute)
        && attribute.value.as_slice() != b"1.0".as_slice()
}

fn any_other_version(tag: Tag, attributes: &[Row]) -> bool
    ensures { result ≡ list_any (spec.is_other_version tag) attributes.now }
{
    attributes
        .iter()
        .any(|attribute| is_other_version(tag, attribute))
}

/// Refuses a version other than `1.0`.
#[tactic(auto, unfolding(crate::specs::Attributes::right_version))]
pub fn right_version(tag: Tag, element: &Element) -> Result<(), ReadStop>
    ensures { Answers (spec.right_version tag element.now) result }
{
    let test = !any_other_version(tag, element.start.attributes.as_slice());
    need(test, element.start.line, SheetKind::BadVersion)
}

fn kind_or_unused(tag: Tag, attribute: &Row) -> Kind
    ensures { result ≡ spec.kind_or_unused tag attribute.now }
{
    kind_of(tag, attribute.uri.as_slice(), attribute.local.as_slice()).unwrap_or(Kind::Unused)
}

/// A copy of a row's name, which shares its URI. Fails only for want of memory.
pub fn name_of(alloc: Global, row: &Row) -> Result<Name, AllocError>
    ensures { IfOk result (λ name. name ≡ spec.name_of row.now) }
{
    Ok(Name {
        prefix: List::from_slice(alloc, row.prefix.as_slice())?,
        uri: row.uri.share()?,
        local: List::from_slice(alloc, row.local.as_slice())?,
    })
}

#[tactic(auto, unfolding(crate::specs::Attributes::valued))]
fn valued(
    alloc: Global,
    scopes: &Scopes,
    line: u64,
    tag: Tag,
    attribute: &Row,
) -> Result<Value, ReadStop>
    ensures { Answers (spec.valued (resolution scopes.now) line tag attribute.now) result }
{
    match value_of(
        alloc,
        scopes,
        kind_or_unused(tag, attribute),
        attribute.value.as_slice(),
    ) {
        Ok(value) => Ok(value),
        Err(stop) => Err(stop_at(line, stop)),
    }
}

#[tactic(auto, unfolding(crate::specs::Attributes::given))]
fn given(
    alloc: Global,
    scopes: &Scopes,
    line: u64,
    tag: Tag,
    attribute: &Row,
) -> Result<Given, ReadStop>
    ensures { Answers (spec.given (resolution scopes.now) line tag attribute.now) result }
{
    let value = valued(alloc, scopes, line, tag, attribute)?;
    Ok(Given {
        name: name_of(alloc, attribute)?,
        word: word_of(attribute.local.as_slice()),
        value,
    })
}

fn each_given(
    alloc: Global,
    scopes: &Scopes,
    line: u64,
    tag: Tag,
    attributes: &[Row],
) -> Result<List<Given>, ReadStop>
    ensures { Answers (each (spec.given (resolution scopes.now) line tag) attributes.now) result }
{
    let mut all = List::new(alloc);
    for attribute in attributes {
        all.push(given(alloc, scopes, line, tag, attribute)?)?;
    }
    Ok(all)
}

/// The attributes with their values, in line order, or the first fault of a value.
#[tactic(auto, unfolding(crate::specs::Attributes::values))]
pub fn values(
    alloc: Global,
    scopes: &Scopes,
    tag: Tag,
    element: &Element,
) -> Result<List<Given>, ReadStop>
    ensures { Answers (spec.values (resolution scopes.now) tag element.now) result }
{
    each_given(
        alloc,
        scopes,
        element.start.line,
        tag,
        element.start.attributes.as_slice(),
    )
}
