// Elements with their attributes: their nodes and their flaws.
ghost use Rattle.std.specs.Prelude.{◌≡◌, ◌+◌, ◌≤◌, ◌∷◌, [], Some, None, false, IsTrue, IfOk, OnOk, IfErr, IfSome, slice_get};
ghost use Rattle.std.specs.List.{list_any};
ghost use Rattle.xml_names.specs.Bindings.{all_bindings};
ghost use Rattle.pyx_events.specs.Nodes.{uri_of, attribute_uri, attribute_row, attribute_rows, element_row, element_node, numbered_node};
ghost use Rattle.pyx_events.specs.Numbered.{AreNumbered};
ghost use Rattle.pyx_events.specs.Counted.{same_expanded};
ghost use Rattle.pyx_events.specs.Flaw.{is_unbound, attribute_unbound, repeats, element_flaw};
ghost use Rattle.pyx_events.specs.Answer.{kind_in};
ghost use Rattle.doc_model.specs.declared.flaw.FlawKind.TheVariants.{UnboundPrefix};
ghost use Rattle.name_grammar.specs.Names.{prefix_of};

use crate::declarations::{declarations, is_declaration};
use crate::event::{Event, Events};
use crate::expanded_names::ExpandedNames;
use crate::pending_start::{Attribute, PendingStart};
use doc_model::{FlawKind, Kind, Row};
use lists::List;
use name_grammar::{local, prefix};
use shared_texts::{NumberedText, Shared};
use std::alloc::{AllocError, Global};
use xml_names::{Binding, Scopes};

/// So many attributes are compared each with each: that takes no memory and less time than a set.
const FEW_ATTRIBUTES: usize = 32;

/// Why a start isn't completed.
#[derive(Clone, Copy, Debug, PartialEq, Eq)]
pub enum StartError {
    Flawed(FlawKind),
    Memory,
}

impl From<AllocError> for StartError {
    ghost use Rattle.std.specs.Prelude.{◌≡◌};
    ghost use Rattle.pyx_events.specs.declared.elements.StartError.TheVariants.{Memory};

    ghost from_gives = { λ _ e. e ≡ Memory };

    fn from(_error: AllocError) -> StartError {
        StartError::Memory
    }
}

/// A row with the number of its URI.
#[derive(Drop)]
pub struct NumberedRow {
    pub row: Row,
    pub number: u32,
}

/// An element's attributes, and the numbers of the URIs of the element and then of these.
#[derive(Drop)]
pub struct NumberedRows {
    pub rows: List<Row>,
    pub numbers: List<u32>,
}

fn no_uri(scopes: &Scopes) -> NumberedText
    ensures text { result.text ≡ [] }
    ensures number { slice_get scopes.now.uris result.number ≡ Some result.text }
{
    scopes.numbers_tell_uris();
    NumberedText {
        number: 0,
        text: Shared::empty(),
    }
}

// The URI of a name's prefix, by one look-up; a prefix that isn't empty has to be bound.
fn uri_of(scopes: &Scopes, prefix: &[u8]) -> Result<NumberedText, StartError>
    ensures text { IfOk result (λ it. it.text ≡ uri_of (all_bindings scopes.now.scopes) prefix.now) }
    ensures number { IfOk result (λ it. slice_get scopes.now.uris it.number ≡ Some it.text) }
    ensures good { OnOk result (is_unbound (all_bindings scopes.now.scopes) prefix.now ≡ false) }
    ensures flawed { IfErr result (λ error. IfSome (kind_in error) (λ kind. (kind ≡ UnboundPrefix) × IsTrue (is_unbound (all_bindings scopes.now.scopes) prefix.now))) }
{
    match scopes.find(prefix) {
        Some(found) => Ok(NumberedText {
            number: found.number,
            text: found.uri.share()?,
        }),
        None if prefix.is_empty() => Ok(no_uri(scopes)),
        None => Err(StartError::Flawed(FlawKind::UnboundPrefix)),
    }
}

fn attribute_uri(scopes: &Scopes, prefix: &[u8]) -> Result<NumberedText, StartError>
    ensures text { IfOk result (λ it. it.text ≡ attribute_uri (all_bindings scopes.now.scopes) prefix.now) }
    ensures number { IfOk result (λ it. slice_get scopes.now.uris it.number ≡ Some it.text) }
    ensures good { OnOk result (is_unbound (all_bindings scopes.now.scopes) prefix.now ≡ false) }
    ensures flawed { IfErr result (λ error. IfSome (kind_in error) (λ kind. (kind ≡ UnboundPrefix) × IsTrue (is_unbound (all_bindings scopes.now.scopes) prefix.now))) }
{
    if prefix.is_empty() {
        Ok(no_uri(scopes))
    } else {
        uri_of(scopes, prefix)
    }
}

fn attribute_row(
    alloc: Global,
    scopes: &Scopes,
    depth: u32,
    it: Attribute,
) -> Result<NumberedRow, StartError>
    ensures row { IfOk result (λ made. made.row ≡ attribute_row (all_bindings scopes.now.scopes) depth it) }
    ensures number { IfOk result (λ made. slice_get scopes.now.uris made.number ≡ Some made.row.uri) }
    ensures good { OnOk result (is_unbound (all_bindings scopes.now.scopes) (prefix_of it.name) ≡ false) }
    ensures flawed { IfErr result (λ error. IfSome (kind_in error) (λ kind. (kind ≡ UnboundPrefix) × IsTrue (is_unbound (all_bindings scopes.now.scopes) (prefix_of it.name)))) }
{
    let Attribute { name, value } = it;
    let NumberedText { number, text } = attribute_uri(scopes, prefix(name.as_slice()))?;
    Ok(NumberedRow {
        row: Row {
            kind: Kind::Attribute,
            prefix: List::from_slice(alloc, prefix(name.as_slice()))?,
            uri: text,
            local: List::from_slice(alloc, local(name.as_slice()))?,
            value,
            depth,
        },
        number,
    })
}

// The rows of the attribute lines that declare nothing. Memory for all numbers is taken at once.
fn attribute_rows(
    alloc: Global,
    scopes: &Scopes,
    depth: u32,
    element: &NumberedRow,
    lines: List<Attribute>,
) -> Result<NumberedRows, StartError>
    requires { slice_get scopes.now.uris element.now.number ≡ Some element.now.row.uri }
    ensures rows { IfOk result (λ it. it.rows ≡ attribute_rows (all_bindings scopes.now.scopes) depth lines) }
    ensures numbers { IfOk result (λ it. AreNumbered scopes.now.uris (element.now.row ∷ it.rows) it.numbers) }
    ensures good { OnOk result (list_any (attribute_unbound (all_bindings scopes.now.scopes)) lines ≡ false) }
    ensures flawed { IfErr result (λ error. IfSome (kind_in error) (λ kind. (kind ≡ UnboundPrefix) × IsTrue (list_any (attribute_unbound (all_bindings scopes.now.scopes)) lines))) }
{
    let mut rows = List::new(alloc);
    let mut numbers = List::from_vec(Vec::with_capacity(alloc, lines.len().saturating_add(1))?);
    numbers.push(element.number)?;
    for it in lines.into_vec() {
        if !is_declaration(it.name.as_slice()) {
            let NumberedRow { row, number } = attribute_row(alloc, scopes, depth, it)?;
            rows.push(row)?;
            numbers.push(number)?;
        }
    }
    Ok(NumberedRows { rows, numbers })
}

fn element_row(
    alloc: Global,
    scopes: &Scopes,
    depth: u32,
    name: &[u8],
) -> Result<NumberedRow, StartError>
    ensures row { IfOk result (λ made. made.row ≡ element_row (all_bindings scopes.now.scopes) depth name.now) }
    ensures number { IfOk result (λ made. slice_get scopes.now.uris made.number ≡ Some made.row.uri) }
    ensures good { OnOk result (is_unbound (all_bindings scopes.now.scopes) (prefix_of name.now) ≡ false) }
    ensures flawed { IfErr result (λ error. IfSome (kind_in error) (λ kind. (kind ≡ UnboundPrefix) × IsTrue (is_unbound (all_bindings scopes.now.scopes) (prefix_of name.now)))) }
{
    let NumberedText { number, text } = uri_of(scopes, prefix(name))?;
    Ok(NumberedRow {
        row: Row {
            kind: Kind::Element,
            prefix: List::from_slice(alloc, prefix(name))?,
            uri: text,
            local: List::from_slice(alloc, local(name))?,
            value: List::new(alloc),
            depth,
        },
        number,
    })
}

// Compares no byte of a URI.
#[tactic(auto, using(crate::proofs::Numbered::told_by_numbers))]
fn same_expanded(scopes: &Scopes, row: &Row, number: u32, other: &Row, other_number: u32) -> bool
    requires row { slice_get scopes.now.uris number ≡ Some row.now.uri }
    requires other { slice_get scopes.now.uris other_number ≡ Some other.now.uri }
    ensures { result ≡ same_expanded row.now other.now }
{
    scopes.numbers_tell_uris();
    number == other_number && row.local.as_slice() == other.local.as_slice()
}

#[tactic(auto, using(crate::proofs::Numbered::as_many, crate::proofs::Numbered::numbered_at))]
fn has_expanded(scopes: &Scopes, row: &Row, number: u32, rows: &[Row], numbers: &[u32]) -> bool
    requires row { slice_get scopes.now.uris number ≡ Some row.now.uri }
    requires rows { AreNumbered scopes.now.uris rows.now numbers.now }
    ensures { result ≡ list_any (same_expanded row.now) rows.now }
{
    for i in 0..rows.len() {
        if same_expanded(scopes, row, number, &rows[i], numbers[i]) {
            return true;
        }
    }
    false
}

// Whether two rows have one expanded name, each compared with each.
#[tactic(auto, using(crate::proofs::Numbered::as_many, crate::proofs::Numbered::numbered_at, crate::proofs::Numbered::numbered_from))]
fn few_repeat(scopes: &Scopes, rows: &[Row], numbers: &[u32]) -> bool
    requires { AreNumbered scopes.now.uris rows.now numbers.now }
    ensures { result ≡ repeats rows.now }
{
    for i in 0..rows.len() {
        if has_expanded(
            scopes,
            &rows[i],
            numbers[i],
            &rows[i + 1..],
            &numbers[i + 1..],
        ) {
            return true;
        }
    }
    false
}

// Whether two rows have one expanded name, found in a set of those before. Fails only for want of memory.
#[tactic(auto, using(crate::proofs::Numbered::as_many, crate::proofs::Numbered::numbered_at))]
fn many_repeat(
    alloc: Global,
    scopes: &Scopes,
    rows: &[Row],
    numbers: &[u32],
) -> Result<bool, AllocError>
    requires { AreNumbered scopes.now.uris rows.now numbers.now }
    ensures { IfOk result (λ repeated. repeated ≡ repeats rows.now) }
{
    scopes.numbers_tell_uris();
    let mut names = ExpandedNames::new(alloc);
    for i in 0..rows.len() {
        if !names.add(alloc, numbers[i], rows[i].local.as_slice())? {
            return Ok(true);
        }
    }
    Ok(false)
}

// Whether two rows have one expanded name. Costs their local names and the logarithm of their count.
fn repeats(
    alloc: Global,
    scopes: &Scopes,
    rows: &[Row],
    numbers: &[u32],
) -> Result<bool, AllocError>
    requires { AreNumbered scopes.now.uris rows.now numbers.now }
    ensures { IfOk result (λ repeated. repeated ≡ repeats rows.now) }
{
    if rows.len() <= FEW_ATTRIBUTES {
        Ok(few_repeat(scopes, rows, numbers))
    } else {
        many_repeat(alloc, scopes, rows, numbers)
    }
}

// The numbers of the attributes' URIs, which stand behind that of the element's.
#[tactic(auto, using(crate::proofs::Numbered::of_attributes))]
fn attribute_numbers<'a>(
    scopes: &Scopes,
    element: &NumberedRow,
    attributes: &'a NumberedRows,
) -> &'a [u32]
    requires { AreNumbered scopes.now.uris (element.now.row ∷ attributes.now.rows) attributes.now.numbers }
    ensures { AreNumbered scopes.now.uris attributes.now.rows result.now }
{
    &attributes.numbers.as_slice()[1..]
}

// The node of an element's row and attributes.
fn element_node(
    scopes: &Scopes,
    element: NumberedRow,
    attributes: NumberedRows,
    declarations: List<Binding>,
    line: u64,
) -> Event
    requires { AreNumbered scopes.now.uris (element.row ∷ attributes.rows) attributes.numbers }
    ensures { result ≡ numbered_node scopes.now.uris element.row attributes.rows declarations line }
{
    scopes.numbers_tell_uris();
    Event::Node {
        row: element.row,
        attributes: attributes.rows,
        declarations,
        uris: attributes.numbers,
        line,
    }
}

/// The node of an element, or its flaw, names aside. Costs in the order of the bytes of its lines, of
/// the logarithm of what is in scope and of its attributes.
pub fn element_events(
    alloc: Global,
    scopes: &Scopes,
    depth: u32,
    start: PendingStart,
) -> Result<Events, StartError>
    requires { depth ≤ 1000 }
    ensures node { IfOk result (λ events. events ≡ element_node scopes.now.uris (all_bindings scopes.now.scopes) depth start ∷ []) }
    ensures good { OnOk result (element_flaw (all_bindings scopes.now.scopes) depth start ≡ None) }
    ensures flawed { IfErr result (λ error. IfSome (kind_in error) (λ kind. element_flaw (all_bindings scopes.now.scopes) depth start ≡ Some kind)) }
{
    let PendingStart {
        name,
        line,
        attributes: lines,
    } = start;
    let element = element_row(alloc, scopes, depth, name.as_slice())?;
    let declarations = declarations(alloc, lines.as_slice())?;
    let attributes = attribute_rows(alloc, scopes, depth + 1, &element, lines)?;
    if repeats(
        alloc,
        scopes,
        attributes.rows.as_slice(),
        attribute_numbers(scopes, &element, &attributes),
    )? {
        return Err(StartError::Flawed(FlawKind::DuplicateAttr));
    }
    let mut events = List::new(alloc);
    events.push(element_node(scopes, element, attributes, declarations, line))?;
    Ok(events)
}
