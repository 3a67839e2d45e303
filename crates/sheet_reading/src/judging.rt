//! The elements of a stylesheet, judged in document order.

ghost use Rattle.std.specs.Prelude.{◌≡◌, ◌≤◌, length, OnOk};
ghost use Rattle.sheet_reading.specs.Elements as spec;
ghost use Rattle.sheet_reading.specs.Elements.{judged};
ghost use Rattle.sheet_reading.specs.Judgement.{Answers};

use crate::attributes::{
    allowed, complete, name_of, right_version, supported, valued_once, values,
};
use crate::declaring::{enter, leave};
use crate::placing::{behind_node, filled, is_passed_over, known};
use crate::stop::{ReadStop, refused};
use crate::tree::{Given, Item, Judged};
use lists::List;
use sheet_elements::{Place, SheetKind, Tag, content};
use sheet_source::{Document, Element, Node};
use std::alloc::Global;
use xml_names::Scopes;

/// So many elements may stand in each other.
const LEVELS: u32 = 100;

#[cycle(judging)]
fn item(
    alloc: Global,
    scopes: &mut Scopes,
    levels: u32,
    place: Place,
    node: &Node,
) -> Result<Item, ReadStop>
    requires { 1 ≤ length scopes.old.scopes }
    ensures answers { Answers (spec.item_of (judged levels scopes.old.scopes) place node.now) result }
    ensures scopes { OnOk result (scopes.new.scopes ≡ scopes.old.scopes) }
{
    match node {
        Node::Text(text) => Ok(Item::Text(List::from_slice(alloc, text.as_slice())?)),
        Node::Element(element) => element_item(alloc, scopes, levels, place, element),
    }
}

#[cycle(judging)]
fn element_item(
    alloc: Global,
    scopes: &mut Scopes,
    levels: u32,
    place: Place,
    element: &Element,
) -> Result<Item, ReadStop>
    requires { 1 ≤ length scopes.old.scopes }
    ensures answers { Answers (spec.element_item (judged levels scopes.old.scopes) place element.now) result }
    ensures scopes { OnOk result (scopes.new.scopes ≡ scopes.old.scopes) }
{
    Ok(Item::Element(judged(alloc, scopes, levels, place, element)?))
}

#[cycle(judging)]
fn items(
    alloc: Global,
    scopes: &mut Scopes,
    levels: u32,
    first: Place,
    nodes: &[Node],
) -> Result<List<Item>, ReadStop>
    requires { 1 ≤ length scopes.old.scopes }
    ensures answers { Answers (spec.items (judged levels scopes.old.scopes) first nodes.now) result }
    ensures scopes { OnOk result (scopes.new.scopes ≡ scopes.old.scopes) }
{
    let mut items = List::new(alloc);
    let mut place = first;
    for node in nodes {
        if !is_passed_over(place, node) {
            items.push(item(alloc, scopes, levels, place, node)?)?;
            place = behind_node(place, node);
        }
    }
    Ok(items)
}

// The content of an element.
#[cycle(judging)]
#[tactic(auto, unfolding(crate::specs::Elements::contents))]
fn contents(
    alloc: Global,
    scopes: &mut Scopes,
    levels: u32,
    tag: Tag,
    element: &Element,
) -> Result<List<Item>, ReadStop>
    requires { 1 ≤ length scopes.old.scopes }
    ensures answers { Answers (spec.contents (judged levels scopes.old.scopes) tag element.now) result }
    ensures scopes { OnOk result (scopes.new.scopes ≡ scopes.old.scopes) }
{
    items(
        alloc,
        scopes,
        levels,
        content(tag),
        element.children.as_slice(),
    )
}

// The checks of an element that look at no value.
#[tactic(auto, unfolding(crate::specs::Elements::sound))]
fn sound(place: Place, element: &Element) -> Result<Tag, ReadStop>
    ensures { Answers (spec.sound place element.now) result }
{
    let tag = known(place, element)?;
    filled(tag, element)?;
    valued_once(tag, element)?;
    supported(tag, element)?;
    allowed(tag, element)?;
    complete(tag, element)?;
    right_version(tag, element)?;
    Ok(tag)
}

fn made(
    alloc: Global,
    element: &Element,
    tag: Tag,
    given: List<Given>,
    children: List<Item>,
) -> Result<Judged, ReadStop>
    ensures { Answers (spec.made element.now tag given children) result }
{
    Ok(Judged {
        line: element.start.line,
        tag,
        name: name_of(alloc, &element.start.row)?,
        scope: element.start.scope,
        given,
        children,
    })
}

#[cycle(judging)]
fn layer(
    alloc: Global,
    scopes: &mut Scopes,
    levels: u32,
    place: Place,
    element: &Element,
) -> Result<Judged, ReadStop>
    requires { 1 ≤ length scopes.old.scopes }
    ensures answers { Answers (spec.layer (judged levels) scopes.old.scopes place element.now) result }
    ensures scopes { OnOk result (scopes.new.scopes ≡ scopes.old.scopes) }
{
    let tag = sound(place, element)?;
    enter(alloc, scopes, element)?;
    let given = values(alloc, scopes, tag, element)?;
    let children = contents(alloc, scopes, levels, tag, element)?;
    leave(scopes);
    made(alloc, element, tag, given, children)
}

#[cycle(judging)]
fn judged(
    alloc: Global,
    scopes: &mut Scopes,
    levels: u32,
    place: Place,
    element: &Element,
) -> Result<Judged, ReadStop>
    requires { 1 ≤ length scopes.old.scopes }
    ensures answers { Answers (judged levels scopes.old.scopes place element.now) result }
    ensures scopes { OnOk result (scopes.new.scopes ≡ scopes.old.scopes) }
{
    if levels == 0 {
        Err(refused(element.start.line, SheetKind::SheetTooDeep))
    } else {
        layer(alloc, scopes, levels - 1, place, element)
    }
}

/// The root element of a stylesheet with all in it, or the first fault in document order. At one element the checks
/// have this order: SheetTooDeep, NotStylesheet, BadElement, Unsupported, BadAttribute, MissingAttribute, BadVersion, then
/// the values in line order, then what stands in it. Linear in the document, but for the look-ups of prefixes and the
/// copies of their URIs, one for each name in a value that has a prefix. Recurses at most 100 elements deep.
#[tactic(auto, unfolding(crate::specs::Elements::elements_of))]
pub fn read_elements(alloc: Global, document: &Document) -> Result<List<Item>, ReadStop>
    ensures { Answers (spec.elements_of document.now) result }
{
    let mut scopes = Scopes::start(alloc)?;
    items(
        alloc,
        &mut scopes,
        LEVELS,
        Place::Root,
        document.nodes.as_slice(),
    )
}
