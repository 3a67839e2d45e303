//! Which elements may stand where.

ghost use Rattle.std.specs.Prelude.{◌≡◌};
ghost use Rattle.sheet_reading.specs.Judgement.{Answers};
ghost use Rattle.sheet_reading.specs.Placing as spec;

use crate::stop::{ReadStop, need, refused};
use doc_model::Row;
use sheet_elements::{
    Place, SheetKind, Tag, behind, behind_text, content, is_left_out, is_xsl, tag_of,
    tells_left_out,
};
use sheet_source::{Element, Node};

fn admitted(place: Place, tag: Tag) -> Result<Tag, SheetKind>
    ensures { result ≡ spec.admitted place tag }
{
    if behind(place, tag).is_some() {
        Ok(tag)
    } else {
        Err(SheetKind::BadElement)
    }
}

fn unknown(place: Place, left_out: bool) -> SheetKind
    ensures { result ≡ spec.unknown place left_out }
{
    if left_out && tells_left_out(place) {
        SheetKind::Unsupported
    } else {
        SheetKind::BadElement
    }
}

fn named(place: Place, left_out: bool, tag: Option<Tag>) -> Result<Tag, SheetKind>
    ensures { result ≡ spec.named place left_out tag }
{
    match tag {
        Some(tag) => admitted(place, tag),
        None => Err(unknown(place, left_out)),
    }
}

fn tag_in(place: Place, uri: &[u8], local: &[u8]) -> Result<Tag, SheetKind>
    ensures { result ≡ spec.tag_in place uri.now local.now }
{
    if is_xsl(uri) {
        named(place, is_left_out(local), tag_of(local))
    } else {
        admitted(place, Tag::Literal)
    }
}

fn at_root(tag: Result<Tag, SheetKind>) -> Result<Tag, SheetKind>
    ensures { result ≡ spec.at_root tag }
{
    match tag {
        Ok(tag) => Ok(tag),
        Err(_) => Err(SheetKind::NotStylesheet),
    }
}

fn is_root(place: Place) -> bool
    ensures { result ≡ spec.is_root place }
{
    matches!(place, Place::Root)
}

/// The element that a name is at a place, or why it may not stand there.
#[tactic(auto, unfolding(crate::specs::Placing::tag_at))]
fn tag_at(place: Place, row: &Row) -> Result<Tag, SheetKind>
    ensures { result ≡ spec.tag_at place row.now }
{
    let tag = tag_in(place, row.uri.as_slice(), row.local.as_slice());
    if is_root(place) { at_root(tag) } else { tag }
}

/// The element at a place.
#[tactic(auto, unfolding(crate::specs::Placing::known))]
pub fn known(place: Place, element: &Element) -> Result<Tag, ReadStop>
    ensures { Answers (spec.known place element.now) result }
{
    match tag_at(place, &element.start.row) {
        Ok(tag) => Ok(tag),
        Err(kind) => Err(refused(element.start.line, kind)),
    }
}

fn is_text(node: &Node) -> bool
    ensures { result ≡ spec.is_text node.now }
{
    match node {
        Node::Text(_) => true,
        Node::Element(_) => false,
    }
}

fn has_text(children: &[Node]) -> bool
    ensures { result ≡ spec.has_text children.now }
{
    children.iter().any(|node| is_text(node))
}

/// Refuses text where none may stand.
#[tactic(auto, unfolding(crate::specs::Placing::filled))]
pub fn filled(tag: Tag, element: &Element) -> Result<(), ReadStop>
    ensures { Answers (spec.filled tag element.now) result }
{
    let may_have_text = behind_text(content(tag)).is_some();
    let test = may_have_text || !has_text(element.children.as_slice());
    need(test, element.start.line, SheetKind::BadElement)
}

fn or_nothing(place: Option<Place>) -> Place
    ensures { result ≡ spec.or_nothing place }
{
    place.unwrap_or(Place::Nothing)
}

fn behind_element(place: Place, tag: Result<Tag, SheetKind>) -> Place
    ensures { result ≡ spec.behind_element place tag }
{
    match tag {
        Ok(tag) => or_nothing(behind(place, tag)),
        Err(_) => Place::Nothing,
    }
}

/// What may stand behind a node at a place.
pub fn behind_node(place: Place, node: &Node) -> Place
    ensures { result ≡ spec.behind_node place node.now }
{
    match node {
        Node::Text(_) => or_nothing(behind_text(place)),
        Node::Element(element) => behind_element(place, tag_at(place, &element.start.row)),
    }
}

fn is_top(place: Place) -> bool
    ensures { result ≡ spec.is_top place }
{
    matches!(place, Place::Top)
}

fn is_foreign(row: &Row) -> bool
    ensures { result ≡ spec.is_foreign row.now }
{
    !is_xsl(row.uri.as_slice()) && !row.uri.as_slice().is_empty()
}

/// Whether a node is a top-level element of another namespace, which is passed over (XSLT 1.0, section 2.2).
pub fn is_passed_over(place: Place, node: &Node) -> bool
    ensures { result ≡ spec.is_passed_over place node.now }
{
    match node {
        Node::Text(_) => false,
        Node::Element(element) => is_top(place) && is_foreign(&element.start.row),
    }
}
