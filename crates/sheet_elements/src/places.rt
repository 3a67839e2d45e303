ghost use Rattle.std.specs.Prelude.{◌≡◌, if◌then◌else◌, Some};
ghost use Rattle.sheet_elements.specs.Content as spec;

use crate::tag::Tag;

/// What may stand next in an element's content.
#[derive(Clone, Copy, Debug, PartialEq, Eq)]
pub enum Place {
    /// The root element.
    Root,
    /// Top-level elements.
    Top,
    /// Parameters, then a body.
    Params,
    /// Sorts, then a body.
    Sorts,
    /// Instructions and text.
    Body,
    /// Sorts and parameters that are handed on, in any order.
    SortsAndParams,
    /// Parameters that are handed on.
    WithParams,
    /// Whens, then at most one otherwise.
    Whens,
    /// Text.
    TextAlone,
    /// No node.
    Nothing,
}

/// What an element's content begins with.
pub fn content(tag: Tag) -> Place
    ensures { result ≡ spec.content tag }
{
    match tag {
        Tag::Stylesheet => Place::Top,
        Tag::Output
        | Tag::StripSpace
        | Tag::PreserveSpace
        | Tag::Sort
        | Tag::ValueOf
        | Tag::CopyOf => Place::Nothing,
        Tag::Template => Place::Params,
        Tag::Variable
        | Tag::Param
        | Tag::WithParam
        | Tag::Copy
        | Tag::Element
        | Tag::Attribute
        | Tag::ProcessingInstruction
        | Tag::Comment
        | Tag::Message
        | Tag::If
        | Tag::When
        | Tag::Otherwise
        | Tag::Literal => Place::Body,
        Tag::ApplyTemplates => Place::SortsAndParams,
        Tag::CallTemplate => Place::WithParams,
        Tag::ForEach => Place::Sorts,
        Tag::Text => Place::TextAlone,
        Tag::Choose => Place::Whens,
    }
}

fn is_instruction(tag: Tag) -> bool
    ensures { result ≡ spec.is_instruction tag }
{
    match tag {
        Tag::Variable
        | Tag::ApplyTemplates
        | Tag::CallTemplate
        | Tag::ForEach
        | Tag::ValueOf
        | Tag::CopyOf
        | Tag::Copy
        | Tag::Element
        | Tag::Attribute
        | Tag::ProcessingInstruction
        | Tag::Comment
        | Tag::Text
        | Tag::Message
        | Tag::If
        | Tag::Choose
        | Tag::Literal => true,
        Tag::Stylesheet
        | Tag::Output
        | Tag::StripSpace
        | Tag::PreserveSpace
        | Tag::Template
        | Tag::Param
        | Tag::WithParam
        | Tag::Sort
        | Tag::When
        | Tag::Otherwise => false,
    }
}

fn behind_instruction(tag: Tag) -> Option<Place>
    ensures { result ≡ spec.behind_instruction tag }
{
    is_instruction(tag).then_some(Place::Body)
}

fn is_top_level(tag: Tag) -> bool
    ensures { result ≡ spec.is_top_level tag }
{
    match tag {
        Tag::Output
        | Tag::StripSpace
        | Tag::PreserveSpace
        | Tag::Template
        | Tag::Variable
        | Tag::Param => true,
        _ => false,
    }
}

fn behind_or_instruction(place: Place, is_part: bool, tag: Tag) -> Option<Place>
    ensures { result ≡ (if is_part then Some place else spec.behind_instruction tag) }
{
    if is_part {
        Some(place)
    } else {
        behind_instruction(tag)
    }
}

fn behind_choice(tag: Tag) -> Option<Place>
    ensures { result ≡ spec.behind Place.Whens tag }
{
    if tag.is(Tag::When) {
        Some(Place::Whens)
    } else {
        tag.is(Tag::Otherwise).then_some(Place::Nothing)
    }
}

/// What may stand behind an element that stands at a place, and None where it may not stand there.
pub fn behind(place: Place, tag: Tag) -> Option<Place>
    ensures { result ≡ spec.behind place tag }
{
    match place {
        Place::Root => tag.is(Tag::Stylesheet).then_some(Place::Nothing),
        Place::Top => is_top_level(tag).then_some(Place::Top),
        Place::Params => behind_or_instruction(Place::Params, tag.is(Tag::Param), tag),
        Place::Sorts => behind_or_instruction(Place::Sorts, tag.is(Tag::Sort), tag),
        Place::Body => behind_instruction(tag),
        Place::SortsAndParams => {
            (tag.is(Tag::Sort) || tag.is(Tag::WithParam)).then_some(Place::SortsAndParams)
        }
        Place::WithParams => tag.is(Tag::WithParam).then_some(Place::WithParams),
        Place::Whens => behind_choice(tag),
        Place::TextAlone | Place::Nothing => None,
    }
}

/// What may stand behind text, and None where none may stand.
pub fn behind_text(place: Place) -> Option<Place>
    ensures { result ≡ spec.behind_text place }
{
    match place {
        Place::Params | Place::Sorts | Place::Body => Some(Place::Body),
        Place::TextAlone => Some(Place::TextAlone),
        Place::Root
        | Place::Top
        | Place::SortsAndParams
        | Place::WithParams
        | Place::Whens
        | Place::Nothing => None,
    }
}

/// Whether a place is one in the root element or in a body, where an element that isn't supported is told from an
/// unknown one.
pub fn tells_left_out(place: Place) -> bool
    ensures { result ≡ spec.tells_left_out place }
{
    match place {
        Place::Top | Place::Params | Place::Sorts | Place::Body => true,
        Place::Root
        | Place::SortsAndParams
        | Place::WithParams
        | Place::Whens
        | Place::TextAlone
        | Place::Nothing => false,
    }
}
