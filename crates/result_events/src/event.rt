ghost use Rattle.std.specs.Prelude.{◌≡◌, IfOk};

use lists::List;
use std::alloc::{AllocError, Global};

/// An expanded name, with the prefix that it would like to be written with (Namespaces in XML 1.0, section 2.1).
/// Without a namespace the URI is empty.
#[derive(Clone, Debug, Drop, PartialEq, Eq)]
pub struct Name {
    pub prefix: List<u8>,
    pub uri: List<u8>,
    pub local: List<u8>,
}

/// An attribute of a result element.
#[derive(Clone, Debug, Drop, PartialEq, Eq)]
pub struct Attribute {
    pub name: Name,
    pub value: List<u8>,
}

/// What a transformation adds to its result tree (XSLT 1.0, section 7).
#[derive(Clone, Debug, Drop, PartialEq, Eq)]
pub enum ResultEvent {
    /// An element begins.
    Start(Name),
    /// An attribute of the element that began last.
    Attr { name: Name, value: List<u8> },
    Text(List<u8>),
    /// A processing instruction.
    Instruction { target: List<u8>, value: List<u8> },
    Comment(List<u8>),
    /// The innermost open element ends.
    End,
}

/// What a transformation made, in its order.
pub type Events = List<ResultEvent>;

/// A copy of a name. Fails only for want of memory.
pub fn copy_name(alloc: Global, name: &Name) -> Result<Name, AllocError>
    ensures { IfOk result (λ copy. copy ≡ name.now) }
{
    Ok(Name {
        prefix: List::from_slice(alloc, name.prefix.as_slice())?,
        uri: List::from_slice(alloc, name.uri.as_slice())?,
        local: List::from_slice(alloc, name.local.as_slice())?,
    })
}

/// A copy of an event. Fails only for want of memory.
pub fn copy_event(alloc: Global, event: &ResultEvent) -> Result<ResultEvent, AllocError>
    ensures { IfOk result (λ copy. copy ≡ event.now) }
{
    match event {
        ResultEvent::Start(name) => Ok(ResultEvent::Start(copy_name(alloc, name)?)),
        ResultEvent::Attr { name, value } => {
            let name = copy_name(alloc, name)?;
            let value = List::from_slice(alloc, value.as_slice())?;
            Ok(ResultEvent::Attr { name, value })
        }
        ResultEvent::Text(text) => {
            Ok(ResultEvent::Text(List::from_slice(alloc, text.as_slice())?))
        }
        ResultEvent::Instruction { target, value } => {
            let target = List::from_slice(alloc, target.as_slice())?;
            let value = List::from_slice(alloc, value.as_slice())?;
            Ok(ResultEvent::Instruction { target, value })
        }
        ResultEvent::Comment(text) => Ok(ResultEvent::Comment(List::from_slice(
            alloc,
            text.as_slice(),
        )?)),
        ResultEvent::End => Ok(ResultEvent::End),
    }
}

/// A copy of events. Linear in them and their bytes; fails only for want of memory.
pub fn copy_events(alloc: Global, events: &Events) -> Result<Events, AllocError>
    ensures { IfOk result (λ copy. copy ≡ events.now) }
{
    let mut copy = List::new(alloc);
    for event in events.as_slice() {
        copy.push(copy_event(alloc, event)?)?;
    }
    Ok(copy)
}
