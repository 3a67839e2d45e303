// Events in order: attributes where they may stand and once each, and one text where several meet.
ghost use Rattle.std.specs.Prelude.{◌≡◌, ◌++◌, ◌∷◌, List, IfOk, OnOk};
ghost use Rattle.result_events.specs.Tidy.{event_of, events_of, tidy_of};
ghost use Rattle.result_events.specs.Open.{rest_of, flushed};
ghost use Rattle.result_events.specs.declared.event.ResultEvent.{ResultEvent};
ghost use Rattle.result_events.specs.declared.event.ResultEvent.TheVariants.{Text};

use crate::attributes::Attributes;
use crate::event::{Attribute, Events, Name, ResultEvent, copy_event, copy_name};
use lists::List;
use std::alloc::{AllocError, Global};

/// What the next event may still change.
#[derive(Debug, Drop)]
pub enum Held {
    Nothing,
    /// The attributes of the element that began last.
    Attributes(Attributes),
    Text(List<u8>),
}

/// The events in order. An attribute is kept only where nothing but attributes stands between its
/// element's start and it; of two that have one expanded name the later stands in the earlier one's place;
/// neighbouring texts become one. Fails only for want of memory. Linear in the events and their bytes, but
/// for the attributes of one element: their names cost in addition the logarithm of their count.
pub fn tidy(alloc: Global, events: &Events) -> Result<Events, AllocError>
    ensures { IfOk result (λ tidied. tidied ≡ tidy_of events.now) }
{
    let mut done = List::new(alloc);
    let mut held = Held::Nothing;
    for event in events.as_slice() {
        held = step(alloc, &mut done, held, event)?;
    }
    flush(&mut done, held)?;
    Ok(done)
}

/// The law of tidying: what is tidy stays as it is.
pub fn what_is_tidy_stays()
    ensures { (events : List ResultEvent) → tidy_of (tidy_of events) ≡ tidy_of events }
{}

// Takes one more event.
fn step(
    alloc: Global,
    done: &mut Events,
    held: Held,
    event: &ResultEvent,
) -> Result<Held, AllocError>
    ensures { IfOk result (λ next. (later : List ResultEvent) → done.new ++ rest_of next later ≡ done.old ++ rest_of held (event.now ∷ later)) }
{
    match event {
        ResultEvent::Attr { name, value } => with_attribute(alloc, held, name, value),
        ResultEvent::Text(text) => with_text(alloc, done, held, text),
        ResultEvent::Start(_) => {
            flush(done, held)?;
            done.push(copy_event(alloc, event)?)?;
            Ok(Held::Attributes(Attributes::new(alloc)))
        }
        ResultEvent::Instruction { .. } | ResultEvent::Comment(_) | ResultEvent::End => {
            flush(done, held)?;
            done.push(copy_event(alloc, event)?)?;
            Ok(Held::Nothing)
        }
    }
}

// An attribute where one may stand; elsewhere it is left out.
fn with_attribute(
    alloc: Global,
    held: Held,
    name: &Name,
    value: &List<u8>,
) -> Result<Held, AllocError>
    ensures { IfOk result (λ next. (later : List ResultEvent) → rest_of next later ≡ rest_of held (event_of (record { name = name.now; value = value.now }) ∷ later)) }
{
    match held {
        Held::Attributes(mut attributes) => {
            let name = copy_name(alloc, name)?;
            let value = List::from_slice(alloc, value.as_slice())?;
            attributes.place(alloc, Attribute { name, value })?;
            Ok(Held::Attributes(attributes))
        }
        Held::Text(text) => Ok(Held::Text(text)),
        Held::Nothing => Ok(Held::Nothing),
    }
}

// A text, which goes on with the one before it if there is one.
fn with_text(
    alloc: Global,
    done: &mut Events,
    held: Held,
    text: &List<u8>,
) -> Result<Held, AllocError>
    ensures { IfOk result (λ next. (later : List ResultEvent) → done.new ++ rest_of next later ≡ done.old ++ rest_of held (Text text.now ∷ later)) }
{
    match held {
        Held::Text(mut begun) => {
            begun.extend_from_slice(text.as_slice())?;
            Ok(Held::Text(begun))
        }
        Held::Attributes(attributes) => {
            flush_attributes(done, attributes.into_vec())?;
            Ok(Held::Text(List::from_slice(alloc, text.as_slice())?))
        }
        Held::Nothing => Ok(Held::Text(List::from_slice(alloc, text.as_slice())?)),
    }
}

// Adds what was held.
fn flush(done: &mut Events, held: Held) -> Result<(), AllocError>
    ensures { OnOk result (done.new ≡ done.old ++ flushed held) }
{
    match held {
        Held::Attributes(attributes) => flush_attributes(done, attributes.into_vec()),
        Held::Text(text) => {
            done.push(ResultEvent::Text(text))?;
            Ok(())
        }
        Held::Nothing => Ok(()),
    }
}

fn flush_attributes(done: &mut Events, attributes: Vec<Attribute>) -> Result<(), AllocError>
    ensures { OnOk result (done.new ≡ done.old ++ events_of attributes.items) }
{
    for attribute in attributes {
        let Attribute { name, value } = attribute;
        done.push(ResultEvent::Attr { name, value })?;
    }
    Ok(())
}
