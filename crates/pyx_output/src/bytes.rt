// Events written as lines, or as their text alone.
ghost use Rattle.std.specs.Prelude.{◌≡◌, ◌++◌, ◌∷◌, ◌<◌, [], IfOk, OnOk, length};
ghost use Rattle.pyx_output.specs.Bytes.{bytes_of, bytes_of_lines, lines_from, texts_of, end_lines, closed};
ghost use Rattle.pyx_output.specs.Heading.{HasElement, Writing, Stands, Steps, held_in};

use crate::heading::{Heading, attribute, begin};
use crate::nest::Nest;
use lists::List;
use pyx_lines::{write_comment, write_end, write_instruction, write_text};
use result_events::{Events, ResultEvent};
use std::alloc::{AllocError, Global};

/// The bytes of events: by the method text the texts one after the other, else a line for each start, end, text,
/// instruction and comment, with an element's declarations and attributes behind its start. Names are written
/// with as few declarations as their prefixes allow (Namespaces in XML 1.0, sections 3 to 6). An attribute that
/// doesn't stand with its element's start, and an end where none is open, write nothing. Fails only for want of
/// memory. Linear in the bytes, with the logarithm of the bindings in scope for each name.
pub fn bytes_of(alloc: Global, text_method: bool, events: &Events) -> Result<List<u8>, AllocError>
    ensures { IfOk result (λ bytes. bytes ≡ bytes_of text_method events.now) }
{
    if text_method {
        texts(alloc, events)
    } else {
        lines(alloc, events)
    }
}

fn texts(alloc: Global, events: &Events) -> Result<List<u8>, AllocError>
    ensures { IfOk result (λ bytes. bytes ≡ texts_of events.now) }
{
    let mut out = List::new(alloc);
    for event in events.as_slice() {
        if let ResultEvent::Text(text) = event {
            out.extend_from_slice(text.as_slice())?;
        }
    }
    Ok(out)
}

fn lines(alloc: Global, events: &Events) -> Result<List<u8>, AllocError>
    ensures { IfOk result (λ bytes. bytes ≡ bytes_of_lines (lines_from [] events.now)) }
{
    let mut out = Vec::new(alloc);
    let mut nest = Nest::start(alloc)?;
    let mut heading = None;
    for event in events.as_slice() {
        heading = step(alloc, &mut out, &mut nest, heading, event)?;
    }
    flush(&mut out, heading)?;
    Ok(List::from_vec(out))
}

// Writes one more event. An element's attribute lines are held until it has declared what they need.
fn step(
    alloc: Global,
    out: &mut Vec<u8>,
    nest: &mut Nest,
    heading: Option<Heading>,
    event: &ResultEvent,
) -> Result<Option<Heading>, AllocError>
    requires { HasElement nest.old heading }
    ensures { (state : Writing) → Stands state nest.old heading → IfOk result (λ next. Steps state out.old.items event.now nest.new next out.new.items) }
{
    match event {
        ResultEvent::Start(name) => {
            flush(out, heading)?;
            let heading = begin(alloc, out, nest, name)?;
            Ok(Some(heading))
        }
        ResultEvent::Attr { name, value } => match heading {
            Some(heading) => {
                let heading = attribute(alloc, out, nest, heading, name, value)?;
                Ok(Some(heading))
            }
            None => Ok(None),
        },
        ResultEvent::Text(text) => {
            flush(out, heading)?;
            write_text(text.as_slice(), out)?;
            Ok(None)
        }
        ResultEvent::Instruction { target, value } => {
            flush(out, heading)?;
            write_instruction(target.as_slice(), value.as_slice(), out)?;
            Ok(None)
        }
        ResultEvent::Comment(text) => {
            flush(out, heading)?;
            write_comment(text.as_slice(), out)?;
            Ok(None)
        }
        ResultEvent::End => {
            flush(out, heading)?;
            finish(alloc, out, nest)?;
            Ok(None)
        }
    }
}

fn flush(out: &mut Vec<u8>, heading: Option<Heading>) -> Result<(), AllocError>
    ensures { OnOk result (out.new.items ≡ out.old.items ++ held_in heading) }
{
    if let Some(heading) = heading {
        let Heading { used: _, mut held } = heading;
        out.append(&mut held)?;
    }
    Ok(())
}

// The innermost element's end line.
fn finish(alloc: Global, out: &mut Vec<u8>, nest: &mut Nest) -> Result<(), AllocError>
    ensures nest { OnOk result (nest.new ≡ closed nest.old) }
    ensures out { OnOk result (out.new.items ≡ out.old.items ++ bytes_of_lines (end_lines nest.old)) }
{
    match nest.close(alloc)? {
        Some(name) => write_end(name.as_slice(), out),
        None => Ok(()),
    }
}
