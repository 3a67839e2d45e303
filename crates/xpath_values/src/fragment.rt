//! Conversions of fragments of a result tree (XSLT 1.0, section 11.1).

ghost use Rattle.std.specs.Prelude.{◌≡◌, IfOk};
ghost use Rattle.xpath_values.specs.Fragments as spec;

use crate::atom::Atom;
use lists::List;
use result_events::{Events, ResultEvent};
use std::alloc::{AllocError, Global};
use thiserror::Error;
use whole_num::{Memory, Num, NumFault, parse};

/// Why a fragment gives no number.
#[derive(Clone, Copy, Debug, PartialEq, Eq, Error)]
pub enum ConversionError {
    /// Its text gives none.
    #[error("the text gives no number")]
    Fault(NumFault),
    #[error("out of memory")]
    Memory,
}

/// The string of a fragment: its texts, those inside its elements too, one after the other; values of attributes,
/// instructions and comments are no texts. Linear in it; fails only for want of memory.
pub fn fragment_text(_alloc: Global, events: &Events) -> Result<List<u8>, Memory>
    ensures { IfOk result (λ text. text ≡ spec.text_of events.now) }
{
    let mut joined = List::new(_alloc);
    for event in events.as_slice() {
        joined.extend_from_slice(text_in(event))?;
    }
    Ok(joined)
}

fn text_in(event: &ResultEvent) -> &[u8]
    ensures { result.now ≡ spec.text_in event.now }
{
    match event {
        ResultEvent::Text(text) => text.as_slice(),
        _ => &[],
    }
}

/// The number of a fragment, which is that of its string. Linear in it.
pub fn fragment_number(alloc: Global, events: &Events) -> Result<Num, ConversionError>
    ensures { spec.Converts events.now result }
{
    match fragment_text(alloc, events) {
        Ok(text) => parse(text.as_slice()).map_err(ConversionError::Fault),
        Err(Memory) => Err(ConversionError::Memory),
    }
}

/// What a fragment is in a comparison with an atom: true beside a boolean, else its string. Fails only for want of
/// memory.
pub fn fragment_beside(alloc: Global, events: &Events, other: &Atom) -> Result<Atom, Memory>
    ensures { IfOk result (λ atom. atom ≡ spec.beside events.now other.now) }
{
    match other {
        Atom::Truth(_) => Ok(Atom::Truth(true)),
        Atom::Number(_) | Atom::Text(_) => Ok(Atom::Text(fragment_text(alloc, events)?)),
    }
}
