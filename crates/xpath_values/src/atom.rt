ghost use Rattle.std.specs.Prelude.{◌≡◌, IfOk};
ghost use Rattle.whole_num.specs.Number.{IsNumber};
ghost use Rattle.xpath_values.specs.Conversions as spec;

use lists::List;
use std::alloc::{AllocError, Global};
use whole_num::{Memory, Num, NumFault, parse, print};

/// A value that is neither a node-set nor a fragment of a result tree (XPath 1.0, section 1).
#[derive(Clone, Debug, Drop, PartialEq, Eq)]
pub enum Atom {
    /// A string, as its bytes.
    Text(List<u8>),
    Number(Num),
    /// A boolean.
    Truth(bool),
}

/// The string of an atom (XPath 1.0, section 4.2). Costs a copy; fails only for want of memory.
pub fn text_of(alloc: Global, a: &Atom) -> Result<List<u8>, Memory>
    ensures { IfOk result (λ text. text ≡ spec.text_of a.now) }
{
    match a {
        Atom::Text(text) => copy_bytes(alloc, text.as_slice()),
        Atom::Number(number) => number_text(alloc, *number),
        Atom::Truth(truth) => copy_bytes(alloc, if *truth { b"true" } else { b"false" }),
    }
}

/// The number of an atom (XPath 1.0, section 4.4): that of a text by its form, with the fault of what the form gives;
/// of a boolean 1 or 0. Linear in the text; takes no memory.
pub fn number_of(a: &Atom) -> Result<Num, NumFault>
    ensures { result ≡ spec.number_of a.now }
{
    match a {
        Atom::Text(text) => parse(text.as_slice()),
        Atom::Number(number) => Ok(*number),
        Atom::Truth(truth) => Ok(Num::Whole(if *truth { 1 } else { 0 })),
    }
}

/// The boolean of an atom (XPath 1.0, section 4.3): a text is true if it isn't empty, a number if it is neither 0 nor
/// NaN. Takes no memory.
pub fn truth_of(a: &Atom) -> bool
    ensures { result ≡ spec.truth_of a.now }
{
    match a {
        Atom::Text(text) => !text.is_empty(),
        Atom::Number(Num::NaN) => false,
        Atom::Number(Num::Whole(number)) => *number != 0,
        Atom::Truth(truth) => *truth,
    }
}

fn copy_bytes(alloc: Global, bytes: &[u8]) -> Result<List<u8>, Memory>
    ensures { IfOk result (λ copy. copy ≡ bytes.now) }
{
    Ok(List::from_slice(alloc, bytes)?)
}

fn number_text(alloc: Global, number: Num) -> Result<List<u8>, Memory>
    ensures { IfOk result (λ text. text ≡ spec.number_text number) }
{
    let mut text = Vec::new(alloc);
    print(alloc, number, &mut text)?;
    Ok(List::from_vec(text))
}
