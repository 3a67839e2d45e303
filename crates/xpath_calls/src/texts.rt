//! Functions on strings (XPath 1.0, section 4.2).

ghost use Rattle.std.specs.Prelude.{◌≡◌, ◌++◌, map, IfOk, pos};
ghost use Rattle.doc_model.specs.Answers.{Known};
ghost use Rattle.key_sources.specs.Going.{Gives};
ghost use Rattle.whole_num.specs.Number.{ranged};
ghost use Rattle.xpath_calls.specs.Given as given;
ghost use Rattle.xpath_calls.specs.Taken as taken;
ghost use Rattle.xpath_funcs.specs.Spaces.{normalized};
ghost use Rattle.xpath_funcs.specs.Searches as searches;
ghost use Rattle.xpath_funcs.specs.Substrings as substrings;
ghost use Rattle.xpath_funcs.specs.Translating as translating;
ghost use Rattle.xpath_meaning.specs.Calls as calls;
ghost use Rattle.xpath_meaning.specs.Conversions as conversions;
ghost use Rattle.xpath_meaning.specs.Steps.{joined};

use crate::taken::{number_at, number_there, text_at, text_in};
use lists::List;
use std::alloc::{AllocError, Global};
use whole_num::{GREATEST, Memory, Num, NumFault};
use xpath_binding::Function;
use xpath_funcs::{
    contains, normalize_space, starts_with, string_length, substring, substring_after,
    substring_before, translate,
};
use xpath_meaning::EvalStop;
use xpath_nodes::calculated;
use xpath_operations::Operand;
use xpath_values::{Atom, Value};

// What a function on strings gives; any other gives the empty text.
pub(crate) fn by_texts(
    alloc: Global,
    function: Function,
    arguments: &List<Operand>,
) -> Result<Value, EvalStop>
    ensures { Gives (given.by_texts function arguments.now) result }
{
    match function {
        Function::String => copied(alloc, text_at(arguments, 0)),
        Function::StringLength => length_of(text_at(arguments, 0)),
        Function::NormalizeSpace => normalized(alloc, text_at(arguments, 0)),
        Function::Concat => concatenated(alloc, arguments),
        Function::StartsWith => begins_with(text_at(arguments, 0), text_at(arguments, 1)),
        Function::Contains => holds_text(text_at(arguments, 0), text_at(arguments, 1)),
        Function::SubstringBefore => text_before(
            alloc,
            text_at(arguments, 0),
            text_at(arguments, 1),
        ),
        Function::SubstringAfter => text_after(alloc, text_at(arguments, 0), text_at(arguments, 1)),
        Function::Substring => {
            let from = number_at(arguments, 1);
            let length = number_there(arguments, 2);
            part(alloc, text_at(arguments, 0), from, length)
        }
        Function::Translate => {
            let from = text_at(arguments, 1);
            let to = text_at(arguments, 2);
            translated(alloc, text_at(arguments, 0), from, to)
        }
        _ => empty(alloc),
    }
}

pub(crate) fn empty(alloc: Global) -> Result<Value, EvalStop>
    ensures { Gives calls.nothing result }
{
    Ok(Value::Atom(Atom::Text(List::new(alloc))))
}

// A text that was made, as a value.
fn text_made(made: Result<List<u8>, Memory>) -> Result<Value, EvalStop>
    ensures { (bytes : _) → IfOk made (λ text. text ≡ bytes) → Gives (Known (conversions.text bytes)) result }
{
    match made {
        Ok(text) => Ok(Value::Atom(Atom::Text(text))),
        Err(Memory) => Err(EvalStop::Memory),
    }
}

pub(crate) fn truth_value(truth: bool) -> Result<Value, EvalStop>
    ensures { Gives (Known (conversions.truth truth)) result }
{
    Ok(Value::Atom(Atom::Truth(truth)))
}

fn copied(alloc: Global, a: &[u8]) -> Result<Value, EvalStop>
    ensures { Gives (Known (conversions.text a.now)) result }
{
    let text = List::from_slice(alloc, a)?;
    Ok(Value::Atom(Atom::Text(text)))
}

fn length_of(a: &[u8]) -> Result<Value, EvalStop>
    ensures { Gives (calls.length_of a.now) result }
{
    let length = calculated(ranged(string_length(a)))?;
    Ok(Value::Atom(Atom::Number(length)))
}

// A count as a number, or NumberRange where it is out of range.
fn ranged(count: u64) -> Result<Num, NumFault>
    ensures { result ≡ ranged (pos count) }
{
    if count <= GREATEST as u64 {
        Ok(Num::Whole(count as i64))
    } else {
        Err(NumFault::NumberRange)
    }
}

fn normalized(alloc: Global, a: &[u8]) -> Result<Value, EvalStop>
    ensures { Gives (Known (conversions.text (normalized a.now))) result }
{
    text_made(normalize_space(alloc, a))
}

fn concatenated(alloc: Global, arguments: &List<Operand>) -> Result<Value, EvalStop>
    ensures { Gives (Known (conversions.text (joined (map taken.text_in arguments.now)))) result }
{
    let text = joined(alloc, arguments.as_slice())?;
    Ok(Value::Atom(Atom::Text(text)))
}

fn joined(alloc: Global, arguments: &[Operand]) -> Result<List<u8>, AllocError>
    ensures { IfOk result (λ text. text ≡ joined (map taken.text_in arguments.now)) }
{
    let mut text = List::new(alloc);
    for argument in arguments {
        text.extend_from_slice(text_in(argument))?;
    }
    Ok(text)
}

fn begins_with(a: &[u8], b: &[u8]) -> Result<Value, EvalStop>
    ensures { Gives (Known (conversions.truth (searches.begins_with a.now b.now))) result }
{
    truth_value(starts_with(a, b))
}

fn holds_text(a: &[u8], b: &[u8]) -> Result<Value, EvalStop>
    ensures { Gives (Known (conversions.truth (searches.contains a.now b.now))) result }
{
    truth_value(contains(a, b))
}

fn text_before(alloc: Global, a: &[u8], b: &[u8]) -> Result<Value, EvalStop>
    ensures { Gives (Known (conversions.text (searches.before a.now b.now))) result }
{
    text_made(substring_before(alloc, a, b))
}

fn text_after(alloc: Global, a: &[u8], b: &[u8]) -> Result<Value, EvalStop>
    ensures { Gives (Known (conversions.text (searches.after a.now b.now))) result }
{
    text_made(substring_after(alloc, a, b))
}

fn part(alloc: Global, a: &[u8], from: Num, length: Option<Num>) -> Result<Value, EvalStop>
    ensures { Gives (Known (conversions.text (substrings.substring a.now from length))) result }
{
    text_made(substring(alloc, a, from, length))
}

fn translated(alloc: Global, a: &[u8], from: &[u8], to: &[u8]) -> Result<Value, EvalStop>
    ensures { Gives (Known (conversions.text (translating.translated a.now from.now to.now))) result }
{
    text_made(translate(alloc, a, from, to))
}
