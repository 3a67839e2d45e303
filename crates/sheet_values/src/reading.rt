//! What an attribute's value is.

ghost use Rattle.std.specs.Prelude.{◌≡◌, codes};
ghost use Rattle.xpath_binding.specs.Names.{resolution};
ghost use Rattle.sheet_values.specs.Answers.{Answers};
ghost use Rattle.sheet_values.specs.Priorities as priorities;
ghost use Rattle.sheet_values.specs.Values as spec;

use crate::expressions::{expression_of, pattern_of, template_of};
use crate::names::{name_of, name_tests};
use crate::priority::hundredths_of;
use crate::stop::ValueStop;
use crate::value::Value;
use sheet_elements::{Kind, SheetKind};
use std::alloc::Global;
use xml_names::Scopes;

// Whether a value is the second of two that are listed.
fn is_second(first: &[u8], second: &[u8], text: &[u8]) -> Result<bool, ValueStop>
    ensures { Answers (spec.is_second first.now second.now text.now) result }
{
    if text == second {
        Ok(true)
    } else if text == first {
        Ok(false)
    } else {
        Err(ValueStop::Refused(SheetKind::BadAttribute))
    }
}

fn priority(text: &[u8]) -> Result<Value, ValueStop>
    ensures { Answers (spec.or_bad (priorities.hundredths_of text.now)) result }
{
    match hundredths_of(text) {
        Some(hundredths) => Ok(Value::Priority(hundredths)),
        None => Err(ValueStop::Refused(SheetKind::BadAttribute)),
    }
}

fn nothing(text: &[u8]) -> Result<Value, ValueStop>
    ensures { Answers (spec.nothing text.now) result }
{
    if text.is_empty() {
        Ok(Value::Unused)
    } else {
        Err(ValueStop::Refused(SheetKind::BadAttribute))
    }
}

fn read_as(alloc: Global, scopes: &Scopes, kind: Kind, text: &str) -> Result<Value, ValueStop>
    ensures { Answers (spec.read_as (resolution scopes.now) kind text.now) result }
{
    let bytes = text.as_bytes();
    match kind {
        Kind::Version | Kind::Unused => Ok(Value::Unused),
        Kind::Expression => Ok(Value::Expression(expression_of(alloc, scopes, text)?)),
        Kind::Pattern => Ok(Value::Pattern(pattern_of(alloc, scopes, text)?)),
        Kind::Template => Ok(Value::Template(template_of(alloc, scopes, text)?)),
        Kind::Name => Ok(Value::Name(name_of(alloc, scopes, bytes)?)),
        Kind::NameTests => Ok(Value::NameTests(name_tests(alloc, scopes, bytes)?)),
        Kind::Priority => priority(bytes),
        Kind::Method => Ok(Value::IsText(is_second(b"xml", b"text", bytes)?)),
        Kind::DataType => Ok(Value::IsNumber(is_second(b"text", b"number", bytes)?)),
        Kind::Order => Ok(Value::IsDescending(is_second(b"ascending", b"descending", bytes)?)),
        Kind::YesOrNo => Ok(Value::IsYes(is_second(b"no", b"yes", bytes)?)),
        Kind::Nothing => nothing(bytes),
    }
}

/// The value of an attribute, by what its element's table says that it is, or its first fault: BadAttribute where it is
/// none of the values that may stand there, then why it can't be read (Lex, Syntax, FractionLiteral, NumberLimit,
/// ExprTooDeep), then why its names aren't bound, in token order (UnboundPrefix, UnknownFunction, WrongArgs,
/// Unsupported), then VariableInPattern. Bytes that are no UTF-8 are refused as NotUtf8. Costs O(length of the text)
/// steps beside the look-ups of prefixes and the copies of their URIs, one for each name with a prefix.
pub fn value_of(alloc: Global, scopes: &Scopes, kind: Kind, text: &[u8]) -> Result<Value, ValueStop>
    ensures { Answers (spec.value_of (resolution scopes.now) kind text.now) result }
{
    match str::from_utf8(text) {
        Ok(text) => read_as(alloc, scopes, kind, text),
        Err(_) => Err(ValueStop::Refused(SheetKind::NotUtf8)),
    }
}
