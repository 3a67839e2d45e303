//! Expressions without parts.

ghost use Rattle.std.specs.Prelude.{◌≡◌, option_copied, slice_get};
ghost use Rattle.doc_model.specs.Answers.{Known};
ghost use Rattle.key_sources.specs.Going.{Gives};
ghost use Rattle.whole_num.specs.declared.number.Num.TheVariants as num;
ghost use Rattle.xpath_meaning.specs.Calls as calls;
ghost use Rattle.xpath_meaning.specs.Conversions as conversions;
ghost use Rattle.xpath_meaning.specs.Evaluation.{or_nothing, value_in};
ghost use Rattle.xpath_meaning.specs.Readings.{values_of};

use lists::List;
use std::alloc::Global;
use whole_num::Num;
use xpath_meaning::{Env, EvalStop};
use xpath_nodes::made;
use xpath_values::{Atom, Value, copy_value};

/// The empty text, which a call of no function gives.
pub(crate) fn none(alloc: Global) -> Result<Value, EvalStop>
    ensures { Gives calls.nothing result }
{
    Ok(Value::Atom(Atom::Text(List::new(alloc))))
}

pub(crate) fn text_value(bytes: &List<u8>) -> Result<Value, EvalStop>
    ensures { Gives (Known (conversions.text bytes.now)) result }
{
    let text = bytes.clone()?;
    Ok(Value::Atom(Atom::Text(text)))
}

pub(crate) fn number_value(whole: i64) -> Value
    ensures { result ≡ conversions.number (num.Whole whole) }
{
    Value::Atom(Atom::Number(Num::Whole(whole)))
}

/// A copy of the value of a variable; of a slot that there is not the empty text.
pub(crate) fn variable(alloc: Global, env: &Env, slot: Option<u32>) -> Result<Value, EvalStop>
    ensures { Gives (Known (value_in (values_of env.now) slot)) result }
{
    match slot {
        Some(slot) => value_at(alloc, env, slot as usize),
        None => none(alloc),
    }
}

fn value_at(alloc: Global, env: &Env, slot: usize) -> Result<Value, EvalStop>
    ensures { Gives (Known (or_nothing (slice_get (values_of env.now) slot))) result }
{
    let globals = env.globals.len();
    if slot < globals {
        copied(alloc, env.globals.get(slot))
    } else {
        copied(alloc, env.locals.get(slot - globals))
    }
}

fn copied(alloc: Global, value: Option<&Value>) -> Result<Value, EvalStop>
    ensures { Gives (Known (or_nothing (option_copied value.entry))) result }
{
    match value {
        Some(value) => made(copy_value(alloc, value)),
        None => none(alloc),
    }
}
