//! Functions that see no document.

ghost use Rattle.std.specs.Prelude.{◌≡◌, [], ◌∷◌};
ghost use Rattle.doc_model.specs.Answers.{Known};
ghost use Rattle.key_sources.specs.Going.{Gives};
ghost use Rattle.xpath_calls.specs.Given as given;
ghost use Rattle.xpath_meaning.specs.Calls as calls;
ghost use Rattle.xpath_meaning.specs.Conversions as conversions;
ghost use Rattle.xpath_meaning.specs.Functions as functions;
ghost use Rattle.xpath_values.specs.declared.value.Value.TheVariants as value;

use crate::taken::{first_at, nodes_at, number_at, truth_at};
use crate::texts::{by_texts, empty, truth_value};
use lists::List;
use std::alloc::Global;
use whole_num::{GREATEST, Num};
use xpath_binding::Function;
use xpath_meaning::{Context, EvalStop, Size};
use xpath_nodes::{count, generate_id};
use xpath_operations::Operand;
use xpath_values::{Atom, Value};

// What a function gives that sees no document; any other gives the empty text.
pub(crate) fn plainly(
    alloc: Global,
    function: Function,
    arguments: &List<Operand>,
    ctx: &Context,
) -> Result<Value, EvalStop>
    ensures { Gives (given.plainly function arguments.now ctx.now) result }
{
    match function {
        Function::Last => size_value(ctx.size),
        Function::Position => count_value(ctx.position),
        Function::True => truth_value(true),
        Function::False => truth_value(false),
        Function::Current => current(alloc, ctx.current),
        Function::Count => Ok(count(nodes_at(arguments, 0))),
        Function::GenerateId => id_of_first(alloc, first_at(arguments, 0)),
        Function::Number => Ok(number_value(number_at(arguments, 0))),
        Function::Floor => Ok(number_value(number_at(arguments, 0))),
        Function::Ceiling => Ok(number_value(number_at(arguments, 0))),
        Function::Round => Ok(number_value(number_at(arguments, 0))),
        Function::Boolean => truth_value(truth_at(arguments, 0)),
        Function::Not => truth_value(!truth_at(arguments, 0)),
        _ => by_texts(alloc, function, arguments),
    }
}

fn number_value(number: Num) -> Value
    ensures { result ≡ conversions.number number }
{
    Value::Atom(Atom::Number(number))
}

fn size_value(size: Size) -> Result<Value, EvalStop>
    ensures { Gives (Known (functions.size_value size)) result }
{
    match size {
        Size::Known(rows) => count_value(rows),
        Size::Unasked => Ok(number_value(Num::NaN)),
    }
}

// A position or a size. No memory holds as many rows as would be out of the range of numbers.
fn count_value(rows: u64) -> Result<Value, EvalStop>
    ensures { Gives (Known (conversions.count rows)) result }
{
    if rows <= GREATEST as u64 {
        Ok(number_value(Num::Whole(rows as i64)))
    } else {
        Err(EvalStop::Memory)
    }
}

fn current(alloc: Global, node: u32) -> Result<Value, EvalStop>
    ensures { Gives (Known (value.Nodes (node ∷ []))) result }
{
    let mut nodes = List::new(alloc);
    nodes.push(node)?;
    Ok(Value::Nodes(nodes))
}

// Of the first node, or the empty text.
fn id_of_first(alloc: Global, first: Option<u32>) -> Result<Value, EvalStop>
    ensures { Gives (calls.of_first (λ n. Known (conversions.text (functions.generated_id n))) first) result }
{
    match first {
        Some(n) => generate_id(alloc, n),
        None => empty(alloc),
    }
}
