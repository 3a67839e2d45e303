ghost use Rattle.std.specs.Prelude.{◌≡◌};
ghost use Rattle.doc_model.specs.Answers.{Known};
ghost use Rattle.doc_model.specs.View.{Moves};
ghost use Rattle.key_sources.specs.Going.{SaysAlways, Gives};
ghost use Rattle.xpath_meaning.specs.Comparisons.{comparison};
ghost use Rattle.xpath_meaning.specs.Conversions.{truth};
ghost use Rattle.xpath_meaning.specs.Outcome.{◌>>=◌ as ◌>>>◌};
ghost use Rattle.xpath_nodes.specs.Held.{HasJoined};
ghost use Rattle.xpath_operations.specs.Operands as operands;

use crate::operand::Operand;
use doc_model::NodeView;
use lists::List;
use node_lists::union;
use std::alloc::Global;
use whole_num::{Num, NumFault, add, div, mul, rem, sub};
use xpath_meaning::EvalStop;
use xpath_nodes::{calculated, compare_values};
use xpath_syntax::Op;
use xpath_values::{Atom, Value};

/// The value of an operation that its left operand decides: `or` where it is true, `and` where it is false. Takes no
/// memory.
pub fn decided(op: Op, left: &Operand) -> Option<Value>
    ensures { result ≡ operands.decided op left.now }
{
    match left {
        Operand::Truth(b) => decided_by(op, *b),
        Operand::Number(_)
        | Operand::Nodes(_)
        | Operand::Whole(_)
        | Operand::Text(_)
        | Operand::Name => None,
    }
}

fn decided_by(op: Op, b: bool) -> Option<Value>
    ensures { result ≡ operands.by_truth op b }
{
    match op {
        Op::Or => or_decided(b),
        Op::And => and_decided(b),
        Op::Equal
        | Op::NotEqual
        | Op::Less
        | Op::LessEqual
        | Op::Greater
        | Op::GreaterEqual
        | Op::Add
        | Op::Subtract
        | Op::Multiply
        | Op::Div
        | Op::Mod
        | Op::Union => None,
    }
}

fn or_decided(b: bool) -> Option<Value>
    ensures { result ≡ operands.or_decided b }
{
    if b {
        Some(Value::Atom(Atom::Truth(true)))
    } else {
        None
    }
}

fn and_decided(b: bool) -> Option<Value>
    ensures { result ≡ operands.and_decided b }
{
    if b {
        None
    } else {
        Some(Value::Atom(Atom::Truth(false)))
    }
}

/// What an operator gives of two operands as it takes them; of operands of other kinds it gives the empty text. A union is
/// linear where both are in order, and a comparison costs what `compare_values` does.
pub fn combined<V: NodeView>(
    alloc: Global,
    view: &mut V,
    op: Op,
    left: Operand,
    right: Operand,
) -> Result<Value, EvalStop>
    requires left { operands.IsHeld (V.sees view.old).steps left }
    requires right { operands.IsHeld (V.sees view.old).steps right }
    ensures moves { Moves (V.sees view.old) (V.sees view.new) }
    ensures answers { SaysAlways (λ R. operands.combined op R left right) (V.sees view.old) (V.sees view.new) result }
{
    view.told();
    match left {
        Operand::Truth(_) => with_truth(alloc, right),
        Operand::Number(a) => with_number(alloc, op, a, right),
        Operand::Nodes(a) => with_nodes(alloc, a, right),
        Operand::Whole(a) => with_value(alloc, view, op, a, right),
        Operand::Text(_) => nothing(alloc),
        Operand::Name => nothing(alloc),
    }
}

fn nothing(alloc: Global) -> Result<Value, EvalStop>
    ensures { Gives operands.nothing result }
{
    Ok(Value::Atom(Atom::Text(List::new(alloc))))
}

fn with_truth(alloc: Global, right: Operand) -> Result<Value, EvalStop>
    ensures { Gives (operands.with_truth right) result }
{
    match right {
        Operand::Truth(b) => Ok(Value::Atom(Atom::Truth(b))),
        Operand::Number(_) => nothing(alloc),
        Operand::Nodes(_) => nothing(alloc),
        Operand::Whole(_) => nothing(alloc),
        Operand::Text(_) => nothing(alloc),
        Operand::Name => nothing(alloc),
    }
}

fn with_number(alloc: Global, op: Op, a: Num, right: Operand) -> Result<Value, EvalStop>
    ensures { Gives (operands.with_number op a right) result }
{
    match right {
        Operand::Number(b) => calculation(op, a, b),
        Operand::Truth(_) => nothing(alloc),
        Operand::Nodes(_) => nothing(alloc),
        Operand::Whole(_) => nothing(alloc),
        Operand::Text(_) => nothing(alloc),
        Operand::Name => nothing(alloc),
    }
}

fn with_nodes(alloc: Global, a: List<u32>, right: Operand) -> Result<Value, EvalStop>
    ensures { Gives (operands.with_nodes a right) result }
{
    match right {
        Operand::Nodes(b) => all_nodes(alloc, a, b),
        Operand::Truth(_) => nothing(alloc),
        Operand::Number(_) => nothing(alloc),
        Operand::Whole(_) => nothing(alloc),
        Operand::Text(_) => nothing(alloc),
        Operand::Name => nothing(alloc),
    }
}

fn with_value<V: NodeView>(
    alloc: Global,
    view: &mut V,
    op: Op,
    a: Value,
    right: Operand,
) -> Result<Value, EvalStop>
    requires left { HasJoined (V.sees view.old).steps a }
    requires right { operands.IsHeld (V.sees view.old).steps right }
    ensures moves { Moves (V.sees view.old) (V.sees view.new) }
    ensures answers { SaysAlways (λ R. operands.with_value op R a right) (V.sees view.old) (V.sees view.new) result }
{
    view.told();
    match right {
        Operand::Whole(b) => compared(alloc, view, op, a, b),
        Operand::Truth(_) => nothing(alloc),
        Operand::Number(_) => nothing(alloc),
        Operand::Nodes(_) => nothing(alloc),
        Operand::Text(_) => nothing(alloc),
        Operand::Name => nothing(alloc),
    }
}

fn compared<V: NodeView>(
    alloc: Global,
    view: &mut V,
    op: Op,
    a: Value,
    b: Value,
) -> Result<Value, EvalStop>
    requires left { HasJoined (V.sees view.old).steps a }
    requires right { HasJoined (V.sees view.old).steps b }
    ensures moves { Moves (V.sees view.old) (V.sees view.new) }
    ensures answers { SaysAlways (λ R. comparison op R a b >>> λ holds. Known (truth holds)) (V.sees view.old) (V.sees view.new) result }
{
    let holds = compare_values(alloc, view, op, &a, &b)?;
    Ok(Value::Atom(Atom::Truth(holds)))
}

fn calculate(op: Op, a: Num, b: Num) -> Result<Num, NumFault>
    ensures { result ≡ operands.calculating op a b }
{
    match op {
        Op::Subtract => sub(a, b),
        Op::Multiply => mul(a, b),
        Op::Div => div(a, b),
        Op::Mod => rem(a, b),
        Op::Add
        | Op::Or
        | Op::And
        | Op::Equal
        | Op::NotEqual
        | Op::Less
        | Op::LessEqual
        | Op::Greater
        | Op::GreaterEqual
        | Op::Union => add(a, b),
    }
}

fn calculation(op: Op, a: Num, b: Num) -> Result<Value, EvalStop>
    ensures { Gives (operands.calculation op a b) result }
{
    let number = calculated(calculate(op, a, b))?;
    Ok(Value::Atom(Atom::Number(number)))
}

fn all_nodes(alloc: Global, a: List<u32>, b: List<u32>) -> Result<Value, EvalStop>
    ensures { Gives (operands.union a b) result }
{
    let nodes = union(alloc, a, b.as_slice())?;
    Ok(Value::Nodes(nodes))
}

/// The unary minus (XPath 1.0, section 3.5), of an operand that is a number; of another operand that of NaN. `NumberRange`
/// where the difference to 0 is out of range. Takes no memory.
pub fn negated(operand: Operand) -> Result<Value, EvalStop>
    ensures { Gives (operands.negated operand) result }
{
    let number = calculated(sub(Num::Whole(0), number_in(operand)))?;
    Ok(Value::Atom(Atom::Number(number)))
}

fn number_in(operand: Operand) -> Num
    ensures { result ≡ operands.number_in operand }
{
    match operand {
        Operand::Number(number) => number,
        Operand::Truth(_)
        | Operand::Nodes(_)
        | Operand::Whole(_)
        | Operand::Text(_)
        | Operand::Name => Num::NaN,
    }
}
