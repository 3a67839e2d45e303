ghost use Rattle.std.specs.Prelude.{◌≡◌};
ghost use Rattle.doc_model.specs.View.{Moves};
ghost use Rattle.key_sources.specs.Going.{Gives, SaysAlways};
ghost use Rattle.doc_model.specs.Answers.{Known};
ghost use Rattle.xpath_meaning.specs.Conversions as conversions;
ghost use Rattle.xpath_meaning.specs.Outcome.{◌>>=◌ as ◌>>>◌};
ghost use Rattle.xpath_nodes.specs.Held.{HasJoined, IsJoinedIf};
ghost use Rattle.xpath_operations.specs.Operands as operands;
ghost use Rattle.xpath_operations.specs.declared.operand.Operand.TheVariants as operand;
ghost use Rattle.xpath_operations.specs.declared.operand.OperandKind.TheVariants as kind;

use doc_model::NodeView;
use lists::List;
use std::alloc::Global;
use whole_num::Num;
use xpath_meaning::EvalStop;
use xpath_nodes::{first_number, first_text, value_nodes, value_number, value_text};
use xpath_syntax::Op;
use xpath_values::{Value, value_truth};

/// An operand as its operator takes it, or an argument as its function does.
#[derive(Debug, Drop, PartialEq, Eq)]
pub enum Operand {
    /// Of `or` and `and`, and of functions on booleans.
    Truth(bool),
    /// Of arithmetic, and of functions on numbers.
    Number(Num),
    /// Of a union, and of functions on node-sets: in document order and without repeats.
    Nodes(List<u32>),
    /// Of a comparison, whose operands are evaluated before any conversion, and of what looks up keys and IDs.
    Whole(Value),
    /// Of functions on strings.
    Text(List<u8>),
    /// The name of a key, which was bound and is not evaluated.
    Name,
}

/// How an operator or a function takes an operand that it evaluates.
#[derive(Clone, Copy, Debug, PartialEq, Eq)]
pub enum OperandKind {
    Truth,
    Number,
    Nodes,
    Whole,
    Text,
}

/// How an operator takes its operands. Takes no memory.
pub fn kind_of(op: Op) -> OperandKind
    ensures { result ≡ operands.kind_of op }
{
    match op {
        Op::Or | Op::And => OperandKind::Truth,
        Op::Add | Op::Subtract | Op::Multiply | Op::Div | Op::Mod => OperandKind::Number,
        Op::Union => OperandKind::Nodes,
        Op::Equal | Op::NotEqual | Op::Less | Op::LessEqual | Op::Greater | Op::GreaterEqual =>
            OperandKind::Whole,
    }
}

/// Whether a kind of operand is made by a conversion to a boolean, a number or a string, so that a path whose nodes may be
/// taken one by one is judged by its first node. Takes no memory.
pub fn is_converted(kind: OperandKind) -> bool
    ensures { result ≡ operands.is_converted kind }
{
    match kind {
        OperandKind::Truth | OperandKind::Number | OperandKind::Text => true,
        OperandKind::Nodes | OperandKind::Whole => false,
    }
}

/// A value as an operand. Costs what the conversion does; `NotNodeSet` exactly where a node-set is needed and the value is
/// none.
pub fn operand_of<V: NodeView>(
    alloc: Global,
    view: &mut V,
    kind: OperandKind,
    value: Value,
) -> Result<Operand, EvalStop>
    requires { HasJoined (V.sees view.old).steps value }
    ensures moves { Moves (V.sees view.old) (V.sees view.new) }
    ensures answers { SaysAlways (λ R. operands.operand_by kind R value) (V.sees view.old) (V.sees view.new) result }
{
    match kind {
        OperandKind::Truth => {
            view.told();
            Ok(Operand::Truth(value_truth(&value)))
        }
        OperandKind::Number => number_of(alloc, view, value),
        OperandKind::Nodes => {
            view.told();
            nodes_of(value)
        }
        OperandKind::Whole => {
            view.told();
            Ok(Operand::Whole(value))
        }
        OperandKind::Text => text_of(alloc, view, value),
    }
}

fn number_of<V: NodeView>(alloc: Global, view: &mut V, value: Value) -> Result<Operand, EvalStop>
    requires { HasJoined (V.sees view.old).steps value }
    ensures moves { Moves (V.sees view.old) (V.sees view.new) }
    ensures answers { SaysAlways (λ R. operands.operand_by kind.Number R value) (V.sees view.old) (V.sees view.new) result }
{
    let number = value_number(alloc, view, &value)?;
    Ok(Operand::Number(number))
}

fn nodes_of(value: Value) -> Result<Operand, EvalStop>
    ensures { Gives (conversions.nodes_of value >>> λ nodes. Known (operand.Nodes nodes)) result }
{
    let nodes = value_nodes(value)?;
    Ok(Operand::Nodes(nodes))
}

fn text_of<V: NodeView>(alloc: Global, view: &mut V, value: Value) -> Result<Operand, EvalStop>
    requires { HasJoined (V.sees view.old).steps value }
    ensures moves { Moves (V.sees view.old) (V.sees view.new) }
    ensures answers { SaysAlways (λ R. operands.operand_by kind.Text R value) (V.sees view.old) (V.sees view.new) result }
{
    let text = value_text(alloc, view, &value)?;
    Ok(Operand::Text(text))
}

/// The first node of a path whose nodes may be taken one by one, or none, as an operand that a conversion makes. Costs what
/// the conversion of that node does. An operand of another kind is never asked for, and is a name.
pub fn operand_of_first<V: NodeView>(
    alloc: Global,
    view: &mut V,
    kind: OperandKind,
    first: Option<u32>,
) -> Result<Operand, EvalStop>
    requires { IsJoinedIf (V.sees view.old).steps first }
    ensures moves { Moves (V.sees view.old) (V.sees view.new) }
    ensures answers { SaysAlways (λ R. operands.operand_of_first kind R first) (V.sees view.old) (V.sees view.new) result }
{
    match kind {
        OperandKind::Truth => {
            view.told();
            Ok(Operand::Truth(first.is_some()))
        }
        OperandKind::Number => number_of_first(alloc, view, first),
        OperandKind::Text => text_of_first(alloc, view, first),
        OperandKind::Nodes => {
            view.told();
            Ok(Operand::Name)
        }
        OperandKind::Whole => {
            view.told();
            Ok(Operand::Name)
        }
    }
}

fn number_of_first<V: NodeView>(
    alloc: Global,
    view: &mut V,
    first: Option<u32>,
) -> Result<Operand, EvalStop>
    requires { IsJoinedIf (V.sees view.old).steps first }
    ensures moves { Moves (V.sees view.old) (V.sees view.new) }
    ensures answers { SaysAlways (λ R. operands.operand_of_first kind.Number R first) (V.sees view.old) (V.sees view.new) result }
{
    let number = first_number(alloc, view, first)?;
    Ok(Operand::Number(number))
}

fn text_of_first<V: NodeView>(
    alloc: Global,
    view: &mut V,
    first: Option<u32>,
) -> Result<Operand, EvalStop>
    requires { IsJoinedIf (V.sees view.old).steps first }
    ensures moves { Moves (V.sees view.old) (V.sees view.new) }
    ensures answers { SaysAlways (λ R. operands.operand_of_first kind.Text R first) (V.sees view.old) (V.sees view.new) result }
{
    let text = first_text(alloc, view, first)?;
    Ok(Operand::Text(text))
}
