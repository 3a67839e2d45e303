//! Arguments by their places.

ghost use Rattle.std.specs.Prelude.{◌≡◌, option_copied};
ghost use Rattle.xpath_calls.specs.Taken as spec;
ghost use Rattle.xpath_meaning.specs.Conversions as conversions;
ghost use Rattle.xpath_operations.specs.Operands.{number_in};

use lists::List;
use whole_num::Num;
use xpath_operations::Operand;
use xpath_values::Value;

pub(crate) fn text_in(operand: &Operand) -> &[u8]
    ensures { result.now ≡ spec.text_in operand.now }
{
    match operand {
        Operand::Text(text) => text.as_slice(),
        Operand::Truth(_) => &[],
        Operand::Number(_) => &[],
        Operand::Nodes(_) => &[],
        Operand::Whole(_) => &[],
        Operand::Name => &[],
    }
}

fn truth_in(operand: &Operand) -> bool
    ensures { result ≡ spec.truth_in operand.now }
{
    match operand {
        Operand::Truth(truth) => *truth,
        Operand::Number(_)
        | Operand::Nodes(_)
        | Operand::Whole(_)
        | Operand::Text(_)
        | Operand::Name => false,
    }
}

fn number_in(operand: &Operand) -> Num
    ensures { result ≡ number_in operand.now }
{
    match operand {
        Operand::Number(number) => *number,
        Operand::Truth(_)
        | Operand::Nodes(_)
        | Operand::Whole(_)
        | Operand::Text(_)
        | Operand::Name => Num::NaN,
    }
}

fn nodes_in(operand: &Operand) -> &[u32]
    ensures { result.now ≡ spec.nodes_in operand.now }
{
    match operand {
        Operand::Nodes(nodes) => nodes.as_slice(),
        Operand::Truth(_) => &[],
        Operand::Number(_) => &[],
        Operand::Whole(_) => &[],
        Operand::Text(_) => &[],
        Operand::Name => &[],
    }
}

fn value_in(operand: &Operand) -> Option<&Value>
    ensures { option_copied result ≡ spec.value_in operand.now }
{
    match operand {
        Operand::Whole(value) => Some(value),
        Operand::Truth(_)
        | Operand::Number(_)
        | Operand::Nodes(_)
        | Operand::Text(_)
        | Operand::Name => None,
    }
}

pub(crate) fn text_at(arguments: &List<Operand>, at: usize) -> &[u8]
    ensures { result.now ≡ spec.text_at arguments.now at }
{
    match arguments.get(at) {
        Some(operand) => text_in(operand),
        None => &[],
    }
}

pub(crate) fn truth_at(arguments: &List<Operand>, at: usize) -> bool
    ensures { result ≡ spec.truth_at arguments.now at }
{
    match arguments.get(at) {
        Some(operand) => truth_in(operand),
        None => false,
    }
}

pub(crate) fn nodes_at(arguments: &List<Operand>, at: usize) -> &[u32]
    ensures { result.now ≡ spec.nodes_at arguments.now at }
{
    match arguments.get(at) {
        Some(operand) => nodes_in(operand),
        None => &[],
    }
}

pub(crate) fn value_at(arguments: &List<Operand>, at: usize) -> Option<&Value>
    ensures { option_copied result ≡ spec.value_at arguments.now at }
{
    match arguments.get(at) {
        Some(operand) => value_in(operand),
        None => None,
    }
}

// The number there, if there is an argument.
pub(crate) fn number_there(arguments: &List<Operand>, at: usize) -> Option<Num>
    ensures { result ≡ spec.number_there arguments.now at }
{
    match arguments.get(at) {
        Some(operand) => Some(number_in(operand)),
        None => None,
    }
}

pub(crate) fn number_at(arguments: &List<Operand>, at: usize) -> Num
    ensures { result ≡ spec.number_at arguments.now at }
{
    match number_there(arguments, at) {
        Some(number) => number,
        None => Num::NaN,
    }
}

// The first node of an argument in document order, if there is one.
pub(crate) fn first_at(arguments: &List<Operand>, at: usize) -> Option<u32>
    ensures { result ≡ conversions.first_of (spec.nodes_at arguments.now at) }
{
    first_of(nodes_at(arguments, at))
}

fn first_of(nodes: &[u32]) -> Option<u32>
    ensures { result ≡ conversions.first_of nodes.now }
{
    nodes.first().copied()
}
