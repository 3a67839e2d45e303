//! Which function a call is of, and how it takes its arguments.

ghost use Rattle.std.specs.Prelude.{◌≡◌};
ghost use Rattle.xpath_calls.specs.Taking as taking;

use xpath_binding::{Function, function_named};
use xpath_operations::OperandKind;
use xpath_syntax::NameRef;

/// The function that a call with so many arguments is of; `None` where there is no function of that name without a prefix,
/// or it does not take so many. Takes no memory.
pub fn call_of(name: &NameRef, count: usize) -> Option<Function>
    ensures { result ≡ taking.call_of name.now count }
{
    if name.prefix.is_empty() {
        accepted(function_named(name.local.as_slice()), count)
    } else {
        None
    }
}

fn accepted(function: Option<Function>, count: usize) -> Option<Function>
    ensures { result ≡ taking.accepted function count }
{
    match function {
        Some(function) => accepted_by(function, accepts(function, count)),
        None => None,
    }
}

fn accepted_by(function: Function, accepts: bool) -> Option<Function>
    ensures { result ≡ taking.accepted_by function accepts }
{
    if accepts { Some(function) } else { None }
}

fn accepts(function: Function, count: usize) -> bool
    ensures { result ≡ taking.accepts function count }
{
    match function {
        Function::Concat => true,
        _ => function.takes(count),
    }
}

/// How a function takes its argument at a place, counted from 0; `None` for the name of a key, which it does not evaluate.
pub fn kind_at(function: Function, at: usize) -> Option<OperandKind>
    ensures { result ≡ taking.kind_at function at }
{
    match function {
        Function::Count
        | Function::Sum
        | Function::LocalName
        | Function::NamespaceUri
        | Function::Name
        | Function::GenerateId => Some(OperandKind::Nodes),
        Function::Number | Function::Floor | Function::Ceiling | Function::Round => {
            Some(OperandKind::Number)
        }
        Function::Boolean | Function::Not => Some(OperandKind::Truth),
        Function::Id => Some(OperandKind::Whole),
        Function::Key => key_kind_at(at),
        Function::Substring => substring_kind_at(at),
        Function::Last
        | Function::Position
        | Function::True
        | Function::False
        | Function::Current
        | Function::String
        | Function::StringLength
        | Function::NormalizeSpace
        | Function::Concat
        | Function::StartsWith
        | Function::Contains
        | Function::SubstringBefore
        | Function::SubstringAfter
        | Function::Translate
        | Function::Lang => Some(OperandKind::Text),
    }
}

fn key_kind_at(at: usize) -> Option<OperandKind>
    ensures { result ≡ taking.key_kind_at at }
{
    match at {
        0 => None,
        _ => Some(OperandKind::Whole),
    }
}

fn substring_kind_at(at: usize) -> Option<OperandKind>
    ensures { result ≡ taking.substring_kind_at at }
{
    match at {
        0 => Some(OperandKind::Text),
        _ => Some(OperandKind::Number),
    }
}

/// Whether a function without an argument is that of the context node.
pub(crate) fn is_of_context(function: Function) -> bool
    ensures { result ≡ taking.is_of_context function }
{
    match function {
        Function::String
        | Function::StringLength
        | Function::NormalizeSpace
        | Function::Number
        | Function::LocalName
        | Function::NamespaceUri
        | Function::Name
        | Function::GenerateId => true,
        _ => false,
    }
}
