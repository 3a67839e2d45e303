//! What stands around an expression, and the variables and calls that are judged by it.

ghost use Rattle.std.specs.Prelude.{◌≡◌, option_map};
ghost use Rattle.xpath_binding.specs.Around.{scope};
ghost use Rattle.xpath_binding.specs.Names.{Answers, resolution};
ghost use Rattle.xpath_binding.specs.Scope as spec;

use crate::error::BindError;
use crate::functions::{Function, function_named};
use crate::names::{VarNames, slot_of, uri_of};
use lists::List;
use name_grammar::{is_name, prefix};
use std::alloc::Global;
use xml_names::Scopes;
use xpath_chains::copy_name;
use xpath_syntax::NameRef;

/// What stands around an expression.
#[derive(Drop)]
pub struct Around<'a> {
    pub scopes: &'a Scopes,
    /// Without them no variable is unknown, and none has a place.
    pub vars: Option<&'a VarNames>,
    pub in_pattern: bool,
}

/// A variable with the URI of its prefix and its place.
pub fn bind_variable(
    alloc: Global,
    name: &NameRef,
    around: &Around<'_>,
) -> Result<NameRef, BindError>
    ensures { Answers (spec.bound_variable (scope around.now) name.now) result }
{
    let uri = uri_of(alloc, around.scopes, name.prefix.as_slice())?;
    let mut bound = copy_name(name)?;
    if let Some(vars) = around.vars {
        bound.slot = Some(slot_of(vars, uri.as_slice(), name.local.as_slice())?);
    }
    bound.uri = Some(uri);
    Ok(bound)
}

// A name with a prefix is no function's, whatever the prefix is bound to.
fn called(alloc: Global, scopes: &Scopes, name: &NameRef) -> Result<Function, BindError>
    ensures { Answers (spec.called (resolution scopes.now) name.now.prefix name.now.local) result }
{
    if !name.prefix.is_empty() {
        uri_of(alloc, scopes, name.prefix.as_slice())?;
        return Err(BindError::UnknownFunction);
    }
    match function_named(name.local.as_slice()) {
        Some(function) => Ok(function),
        None => Err(BindError::UnknownFunction),
    }
}

fn is_name_literal(text: Option<&[u8]>) -> bool
    ensures { result ≡ spec.is_name_literal (option_map (λ text. text.now) text.entry) }
{
    match text {
        Some(text) => is_name(text),
        None => false,
    }
}

// What is refused at the name of a function: the number of its arguments before all else.
fn judge(
    function: Function,
    count: usize,
    first: Option<&[u8]>,
    in_pattern: bool,
) -> Result<Function, BindError>
    ensures { Answers (spec.judged in_pattern function count (option_map (λ text. text.now) first.entry)) result }
{
    if !function.takes(count) {
        return Err(BindError::WrongArgs);
    }
    if function == Function::Key && !is_name_literal(first) {
        return Err(BindError::WrongArgs);
    }
    if function == Function::Current && in_pattern {
        return Err(BindError::Unsupported);
    }
    Ok(function)
}

fn uri_for(
    alloc: Global,
    scopes: &Scopes,
    first: Option<&[u8]>,
    function: Function,
) -> Result<List<u8>, BindError>
    ensures { Answers (spec.uri_for (resolution scopes.now) (option_map (λ text. text.now) first.entry) function) result }
{
    match first {
        Some(text) if function == Function::Key => uri_of(alloc, scopes, prefix(text)),
        _ => Ok(List::new(alloc)),
    }
}

/// The URI that the name of a call has, by the number of its arguments and the first, where that is a literal.
pub fn call_uri(
    alloc: Global,
    name: &NameRef,
    count: usize,
    first: Option<&[u8]>,
    around: &Around<'_>,
) -> Result<List<u8>, BindError>
    ensures { Answers (spec.call_uri (scope around.now) name.now count (option_map (λ text. text.now) first.entry)) result }
{
    let function = called(alloc, around.scopes, name)?;
    let function = judge(function, count, first, around.in_pattern)?;
    uri_for(alloc, around.scopes, first, function)
}
