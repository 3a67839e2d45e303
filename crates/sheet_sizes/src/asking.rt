//! Which instructions ask for a context size. It recurs as deep as elements are nested in the sheet.

ghost use Rattle.std.specs.Prelude.{◌≡◌};
ghost use Rattle.std.specs.List.{list_any};
ghost use Rattle.engine_meaning.specs.Sizes as spec;
ghost use Rattle.sheet_sizes.specs.Contents as contents;

use crate::parts::{attributes_ask, name_asks, parts_ask, select_asks};
use lists::List;
use sheet_ast::{Instruction, VarValue, Variable, When};
use xpath_chains::uses_last_outside_predicates;

#[cycle(asking)]
pub fn body_asks(body: &List<Instruction>) -> bool
    ensures { result ≡ list_any spec.instruction_asks body.now }
{
    for instruction in body.as_slice() {
        if instruction_asks(instruction) {
            return true;
        }
    }
    false
}

#[cycle(asking)]
fn instruction_asks(instruction: &Instruction) -> bool
    ensures { result ≡ spec.instruction_asks instruction.now }
{
    match instruction {
        Instruction::LiteralText(_) => false,
        Instruction::LiteralElement {
            name: _,
            attributes,
            body,
        } => attributes_ask(attributes) || body_asks(body),
        Instruction::ValueOf(select) | Instruction::CopyOf(select) => uses_last_outside_predicates(
            select,
        ),
        Instruction::Copy(body) | Instruction::Comment(body) => body_asks(body),
        Instruction::Element {
            name,
            namespace,
            scopes: _,
            body,
        }
        | Instruction::Attribute {
            name,
            namespace,
            scopes: _,
            body,
        } => name_asks(name, namespace) || body_asks(body),
        Instruction::Processing { name, body } => parts_ask(name) || body_asks(body),
        Instruction::Message { terminate: _, body } => body_asks(body),
        Instruction::If { test, body } => uses_last_outside_predicates(test) || body_asks(body),
        Instruction::Choose { whens, otherwise } => {
            if whens_ask(whens) {
                return true;
            }
            match otherwise {
                None => false,
                Some(body) => body_asks(body),
            }
        }
        Instruction::Local(variable) => variable_asks(variable),
        Instruction::Apply {
            select,
            mode: _,
            sorts,
            params,
        } => select_asks(select, sorts) || variables_ask(params),
        Instruction::ForEach {
            select,
            sorts,
            body,
        } => select_asks(select, sorts) || body_asks(body),
        Instruction::CallTemplate {
            template: _,
            params,
        } => variables_ask(params),
    }
}

#[cycle(asking)]
fn whens_ask(whens: &List<When>) -> bool
    ensures { result ≡ list_any contents.when_asks whens.now }
{
    for when in whens.as_slice() {
        if when_asks(when) {
            return true;
        }
    }
    false
}

#[cycle(asking)]
fn when_asks(when: &When) -> bool
    ensures { result ≡ contents.when_asks when.now }
{
    uses_last_outside_predicates(&when.test) || body_asks(&when.body)
}

#[cycle(asking)]
pub fn variables_ask(variables: &List<Variable>) -> bool
    ensures { result ≡ list_any spec.variable_asks variables.now }
{
    for variable in variables.as_slice() {
        if variable_asks(variable) {
            return true;
        }
    }
    false
}

#[cycle(asking)]
fn variable_asks(variable: &Variable) -> bool
    ensures { result ≡ spec.variable_asks variable.now }
{
    value_asks(&variable.value)
}

#[cycle(asking)]
pub fn value_asks(value: &VarValue) -> bool
    ensures { result ≡ spec.value_asks value.now }
{
    match value {
        VarValue::Select(select) => uses_last_outside_predicates(select),
        VarValue::Content(body) => body_asks(body),
        VarValue::Empty => false,
    }
}
