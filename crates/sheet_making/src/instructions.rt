//! The instruction that an element is, by what the nodes in it make.

ghost use Rattle.std.specs.Prelude.{◌≡◌, ◌++◌, IfOk, option_map};
ghost use Rattle.sheet_making.specs.Attributes as attributes;
ghost use Rattle.sheet_making.specs.Instructions as spec;
ghost use Rattle.sheet_making.specs.Scopes.{scope};

use crate::attributes::{first_expression, is_second};
use crate::content::Content;
use crate::expressions::{
    expression, ready, ready_parts, select_of_children, some_template, sort, template,
};
use crate::made::Made;
use crate::names::{bound, mode_number, name_of, template_number};
use crate::scope::Making;
use lists::List;
use sheet_ast::{Instruction, LiteralAttr, VarValue, Variable, When};
use sheet_elements::{Tag, Word};
use sheet_names::{NameSet, first_name};
use sheet_reading::{Given, Item, Judged};
use sheet_values::Value;
use std::alloc::{AllocError, Global};
use xpath_syntax::Expr;

fn add_text(item: &Item, all: &mut List<u8>) -> Result<(), AllocError>
    ensures { IfOk result (λ _. all.new ≡ all.old ++ spec.text_in item.now) }
{
    match item {
        Item::Text(text) => all.extend_from_slice(text.as_slice()),
        Item::Element(_) => Ok(()),
    }
}

fn texts(alloc: Global, items: &[Item]) -> Result<List<u8>, AllocError>
    ensures { IfOk result (λ text. text ≡ spec.texts items.now) }
{
    let mut all = List::new(alloc);
    for item in items {
        add_text(item, &mut all)?;
    }
    Ok(all)
}

fn add_attribute(
    alloc: Global,
    making: &Making,
    locals: &NameSet,
    given: &Given,
    made: &mut List<LiteralAttr>,
) -> Result<(), AllocError>
    ensures { IfOk result (λ _. made.new ≡ attributes.with_attribute (scope making.now locals.now) made.old given.now) }
{
    match &given.value {
        Value::Template(parts) => made.push(LiteralAttr {
            name: bound(alloc, &given.name)?,
            value: ready_parts(alloc, making, locals, parts)?,
        }),
        _ => Ok(()),
    }
}

fn literal_attributes(
    alloc: Global,
    making: &Making,
    locals: &NameSet,
    given: &[Given],
) -> Result<List<LiteralAttr>, AllocError>
    ensures { IfOk result (λ all. all ≡ attributes.literal_attributes (scope making.now locals.now) given.now) }
{
    let mut all = List::new(alloc);
    for one in given {
        add_attribute(alloc, making, locals, one, &mut all)?;
    }
    Ok(all)
}

fn content_or_empty(body: List<Instruction>) -> VarValue
    ensures { result ≡ spec.content_or_empty body }
{
    if body.is_empty() {
        VarValue::Empty
    } else {
        VarValue::Content(body)
    }
}

fn value_by(
    alloc: Global,
    making: &Making,
    locals: &NameSet,
    select: Option<&Expr>,
    body: List<Instruction>,
) -> Result<VarValue, AllocError>
    ensures { IfOk result (λ value. value ≡ spec.value_by (scope making.now locals.now) (option_map (λ e. e.now) select.entry) body) }
{
    match select {
        Some(e) => Ok(VarValue::Select(ready(alloc, making, locals, e)?)),
        None => Ok(content_or_empty(body)),
    }
}

/// A variable, a parameter, or a value that is handed on (XSLT 1.0, section 11).
pub fn variable(
    alloc: Global,
    param: bool,
    making: &Making,
    locals: &NameSet,
    element: &Judged,
    body: List<Instruction>,
) -> Result<Variable, AllocError>
    ensures { IfOk result (λ made. made ≡ spec.variable param (scope making.now locals.now) element.now body) }
{
    let given = element.given.as_slice();
    let select = first_expression(Word::Select, given);
    Ok(Variable {
        name: name_of(alloc, given)?,
        value: value_by(alloc, making, locals, select, body)?,
        param,
    })
}

fn called(alloc: Global, making: &Making, given: &[Given]) -> Result<u32, AllocError>
    ensures { IfOk result (λ number. number ≡ attributes.template_number making.now.names.now (attributes.name_of given.now)) }
{
    let name = name_of(alloc, given)?;
    template_number(alloc, making.names, &name)
}

fn mode(alloc: Global, making: &Making, given: &[Given]) -> Result<u32, AllocError>
    ensures { IfOk result (λ number. number ≡ spec.mode making.now.names.now given.now) }
{
    mode_number(alloc, &making.names.modes, first_name(Word::Mode, given))
}

/// An element by its tag, with what the nodes in it make.
pub fn make(
    alloc: Global,
    tag: Tag,
    making: &Making,
    locals: &NameSet,
    element: &Judged,
    content: Content,
) -> Result<Made, AllocError>
    ensures { IfOk result (λ made. made ≡ spec.make tag (scope making.now locals.now) element.now content) }
{
    let Content {
        body,
        variables,
        sorts,
        cases,
        otherwise,
    } = content;
    let given = element.given.as_slice();
    match tag {
        Tag::Variable => {
            let made = variable(alloc, false, making, locals, element, body)?;
            Ok(Made::Does(Instruction::Local(made)))
        }
        Tag::Param => Ok(Made::Binds(variable(alloc, true, making, locals, element, body)?)),
        Tag::WithParam => Ok(Made::Binds(variable(alloc, false, making, locals, element, body)?)),
        Tag::Sort => Ok(Made::Sorts(sort(alloc, making, locals, given)?)),
        Tag::When => Ok(Made::Cases(When {
            test: expression(alloc, making, locals, Word::Test, given)?,
            body,
        })),
        Tag::Otherwise => Ok(Made::Else(body)),
        Tag::ApplyTemplates => Ok(Made::Does(Instruction::Apply {
            select: select_of_children(alloc, making, locals, given)?,
            mode: mode(alloc, making, given)?,
            sorts,
            params: variables,
        })),
        Tag::CallTemplate => Ok(Made::Does(Instruction::CallTemplate {
            template: called(alloc, making, given)?,
            params: variables,
        })),
        Tag::ForEach => Ok(Made::Does(Instruction::ForEach {
            select: expression(alloc, making, locals, Word::Select, given)?,
            sorts,
            body,
        })),
        Tag::ValueOf => Ok(Made::Does(Instruction::ValueOf(expression(
            alloc,
            making,
            locals,
            Word::Select,
            given,
        )?))),
        Tag::CopyOf => Ok(Made::Does(Instruction::CopyOf(expression(
            alloc,
            making,
            locals,
            Word::Select,
            given,
        )?))),
        Tag::Copy => Ok(Made::Does(Instruction::Copy(body))),
        Tag::Element => Ok(Made::Does(Instruction::Element {
            name: template(alloc, making, locals, Word::Name, given)?,
            namespace: some_template(alloc, making, locals, Word::Namespace, given)?,
            scopes: element.scope,
            body,
        })),
        Tag::Attribute => Ok(Made::Does(Instruction::Attribute {
            name: template(alloc, making, locals, Word::Name, given)?,
            namespace: some_template(alloc, making, locals, Word::Namespace, given)?,
            scopes: element.scope,
            body,
        })),
        Tag::ProcessingInstruction => Ok(Made::Does(Instruction::Processing {
            name: template(alloc, making, locals, Word::Name, given)?,
            body,
        })),
        Tag::Comment => Ok(Made::Does(Instruction::Comment(body))),
        Tag::Text => Ok(Made::Does(Instruction::LiteralText(texts(
            alloc,
            element.children.as_slice(),
        )?))),
        Tag::Message => Ok(Made::Does(Instruction::Message {
            terminate: is_second(Word::Terminate, given),
            body,
        })),
        Tag::If => Ok(Made::Does(Instruction::If {
            test: expression(alloc, making, locals, Word::Test, given)?,
            body,
        })),
        Tag::Choose => Ok(Made::Does(Instruction::Choose {
            whens: cases,
            otherwise,
        })),
        Tag::Literal => Ok(Made::Does(Instruction::LiteralElement {
            name: bound(alloc, &element.name)?,
            attributes: literal_attributes(alloc, making, locals, given)?,
            body,
        })),
        _ => Ok(Made::Nothing),
    }
}
