//! What instructions mention: the variables of their expressions, the templates that they call and the modes whose
//! templates they apply. It recurs as deep as elements are nested in the sheet.

ghost use Rattle.std.specs.Prelude.{◌≡◌, ◌++◌, IfOk};
ghost use Rattle.std.specs.List.{flat_map};
ghost use Rattle.sheet_graph.specs.Graph.{names_of};
ghost use Rattle.sheet_graph.specs.Mentions as mentions;
ghost use Rattle.sheet_circles.specs.Contents as contents;

use crate::expressions::{name_expression, name_parts, name_some_parts};
use crate::numbers::{name_mode, name_template};
use lists::List;
use sheet_ast::{Instruction, LiteralAttr, Sheet, SortDecl, VarValue, Variable, When};
use std::alloc::AllocError;

fn name_attributes(
    sheet: &Sheet,
    attributes: &List<LiteralAttr>,
    names: &mut List<u32>,
) -> Result<(), AllocError>
    ensures { IfOk result (λ _. names.new ≡ names.old ++ names_of sheet.now (flat_map mentions.attribute_mentions attributes.now)) }
{
    for attribute in attributes.as_slice() {
        name_parts(sheet, &attribute.value, names)?;
    }
    Ok(())
}

fn name_sorts(
    sheet: &Sheet,
    sorts: &List<SortDecl>,
    names: &mut List<u32>,
) -> Result<(), AllocError>
    ensures { IfOk result (λ _. names.new ≡ names.old ++ names_of sheet.now (flat_map mentions.sort_mentions sorts.now)) }
{
    for sort in sorts.as_slice() {
        name_expression(sheet, &sort.select, names)?;
    }
    Ok(())
}

#[cycle(bodies)]
pub fn name_body(
    sheet: &Sheet,
    body: &List<Instruction>,
    names: &mut List<u32>,
) -> Result<(), AllocError>
    ensures { IfOk result (λ _. names.new ≡ names.old ++ names_of sheet.now (flat_map mentions.instruction_mentions body.now)) }
{
    for instruction in body.as_slice() {
        name_instruction(sheet, instruction, names)?;
    }
    Ok(())
}

#[cycle(bodies)]
fn name_instruction(
    sheet: &Sheet,
    instruction: &Instruction,
    names: &mut List<u32>,
) -> Result<(), AllocError>
    ensures { IfOk result (λ _. names.new ≡ names.old ++ names_of sheet.now (mentions.instruction_mentions instruction.now)) }
{
    match instruction {
        Instruction::LiteralText(_) => Ok(()),
        Instruction::LiteralElement {
            name: _,
            attributes,
            body,
        } => {
            name_attributes(sheet, attributes, names)?;
            name_body(sheet, body, names)
        }
        Instruction::ValueOf(select) | Instruction::CopyOf(select) => name_expression(
            sheet, select, names,
        ),
        Instruction::Copy(body) | Instruction::Comment(body) => name_body(sheet, body, names),
        Instruction::Element {
            name,
            namespace,
            scopes: _,
            body,
        }
        | Instruction::Attribute {
            name,
            namespace,
            scopes: _,
            body,
        } => {
            name_parts(sheet, name, names)?;
            name_some_parts(sheet, namespace, names)?;
            name_body(sheet, body, names)
        }
        Instruction::Processing { name, body } => {
            name_parts(sheet, name, names)?;
            name_body(sheet, body, names)
        }
        Instruction::Message { terminate: _, body } => name_body(sheet, body, names),
        Instruction::If { test, body } => {
            name_expression(sheet, test, names)?;
            name_body(sheet, body, names)
        }
        Instruction::Choose { whens, otherwise } => {
            name_whens(sheet, whens, names)?;
            match otherwise {
                None => Ok(()),
                Some(body) => name_body(sheet, body, names),
            }
        }
        Instruction::Local(variable) => name_variable(sheet, variable, names),
        Instruction::Apply {
            select,
            mode,
            sorts,
            params,
        } => {
            name_expression(sheet, select, names)?;
            name_sorts(sheet, sorts, names)?;
            name_variables(sheet, params, names)?;
            name_mode(sheet, *mode, names)
        }
        Instruction::ForEach {
            select,
            sorts,
            body,
        } => {
            name_expression(sheet, select, names)?;
            name_sorts(sheet, sorts, names)?;
            name_body(sheet, body, names)
        }
        Instruction::CallTemplate { template, params } => {
            name_variables(sheet, params, names)?;
            name_template(sheet, *template, names)
        }
    }
}

#[cycle(bodies)]
fn name_whens(sheet: &Sheet, whens: &List<When>, names: &mut List<u32>) -> Result<(), AllocError>
    ensures { IfOk result (λ _. names.new ≡ names.old ++ names_of sheet.now (flat_map contents.when_mentions whens.now)) }
{
    for when in whens.as_slice() {
        name_when(sheet, when, names)?;
    }
    Ok(())
}

#[cycle(bodies)]
fn name_when(sheet: &Sheet, when: &When, names: &mut List<u32>) -> Result<(), AllocError>
    ensures { IfOk result (λ _. names.new ≡ names.old ++ names_of sheet.now (contents.when_mentions when.now)) }
{
    name_expression(sheet, &when.test, names)?;
    name_body(sheet, &when.body, names)
}

#[cycle(bodies)]
fn name_variable(
    sheet: &Sheet,
    variable: &Variable,
    names: &mut List<u32>,
) -> Result<(), AllocError>
    ensures { IfOk result (λ _. names.new ≡ names.old ++ names_of sheet.now (mentions.variable_mentions variable.now)) }
{
    name_value(sheet, &variable.value, names)
}

// What parameters or values that are handed on mention.
#[cycle(bodies)]
pub fn name_variables(
    sheet: &Sheet,
    variables: &List<Variable>,
    names: &mut List<u32>,
) -> Result<(), AllocError>
    ensures { IfOk result (λ _. names.new ≡ names.old ++ names_of sheet.now (flat_map mentions.variable_mentions variables.now)) }
{
    for variable in variables.as_slice() {
        name_variable(sheet, variable, names)?;
    }
    Ok(())
}

#[cycle(bodies)]
pub fn name_value(sheet: &Sheet, value: &VarValue, names: &mut List<u32>) -> Result<(), AllocError>
    ensures { IfOk result (λ _. names.new ≡ names.old ++ names_of sheet.now (mentions.value_mentions value.now)) }
{
    match value {
        VarValue::Select(select) => name_expression(sheet, select, names),
        VarValue::Content(body) => name_body(sheet, body, names),
        VarValue::Empty => Ok(()),
    }
}
