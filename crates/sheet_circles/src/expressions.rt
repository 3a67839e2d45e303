//! What expressions mention: their variables. A chain of operators is gone through by a loop, from its last operand, and
//! takes no stack.

ghost use Rattle.std.specs.Prelude.{◌≡◌, ◌++◌, IfOk};
ghost use Rattle.std.specs.List.{flat_map};
ghost use Rattle.sheet_graph.specs.Graph.{names_of};
ghost use Rattle.sheet_graph.specs.Mentions as mentions;
ghost use Rattle.sheet_circles.specs.Parts as parts;

use crate::numbers::name_variable;
use lists::List;
use sheet_ast::Sheet;
use std::alloc::AllocError;
use xpath_syntax::{Expr, Part, Path, StepExpr};

#[cycle(expressions)]
pub fn name_expression(sheet: &Sheet, e: &Expr, names: &mut List<u32>) -> Result<(), AllocError>
    ensures { IfOk result (λ _. names.new ≡ names.old ++ names_of sheet.now (mentions.expr_mentions e.now)) }
{
    let mut at = e;
    loop {
        match at {
            Expr::Binary { op: _, left, right } => {
                name_expression(sheet, right.get(), names)?;
                at = left.get();
            }
            Expr::Minus(inner) => at = inner.get(),
            Expr::Literal(_) | Expr::Number(_) => return Ok(()),
            Expr::Variable(name) => return name_variable(sheet, name.slot, names),
            Expr::Call { name: _, args } => return name_expressions(sheet, args, names),
            Expr::Path(path) => return name_path(sheet, path, names),
            Expr::Filter {
                primary,
                predicates,
                tail,
            } => {
                name_expressions(sheet, predicates, names)?;
                name_tail(sheet, tail, names)?;
                at = primary.get();
            }
        }
    }
}

#[cycle(expressions)]
fn name_expressions(
    sheet: &Sheet,
    all: &List<Expr>,
    names: &mut List<u32>,
) -> Result<(), AllocError>
    ensures { IfOk result (λ _. names.new ≡ names.old ++ names_of sheet.now (flat_map mentions.expr_mentions all.now)) }
{
    for one in all.as_slice() {
        name_expression(sheet, one, names)?;
    }
    Ok(())
}

#[cycle(expressions)]
fn name_path(sheet: &Sheet, path: &Path, names: &mut List<u32>) -> Result<(), AllocError>
    ensures { IfOk result (λ _. names.new ≡ names.old ++ names_of sheet.now (parts.path_mentions path.now)) }
{
    for step in path.parts.as_slice() {
        name_step(sheet, step, names)?;
    }
    Ok(())
}

#[cycle(expressions)]
fn name_step(sheet: &Sheet, step: &StepExpr, names: &mut List<u32>) -> Result<(), AllocError>
    ensures { IfOk result (λ _. names.new ≡ names.old ++ names_of sheet.now (parts.step_mentions step.now)) }
{
    name_expressions(sheet, &step.predicates, names)
}

#[cycle(expressions)]
fn name_tail(sheet: &Sheet, tail: &Option<Path>, names: &mut List<u32>) -> Result<(), AllocError>
    ensures { IfOk result (λ _. names.new ≡ names.old ++ names_of sheet.now (parts.tail_mentions tail.now)) }
{
    match tail {
        None => Ok(()),
        Some(path) => name_path(sheet, path, names),
    }
}

// What the parts of an attribute value template mention.
pub fn name_parts(
    sheet: &Sheet,
    parts: &List<Part>,
    names: &mut List<u32>,
) -> Result<(), AllocError>
    ensures { IfOk result (λ _. names.new ≡ names.old ++ names_of sheet.now (mentions.parts_mention parts.now)) }
{
    for part in parts.as_slice() {
        name_part(sheet, part, names)?;
    }
    Ok(())
}

fn name_part(sheet: &Sheet, part: &Part, names: &mut List<u32>) -> Result<(), AllocError>
    ensures { IfOk result (λ _. names.new ≡ names.old ++ names_of sheet.now (mentions.part_mentions part.now)) }
{
    match part {
        Part::Plain(_) => Ok(()),
        Part::Value(e) => name_expression(sheet, e, names),
    }
}

pub fn name_some_parts(
    sheet: &Sheet,
    parts: &Option<List<Part>>,
    names: &mut List<u32>,
) -> Result<(), AllocError>
    ensures { IfOk result (λ _. names.new ≡ names.old ++ names_of sheet.now (mentions.some_parts_mention parts.now)) }
{
    match parts {
        None => Ok(()),
        Some(parts) => name_parts(sheet, parts, names),
    }
}
