//! Expressions with the slots of their variables and the marks of their paths.

ghost use Rattle.std.specs.Prelude.{◌≡◌, IfOk};
ghost use Rattle.sheet_making.specs.Attributes as spec;
ghost use Rattle.sheet_making.specs.Scopes.{scope};

use crate::attributes::{first_expression, first_template, is_second};
use crate::scope::Making;
use lists::List;
use sheet_ast::{SortDecl, mark};
use sheet_elements::Word;
use sheet_names::{NameSet, place};
use sheet_reading::Given;
use std::alloc::{AllocError, Global};
use xpath_syntax::{AxisName, Expr, Part, Path, StepExpr, TestExpr};

/// A copy of an expression that may be evaluated where these locals are in scope.
pub fn ready(alloc: Global, making: &Making, locals: &NameSet, e: &Expr) -> Result<Expr, AllocError>
    ensures { IfOk result (λ made. made ≡ spec.ready (scope making.now locals.now) e.now) }
{
    let mut made = place(alloc, e, &making.names.globals, locals)?;
    mark(&mut made, making.streams);
    Ok(made)
}

fn ready_part(
    alloc: Global,
    making: &Making,
    locals: &NameSet,
    part: &Part,
) -> Result<Part, AllocError>
    ensures { IfOk result (λ made. made ≡ spec.ready_part (scope making.now locals.now) part.now) }
{
    match part {
        Part::Plain(text) => Ok(Part::Plain(List::from_slice(alloc, text.as_slice())?)),
        Part::Value(e) => Ok(Part::Value(ready(alloc, making, locals, e)?)),
    }
}

/// A copy of an attribute value template (XSLT 1.0, section 7.6.2) with such expressions.
pub fn ready_parts(
    alloc: Global,
    making: &Making,
    locals: &NameSet,
    parts: &List<Part>,
) -> Result<List<Part>, AllocError>
    ensures { IfOk result (λ made. made ≡ spec.ready_parts (scope making.now locals.now) parts.now) }
{
    let mut made = List::new(alloc);
    for part in parts.as_slice() {
        made.push(ready_part(alloc, making, locals, part)?)?;
    }
    Ok(made)
}

// A path of one step over all nodes of an axis.
fn nodes_on(alloc: Global, axis: AxisName) -> Result<Expr, AllocError>
    ensures { IfOk result (λ e. e ≡ spec.nodes_on axis) }
{
    let mut parts = List::new(alloc);
    parts.push(StepExpr {
        axis,
        test: TestExpr::Node,
        predicates: List::new(alloc),
    })?;
    Ok(Expr::Path(Path {
        absolute: false,
        parts,
        streams: false,
    }))
}

fn ready_missing(
    alloc: Global,
    making: &Making,
    locals: &NameSet,
    missing: Expr,
) -> Result<Expr, AllocError>
    ensures { IfOk result (λ made. made ≡ spec.ready (scope making.now locals.now) missing) }
{
    ready(alloc, making, locals, &missing)
}

/// The expression that an element is given; the first pass lets none be missing.
pub fn expression(
    alloc: Global,
    making: &Making,
    locals: &NameSet,
    word: Word,
    given: &[Given],
) -> Result<Expr, AllocError>
    ensures { IfOk result (λ made. made ≡ spec.expression (scope making.now locals.now) word given.now) }
{
    match first_expression(word, given) {
        Some(e) => ready(alloc, making, locals, e),
        None => ready_missing(alloc, making, locals, Expr::Literal(List::new(alloc))),
    }
}

fn select_or(
    alloc: Global,
    making: &Making,
    locals: &NameSet,
    axis: AxisName,
    given: &[Given],
) -> Result<Expr, AllocError>
    ensures { IfOk result (λ made. made ≡ spec.select_or axis (scope making.now locals.now) given.now) }
{
    match first_expression(Word::Select, given) {
        Some(e) => ready(alloc, making, locals, e),
        None => ready_missing(alloc, making, locals, nodes_on(alloc, axis)?),
    }
}

/// The select of xsl:apply-templates, which is `node()` where there is none (XSLT 1.0, section 5.4).
pub fn select_of_children(
    alloc: Global,
    making: &Making,
    locals: &NameSet,
    given: &[Given],
) -> Result<Expr, AllocError>
    ensures { IfOk result (λ made. made ≡ spec.select_of_children (scope making.now locals.now) given.now) }
{
    select_or(alloc, making, locals, AxisName::Child, given)
}

/// A sort key, whose select is `.` where there is none (XSLT 1.0, section 10).
pub fn sort(
    alloc: Global,
    making: &Making,
    locals: &NameSet,
    given: &[Given],
) -> Result<SortDecl, AllocError>
    ensures { IfOk result (λ made. made ≡ spec.sort (scope making.now locals.now) given.now) }
{
    Ok(SortDecl {
        select: select_or(alloc, making, locals, AxisName::Itself, given)?,
        number: is_second(Word::DataType, given),
        descending: is_second(Word::Order, given),
    })
}

/// The value template that an element may be given.
pub fn some_template(
    alloc: Global,
    making: &Making,
    locals: &NameSet,
    word: Word,
    given: &[Given],
) -> Result<Option<List<Part>>, AllocError>
    ensures { IfOk result (λ made. made ≡ spec.some_template (scope making.now locals.now) word given.now) }
{
    match first_template(word, given) {
        Some(parts) => Ok(Some(ready_parts(alloc, making, locals, parts)?)),
        None => Ok(None),
    }
}

/// The value template that an element is given; the first pass lets none be missing.
pub fn template(
    alloc: Global,
    making: &Making,
    locals: &NameSet,
    word: Word,
    given: &[Given],
) -> Result<List<Part>, AllocError>
    ensures { IfOk result (λ made. made ≡ spec.template (scope making.now locals.now) word given.now) }
{
    match first_template(word, given) {
        Some(parts) => ready_parts(alloc, making, locals, parts),
        None => Ok(List::new(alloc)),
    }
}
