//! The template rules.

ghost use Rattle.std.specs.Prelude.{◌≡◌, ◌++◌, map, IfOk};
ghost use Rattle.sheet_making.specs.Rules as spec;

use crate::attributes::{first_pattern, first_priority};
use crate::names::mode_number;
use crate::scope::Making;
use lists::List;
use sheet_ast::{Rule, mark};
use sheet_elements::Word;
use sheet_names::mode_name;
use sheet_reading::Judged;
use std::alloc::{AllocError, Global};
use xpath_chains::copy;
use xpath_syntax::{Expr, PatternPath, PatternStart, PatternStep, StepExpr, TestExpr};

fn marked_copy(alloc: Global, streams: bool, e: &Expr) -> Result<Expr, AllocError>
    ensures { IfOk result (λ made. made ≡ spec.marked_predicate streams e.now) }
{
    let mut made = copy(alloc, e)?;
    mark(&mut made, streams);
    Ok(made)
}

fn marked_predicates(
    alloc: Global,
    streams: bool,
    predicates: &[Expr],
) -> Result<List<Expr>, AllocError>
    ensures { IfOk result (λ made. made ≡ map (spec.marked_predicate streams) predicates.now) }
{
    let mut made = List::new(alloc);
    for predicate in predicates {
        made.push(marked_copy(alloc, streams, predicate)?)?;
    }
    Ok(made)
}

fn marked_part(alloc: Global, streams: bool, part: &StepExpr) -> Result<StepExpr, AllocError>
    ensures { IfOk result (λ made. made ≡ spec.marked_part streams part.now) }
{
    Ok(StepExpr {
        axis: part.axis,
        test: part.test.clone()?,
        predicates: marked_predicates(alloc, streams, part.predicates.as_slice())?,
    })
}

fn marked_step(alloc: Global, streams: bool, step: &PatternStep) -> Result<PatternStep, AllocError>
    ensures { IfOk result (λ made. made ≡ spec.marked_pattern_step streams step.now) }
{
    Ok(PatternStep {
        deep: step.deep,
        part: marked_part(alloc, streams, &step.part)?,
    })
}

fn marked_steps(
    alloc: Global,
    streams: bool,
    steps: &[PatternStep],
) -> Result<List<PatternStep>, AllocError>
    ensures { IfOk result (λ made. made ≡ map (spec.marked_pattern_step streams) steps.now) }
{
    let mut made = List::new(alloc);
    for step in steps {
        made.push(marked_step(alloc, streams, step)?)?;
    }
    Ok(made)
}

fn copy_start(start: &PatternStart) -> Result<PatternStart, AllocError>
    ensures { IfOk result (λ copy. copy ≡ start.now) }
{
    start.clone()
}

fn marked_path(alloc: Global, streams: bool, path: &PatternPath) -> Result<PatternPath, AllocError>
    ensures { IfOk result (λ made. made ≡ spec.marked_pattern streams path.now) }
{
    Ok(PatternPath {
        start: copy_start(&path.start)?,
        parts: marked_steps(alloc, streams, path.parts.as_slice())?,
    })
}

fn test_priority(test: &TestExpr) -> i32
    ensures { result ≡ spec.test_priority test.now }
{
    match test {
        TestExpr::Name(_) => 0,
        TestExpr::Instruction(Some(_)) => 0,
        TestExpr::InPrefix(_) => -25,
        _ => -50,
    }
}

fn step_priority(test: &TestExpr, predicates: &[Expr]) -> i32
    ensures { result ≡ spec.step_priority test.now predicates.now }
{
    match predicates {
        [] => test_priority(test),
        _ => 50,
    }
}

fn parts_priority(parts: &[PatternStep]) -> i32
    ensures { result ≡ spec.parts_priority parts.now }
{
    match parts {
        [step] => step_priority(&step.part.test, step.part.predicates.as_slice()),
        _ => 50,
    }
}

fn default_by(start: &PatternStart, parts: &[PatternStep]) -> i32
    ensures { result ≡ spec.default_by start.now parts.now }
{
    match start {
        PatternStart::Relative => parts_priority(parts),
        _ => 50,
    }
}

// The default priority in hundredths (XSLT 1.0, section 5.5).
fn default_priority(path: &PatternPath) -> i32
    ensures { result ≡ spec.default_priority path.now }
{
    default_by(&path.start, path.parts.as_slice())
}

fn rule(
    alloc: Global,
    making: &Making,
    element: &Judged,
    place: u32,
    path: &PatternPath,
) -> Result<Rule, AllocError>
    ensures { IfOk result (λ rule. rule ≡ spec.rule making.now.names.now making.now.streams element.now place path.now) }
{
    let priority = first_priority(Word::Priority, element.given.as_slice());
    Ok(Rule {
        pattern: marked_path(alloc, making.streams, path)?,
        mode: mode_number(alloc, &making.names.modes, mode_name(element))?,
        priority: priority.unwrap_or(default_priority(path)),
        precedence: 0,
        template: place,
    })
}

fn add_alternatives(
    alloc: Global,
    making: &Making,
    element: &Judged,
    place: u32,
    paths: &[PatternPath],
    rules: &mut List<Rule>,
) -> Result<(), AllocError>
    ensures { IfOk result (λ _. rules.new ≡ rules.old ++ map (spec.rule making.now.names.now making.now.streams element.now place) paths.now) }
{
    for path in paths {
        rules.push(rule(alloc, making, element, place, path)?)?;
    }
    Ok(())
}

/// Adds the rules of a template, one for each alternative of its pattern (XSLT 1.0, section 5.3).
pub fn add_rules(
    alloc: Global,
    making: &Making,
    element: &Judged,
    place: u32,
    rules: &mut List<Rule>,
) -> Result<(), AllocError>
    ensures { IfOk result (λ _. rules.new ≡ rules.old ++ spec.rules making.now.names.now making.now.streams element.now place) }
{
    match first_pattern(Word::Match, element.given.as_slice()) {
        Some(pattern) => add_alternatives(
            alloc,
            making,
            element,
            place,
            pattern.alternatives.as_slice(),
            rules,
        ),
        None => Ok(()),
    }
}
