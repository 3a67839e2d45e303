//! Patterns with their names bound.

ghost use Rattle.std.specs.Prelude.{◌≡◌, map, IfOk};
ghost use Rattle.xpath_binding.specs.Around.{scope};
ghost use Rattle.xpath_binding.specs.Binding as spec;
ghost use Rattle.xpath_binding.specs.Names.{Answers, resolution};

use crate::around::Around;
use crate::binding::bind_step;
use crate::error::BindError;
use crate::names::bind_name;
use lists::List;
use std::alloc::{AllocError, Global};
use xml_names::Scopes;
use xpath_syntax::{Pattern, PatternPath, PatternStart, PatternStep};

/// Binds the names of a pattern as `bind` does without variables, and refuses current() in it.
pub fn bind_pattern(alloc: Global, p: Pattern, scopes: &Scopes) -> Result<Pattern, BindError>
    ensures { Answers (spec.bound_pattern (resolution scopes.now) p) result }
{
    let around = Around {
        scopes,
        vars: None,
        in_pattern: true,
    };
    let alternatives = bind_paths(alloc, &p.alternatives, &around)?;
    Ok(Pattern { alternatives })
}

fn bind_paths(
    alloc: Global,
    paths: &List<PatternPath>,
    around: &Around<'_>,
) -> Result<List<PatternPath>, BindError>
    ensures { Answers (spec.in_order (map (spec.bound_pattern_path (scope around.now)) paths.now)) result }
{
    let mut bound = List::new(alloc);
    for path in paths.as_slice() {
        bound.push(bind_pattern_path(alloc, path, around)?)?;
    }
    Ok(bound)
}

fn bind_pattern_path(
    alloc: Global,
    path: &PatternPath,
    around: &Around<'_>,
) -> Result<PatternPath, BindError>
    ensures { Answers (spec.bound_pattern_path (scope around.now) path.now) result }
{
    let start = bind_start(alloc, copy_start(&path.start)?, around.scopes)?;
    let parts = bind_pattern_steps(alloc, &path.parts, around)?;
    Ok(PatternPath { start, parts })
}

fn copy_start(start: &PatternStart) -> Result<PatternStart, AllocError>
    ensures { IfOk result (λ copy. copy ≡ start.now) }
{
    start.clone()
}

// Of a key, its name.
fn bind_start(
    alloc: Global,
    start: PatternStart,
    scopes: &Scopes,
) -> Result<PatternStart, BindError>
    ensures { Answers (spec.bound_start (resolution scopes.now) start) result }
{
    match start {
        PatternStart::Relative => Ok(PatternStart::Relative),
        PatternStart::Root => Ok(PatternStart::Root),
        PatternStart::Deep => Ok(PatternStart::Deep),
        PatternStart::Id(value) => Ok(PatternStart::Id(value)),
        PatternStart::Key { name, value } => Ok(PatternStart::Key {
            name: bind_name(alloc, name, scopes)?,
            value,
        }),
    }
}

fn bind_pattern_steps(
    alloc: Global,
    steps: &List<PatternStep>,
    around: &Around<'_>,
) -> Result<List<PatternStep>, BindError>
    ensures { Answers (spec.in_order (map (spec.bound_pattern_step (scope around.now)) steps.now)) result }
{
    let mut bound = List::new(alloc);
    for step in steps.as_slice() {
        bound.push(bind_pattern_step(alloc, step, around)?)?;
    }
    Ok(bound)
}

fn bind_pattern_step(
    alloc: Global,
    step: &PatternStep,
    around: &Around<'_>,
) -> Result<PatternStep, BindError>
    ensures { Answers (spec.bound_pattern_step (scope around.now) step.now) result }
{
    let part = bind_step(alloc, &step.part, around)?;
    Ok(PatternStep {
        deep: step.deep,
        part,
    })
}
