//! Patterns (XSLT 1.0, 5.2).

ghost use Rattle.std.specs.Prelude.{◌≡◌};
ghost use Rattle.xpath_grammar.specs.Productions as rule;
ghost use Rattle.xpath_grammar.specs.Reading.{Reads};
ghost use Rattle.xpath_grammar.specs.Words.{whole_numbers};
ghost use Rattle.xpath_trees.specs.Patterns.{Added, begun_by, behind_id, behind_key, behind_root};
ghost use Rattle.xpath_words.specs.Seen.{Answered, ReadsSo, Whole, most_levels, seen};

use crate::expressions::{MOST_LEVELS, tested};
use lists::List;
use std::alloc::Global;
use xpath_grammar::{Cause, reading_is_exact};
use xpath_syntax::{AxisName, Pattern, PatternPath, PatternStart, PatternStep, StepExpr};
use xpath_words::{
    Lookahead, ParseStop, Word, after, axis_of, comes, expect, going_on, literal, name, quoted,
    slashed,
};

/// A step: a node test with predicates, on an axis.
fn step<'a>(alloc: Global, words: &'a [Word<'a>]) -> Result<(StepExpr, &'a [Word<'a>]), ParseStop>
    ensures { Answered (λ x. (x.0, seen x.1.now)) (ReadsSo most_levels rule.pattern_step (seen words.now)) result }
{
    if let Some((_, rest)) = after(words, Lookahead::At) {
        return tested(alloc, AxisName::Attribute, rest, MOST_LEVELS);
    }
    if let Some((word, rest)) = after(words, Lookahead::PatternAxis) {
        let (_, rest) = expect(rest, Lookahead::Colons)?;
        return tested(alloc, axis_of(word.sign), rest, MOST_LEVELS);
    }
    tested(alloc, AxisName::Child, words, MOST_LEVELS)
}

/// The first step, and those behind it.
fn steps<'a>(
    alloc: Global,
    words: &'a [Word<'a>],
) -> Result<(List<PatternStep>, &'a [Word<'a>]), ParseStop>
    ensures { Answered (λ x. (x.0, seen x.1.now)) (ReadsSo most_levels rule.pattern_steps (seen words.now)) result }
{
    let (part, rest) = step(alloc, words)?;
    let mut parts = List::new(alloc);
    parts.push(PatternStep { deep: false, part })?;
    more_steps(alloc, rest, parts)
}

/// The steps behind others, added to them.
fn more_steps<'a>(
    alloc: Global,
    words: &'a [Word<'a>],
    before: List<PatternStep>,
) -> Result<(List<PatternStep>, &'a [Word<'a>]), ParseStop>
    ensures { Answered (λ x. (x.0, seen x.1.now)) (Added before (ReadsSo most_levels rule.more_pattern_steps (seen words.now))) result }
{
    let (mut parts, mut rest) = going_on(before, words);
    while let Some((deep, next)) = slashed(rest) {
        let (part, behind) = step(alloc, next)?;
        parts.push(PatternStep { deep, part })?;
        rest = behind;
    }
    Ok((parts, rest))
}

/// What stands behind `id`.
fn id<'a>(alloc: Global, rest: &'a [Word<'a>]) -> Result<(PatternPath, &'a [Word<'a>]), ParseStop>
    ensures { Answered (λ x. (x.0, seen x.1.now)) (Reads whole_numbers most_levels rule.pattern_path behind_id (seen rest.now)) result }
{
    let (_, rest) = expect(rest, Lookahead::Open)?;
    let (value, rest) = expect(rest, Lookahead::Literal)?;
    let (_, rest) = expect(rest, Lookahead::Close)?;
    let start = PatternStart::Id(literal(alloc, value.text)?);
    let (parts, rest) = more_steps(alloc, rest, List::new(alloc))?;
    Ok((PatternPath { start, parts }, rest))
}

/// What stands behind `key`.
fn key<'a>(alloc: Global, rest: &'a [Word<'a>]) -> Result<(PatternPath, &'a [Word<'a>]), ParseStop>
    ensures { Answered (λ x. (x.0, seen x.1.now)) (Reads whole_numbers most_levels rule.pattern_path behind_key (seen rest.now)) result }
{
    let (_, rest) = expect(rest, Lookahead::Open)?;
    let (key_name, rest) = expect(rest, Lookahead::NameLiteral)?;
    let (_, rest) = expect(rest, Lookahead::Comma)?;
    let (value, rest) = expect(rest, Lookahead::Literal)?;
    let (_, rest) = expect(rest, Lookahead::Close)?;
    let start = PatternStart::Key {
        name: name(alloc, quoted(key_name.text))?,
        value: literal(alloc, value.text)?,
    };
    let (parts, rest) = more_steps(alloc, rest, List::new(alloc))?;
    Ok((PatternPath { start, parts }, rest))
}

/// The steps behind a start.
fn started<'a>(
    alloc: Global,
    start: PatternStart,
    words: &'a [Word<'a>],
) -> Result<(PatternPath, &'a [Word<'a>]), ParseStop>
    ensures { Answered (λ x. (x.0, seen x.1.now)) (Reads whole_numbers most_levels rule.pattern_path (begun_by start) (seen words.now)) result }
{
    let (parts, rest) = steps(alloc, words)?;
    Ok((PatternPath { start, parts }, rest))
}

/// What stands behind `/` at the front.
fn from_root<'a>(
    alloc: Global,
    rest: &'a [Word<'a>],
) -> Result<(PatternPath, &'a [Word<'a>]), ParseStop>
    ensures { Answered (λ x. (x.0, seen x.1.now)) (Reads whole_numbers most_levels rule.pattern_path behind_root (seen rest.now)) result }
{
    if comes(rest, Lookahead::PatternStep) {
        return started(alloc, PatternStart::Root, rest);
    }
    let path = PatternPath {
        start: PatternStart::Root,
        parts: List::new(alloc),
    };
    Ok((path, rest))
}

/// A path: one of the patterns that `|` joins.
fn pattern_path<'a>(
    alloc: Global,
    words: &'a [Word<'a>],
) -> Result<(PatternPath, &'a [Word<'a>]), ParseStop>
    ensures { Answered (λ x. (x.0, seen x.1.now)) (ReadsSo most_levels rule.pattern_path (seen words.now)) result }
{
    if let Some((_, rest)) = after(words, Lookahead::Slash) {
        return from_root(alloc, rest);
    }
    if let Some((_, rest)) = after(words, Lookahead::Slashes) {
        return started(alloc, PatternStart::Deep, rest);
    }
    if let Some((_, rest)) = after(words, Lookahead::Id) {
        return id(alloc, rest);
    }
    if let Some((_, rest)) = after(words, Lookahead::Key) {
        return key(alloc, rest);
    }
    started(alloc, PatternStart::Relative, words)
}

/// Paths that `|` joins.
fn alternatives<'a>(
    alloc: Global,
    words: &'a [Word<'a>],
) -> Result<(Pattern, &'a [Word<'a>]), ParseStop>
    ensures { Answered (λ x. (x.0, seen x.1.now)) (ReadsSo most_levels rule.pattern (seen words.now)) result }
{
    let (one, behind) = pattern_path(alloc, words)?;
    let mut paths = List::new(alloc);
    paths.push(one)?;
    let mut rest = behind;
    while let Some((_, next)) = after(rest, Lookahead::Bar) {
        let (one, behind) = pattern_path(alloc, next)?;
        paths.push(one)?;
        rest = behind;
    }
    Ok((
        Pattern {
            alternatives: paths,
        },
        rest,
    ))
}

/// The tree of a pattern's words, or why and where they are refused. Costs O(words) steps.
pub fn pattern_tree<'a>(alloc: Global, words: &'a [Word<'a>]) -> Result<Pattern, ParseStop>
    ensures { Whole rule.pattern (seen words.now) result }
{
    reading_is_exact();
    let (tree, rest) = alternatives(alloc, words)?;
    if rest.is_empty() {
        Ok(tree)
    } else {
        Err(ParseStop::Refused(Cause::Syntax, rest.len()))
    }
}
