//! Expressions (XPath 1.0, 2 and 3).

ghost use Rattle.xpath_grammar.specs.Productions as rule;
ghost use Rattle.xpath_grammar.specs.Reading.{Reads};
ghost use Rattle.std.specs.Prelude.{◌<◌};
ghost use Rattle.xpath_grammar.specs.Signs.{place};
ghost use Rattle.xpath_grammar.specs.Words.{whole_numbers};
ghost use Rattle.xpath_grammar.specs.declared.sign.Precedence.TheVariants as precedence;
ghost use Rattle.xpath_words.specs.Seen.{Answered, ReadsSo, led_steps, location_path, seen, Whole};

use lists::{Boxed, List};
use std::alloc::Global;
use xpath_grammar::{Cause, Precedence, reading_is_exact};
use xpath_syntax::{AxisName, Expr, StepExpr};
use xpath_words::{
    Lookahead, ParseStop, Word, after, any_node, atom, axis_of, binary, comes, expect, filtered,
    going_on, name, next_operator, no_predicates, node_test, path, precedence_of, push_step,
    slashed, tighter,
};

/// The most levels that may be nested.
pub const MOST_LEVELS: u32 = 100;

#[cycle(reading)]
fn level<'a>(
    alloc: Global,
    words: &'a [Word<'a>],
    p: Precedence,
    depth: u32,
) -> Result<(Expr, &'a [Word<'a>]), ParseStop>
    ensures { Answered (λ x. (x.0, seen x.1.now)) (ReadsSo depth (rule.level p) (seen words.now)) result }
{
    match p {
        Precedence::Path => operand(alloc, words, depth),
        Precedence::Unary => unary(alloc, words, depth),
        Precedence::Union => union(alloc, words, depth),
        Precedence::Multiplicative
        | Precedence::Additive
        | Precedence::Relational
        | Precedence::Equality
        | Precedence::And
        | Precedence::Or => climb(alloc, words, p, depth),
    }
}

/// Operands with the operators from `*` to those of a precedence, which group to the left. One loop reads them all: the
/// next operator is never tighter than the last, for the right operand took those that are.
#[cycle(reading)]
fn climb<'a>(
    alloc: Global,
    words: &'a [Word<'a>],
    p: Precedence,
    depth: u32,
) -> Result<(Expr, &'a [Word<'a>]), ParseStop>
    requires { place precedence.Unary < place p }
    ensures { Answered (λ x. (x.0, seen x.1.now)) (ReadsSo depth (rule.level p) (seen words.now)) result }
{
    let (mut left, mut rest) = unary(alloc, words, depth)?;
    let mut from = Precedence::Multiplicative;
    while let Some((op, next)) = next_operator(rest, from, p) {
        from = precedence_of(op);
        let (right, behind) = level(alloc, next, tighter(from), depth)?;
        left = binary(alloc, op, left, right)?;
        rest = behind;
    }
    Ok((left, rest))
}

/// Paths and primaries with `|` between them, which group to the left.
#[cycle(reading)]
fn union<'a>(
    alloc: Global,
    words: &'a [Word<'a>],
    depth: u32,
) -> Result<(Expr, &'a [Word<'a>]), ParseStop>
    ensures { Answered (λ x. (x.0, seen x.1.now)) (ReadsSo depth (rule.level precedence.Union) (seen words.now)) result }
{
    let (mut left, mut rest) = operand(alloc, words, depth)?;
    while let Some((op, next)) = next_operator(rest, Precedence::Union, Precedence::Union) {
        let (right, behind) = operand(alloc, next, depth)?;
        left = binary(alloc, op, left, right)?;
        rest = behind;
    }
    Ok((left, rest))
}

#[cycle(reading)]
fn unary<'a>(
    alloc: Global,
    words: &'a [Word<'a>],
    depth: u32,
) -> Result<(Expr, &'a [Word<'a>]), ParseStop>
    ensures { Answered (λ x. (x.0, seen x.1.now)) (ReadsSo depth (rule.level precedence.Unary) (seen words.now)) result }
{
    let Some((_, rest)) = after(words, Lookahead::Minus) else {
        return union(alloc, words, depth);
    };
    if depth == 0 {
        return Err(ParseStop::Refused(Cause::TooDeep, words.len()));
    }
    let (inner, behind) = unary(alloc, rest, depth - 1)?;
    Ok((Expr::Minus(Boxed::new(alloc, inner)?), behind))
}

/// A primary with what filters it, or a location path.
#[cycle(reading)]
fn operand<'a>(
    alloc: Global,
    words: &'a [Word<'a>],
    depth: u32,
) -> Result<(Expr, &'a [Word<'a>]), ParseStop>
    ensures { Answered (λ x. (x.0, seen x.1.now)) (ReadsSo depth (rule.level precedence.Path) (seen words.now)) result }
{
    if !comes(words, Lookahead::Primary) {
        return location(alloc, words, depth);
    }
    let (inner, behind) = primary(alloc, words, depth)?;
    let (filters, behind) = predicates(alloc, behind, depth)?;
    let Some((deep, next)) = slashed(behind) else {
        return Ok((filtered(alloc, inner, filters, None)?, behind));
    };
    let (parts, behind) = steps(alloc, next, deep, depth)?;
    let tail = Some(path(false, parts));
    Ok((filtered(alloc, inner, filters, tail)?, behind))
}

#[cycle(reading)]
fn primary<'a>(
    alloc: Global,
    words: &'a [Word<'a>],
    depth: u32,
) -> Result<(Expr, &'a [Word<'a>]), ParseStop>
    ensures { Answered (λ x. (x.0, seen x.1.now)) (ReadsSo depth rule.primary (seen words.now)) result }
{
    if let Some((_, rest)) = after(words, Lookahead::Open) {
        if depth == 0 {
            return Err(ParseStop::Refused(Cause::TooDeep, words.len()));
        }
        let (inner, behind) = climb(alloc, rest, Precedence::Or, depth - 1)?;
        let (_, behind) = expect(behind, Lookahead::Close)?;
        return Ok((inner, behind));
    }
    let Some((word, rest)) = after(words, Lookahead::Function) else {
        return atom(alloc, words);
    };
    if depth == 0 {
        return Err(ParseStop::Refused(Cause::TooDeep, words.len()));
    }
    let (_, inner) = expect(rest, Lookahead::Open)?;
    let (args, behind) = arguments(alloc, inner, depth - 1)?;
    let (_, behind) = expect(behind, Lookahead::Close)?;
    let name = name(alloc, word.text)?;
    Ok((Expr::Call { name, args }, behind))
}

#[cycle(reading)]
fn arguments<'a>(
    alloc: Global,
    words: &'a [Word<'a>],
    depth: u32,
) -> Result<(List<Expr>, &'a [Word<'a>]), ParseStop>
    ensures { Answered (λ x. (x.0, seen x.1.now)) (ReadsSo depth rule.arguments (seen words.now)) result }
{
    if !comes(words, Lookahead::Expression) {
        return Ok((List::new(alloc), words));
    }
    let (one, behind) = climb(alloc, words, Precedence::Or, depth)?;
    let mut args = List::new(alloc);
    args.push(one)?;
    let mut rest = behind;
    while let Some((_, next)) = after(rest, Lookahead::Comma) {
        let (one, behind) = climb(alloc, next, Precedence::Or, depth)?;
        args.push(one)?;
        rest = behind;
    }
    Ok((args, rest))
}

#[cycle(reading)]
fn predicates<'a>(
    alloc: Global,
    words: &'a [Word<'a>],
    depth: u32,
) -> Result<(List<Expr>, &'a [Word<'a>]), ParseStop>
    ensures { Answered (λ x. (x.0, seen x.1.now)) (ReadsSo depth rule.predicates (seen words.now)) result }
{
    if depth == 0 {
        return no_predicates(alloc, words);
    }
    let (mut all, mut rest) = going_on(List::new(alloc), words);
    while let Some((_, next)) = after(rest, Lookahead::OpenSquare) {
        let (one, behind) = climb(alloc, next, Precedence::Or, depth - 1)?;
        let (_, behind) = expect(behind, Lookahead::CloseSquare)?;
        all.push(one)?;
        rest = behind;
    }
    Ok((all, rest))
}

#[cycle(reading)]
fn location<'a>(
    alloc: Global,
    words: &'a [Word<'a>],
    depth: u32,
) -> Result<(Expr, &'a [Word<'a>]), ParseStop>
    ensures { Answered (λ x. (x.0, seen x.1.now)) (Reads whole_numbers depth (rule.level precedence.Path) location_path (seen words.now)) result }
{
    let Some((deep, next)) = slashed(words) else {
        let (parts, behind) = steps(alloc, words, false, depth)?;
        return Ok((Expr::Path(path(false, parts)), behind));
    };
    if !deep && !comes(next, Lookahead::Step) {
        return Ok((Expr::Path(path(true, List::new(alloc))), next));
    }
    let (parts, behind) = steps(alloc, next, deep, depth)?;
    Ok((Expr::Path(path(true, parts)), behind))
}

/// The steps of a relative path, with that of the `//` before them where there is one.
#[cycle(reading)]
fn steps<'a>(
    alloc: Global,
    words: &'a [Word<'a>],
    deep: bool,
    depth: u32,
) -> Result<(List<StepExpr>, &'a [Word<'a>]), ParseStop>
    ensures { Answered (λ x. (x.0, seen x.1.now)) (Reads whole_numbers depth rule.more_steps (led_steps deep) (seen words.now)) result }
{
    let (one, behind) = step(alloc, words, depth)?;
    let mut parts = List::new(alloc);
    push_step(alloc, &mut parts, deep, one)?;
    let mut rest = behind;
    while let Some((deeper, next)) = slashed(rest) {
        let (one, behind) = step(alloc, next, depth)?;
        push_step(alloc, &mut parts, deeper, one)?;
        rest = behind;
    }
    Ok((parts, rest))
}

#[cycle(reading)]
fn step<'a>(
    alloc: Global,
    words: &'a [Word<'a>],
    depth: u32,
) -> Result<(StepExpr, &'a [Word<'a>]), ParseStop>
    ensures { Answered (λ x. (x.0, seen x.1.now)) (ReadsSo depth rule.step (seen words.now)) result }
{
    if let Some((_, rest)) = after(words, Lookahead::Point) {
        return Ok((any_node(alloc, AxisName::Itself), rest));
    }
    if let Some((_, rest)) = after(words, Lookahead::Points) {
        return Ok((any_node(alloc, AxisName::Parent), rest));
    }
    if let Some((_, rest)) = after(words, Lookahead::At) {
        return tested(alloc, AxisName::Attribute, rest, depth);
    }
    if let Some((word, rest)) = after(words, Lookahead::Axis) {
        let (_, rest) = expect(rest, Lookahead::Colons)?;
        return tested(alloc, axis_of(word.sign), rest, depth);
    }
    tested(alloc, AxisName::Child, words, depth)
}

/// A node test and predicates, on an axis.
#[cycle(reading)]
pub fn tested<'a>(
    alloc: Global,
    axis: AxisName,
    words: &'a [Word<'a>],
    depth: u32,
) -> Result<(StepExpr, &'a [Word<'a>]), ParseStop>
    ensures { Answered (λ x. (x.0, seen x.1.now)) (ReadsSo depth (rule.tested axis) (seen words.now)) result }
{
    let (test, behind) = node_test(alloc, words)?;
    let (predicates, behind) = predicates(alloc, behind, depth)?;
    Ok((
        StepExpr {
            axis,
            test,
            predicates,
        },
        behind,
    ))
}

/// The tree of an expression's words, or why and where they are refused. Costs O(words) steps.
pub fn expression_tree<'a>(alloc: Global, words: &'a [Word<'a>]) -> Result<Expr, ParseStop>
    ensures { Whole (rule.level precedence.Or) (seen words.now) result }
{
    // Runs nothing: by its law, what `climb` reads is the tree, or where and why there is none.
    reading_is_exact();
    let (tree, rest) = climb(alloc, words, Precedence::Or, MOST_LEVELS)?;
    if rest.is_empty() {
        Ok(tree)
    } else {
        Err(ParseStop::Refused(Cause::Syntax, rest.len()))
    }
}
