//! What is read without reading an expression. A function that reads takes the words that are left, and answers what
//! it read with the words behind it. Costs are O(1) where none is told.

ghost use Rattle.std.specs.Prelude.{◌≡◌, ◌∷◌, ◌++◌, [], ℕ, true, false, IfOk, MatchOption, MatchResult, None, OnOk, length};
ghost use Rattle.xpath_grammar.specs.Grammar as grammar;
ghost use Rattle.xpath_grammar.specs.Productions as rule;
ghost use Rattle.xpath_grammar.specs.Reading.{Reads, Skips};
ghost use Rattle.xpath_grammar.specs.Signs as signs;
ghost use Rattle.xpath_grammar.specs.Words.{number_of, whole_numbers};
ghost use Rattle.xpath_words.specs.Seen.{Answered, IsFlaw, IsOperator, IsOutside, NoOperator, Passes, ReadsSo, Slashed, Tested, Within};
ghost use Rattle.xpath_words.specs.Seen.{atom as atom_production, behind_instruction, behind_node_type, led, passes, seen, seen_word};
ghost use Rattle.xpath_words.specs.declared.stop.ParseStop.TheVariants as stop;
ghost use Rattle.xpath_grammar.specs.declared.sign.Cause.TheVariants as cause;
ghost use Rattle.xpath_syntax.specs.declared.expression.Expr.TheVariants as expr;
ghost use Rattle.xpath_syntax.specs.declared.expression.TestExpr.TheVariants as test;

use crate::lexical;
use crate::stop::ParseStop;
use crate::word::Word;
use lists::{Boxed, List};
use std::alloc::{AllocError, Global};
use whole_num::Num;
use xpath_grammar::{Cause, Precedence, Sign};
use xpath_syntax::{AxisName, Expr, Op, Path, StepExpr, TestExpr};

/// What a reading function looks for: a word of one kind, or one with which a part of an expression begins.
#[derive(Clone, Copy, Debug, PartialEq, Eq)]
pub enum Lookahead {
    /// `-`, unary or between operands.
    Minus,
    /// `|`.
    Bar,
    /// `/`.
    Slash,
    /// `//`.
    Slashes,
    /// `(`.
    Open,
    /// `)`.
    Close,
    /// `[`.
    OpenSquare,
    /// `]`.
    CloseSquare,
    /// `.`.
    Point,
    /// `..`.
    Points,
    /// `@`.
    At,
    /// `,`.
    Comma,
    /// `::`.
    Colons,
    /// The name of an axis.
    Axis,
    /// `child` or `attribute` as the name of an axis: a pattern has no other.
    PatternAxis,
    /// `*` as a name test.
    Star,
    /// `prefix:*`.
    InPrefix,
    /// `node`, `text` or `comment` before `(`.
    NodeType,
    /// `processing-instruction` before `(`.
    Instruction,
    Name,
    Variable,
    Number,
    Literal,
    /// A literal whose text is a name.
    NameLiteral,
    /// The name of a function, `id` and `key` among them.
    Function,
    /// The function `id`.
    Id,
    /// The function `key`.
    Key,
    /// What a step begins with (XPath 1.0, 2.1).
    Step,
    /// What a step of a pattern begins with (XSLT 1.0, 5.2).
    PatternStep,
    /// What a primary begins with (XPath 1.0, 3.1).
    Primary,
    /// What an expression begins with.
    Expression,
}

fn begins_test(sign: Sign) -> bool
    ensures { result ≡ signs.begins_test sign }
{
    matches!(
        sign,
        Sign::Name
            | Sign::InPrefix
            | Sign::Star
            | Sign::Node
            | Sign::Text
            | Sign::Comment
            | Sign::Instruction
    )
}

fn begins_step(sign: Sign) -> bool
    ensures { result ≡ signs.begins_step sign }
{
    matches!(sign, Sign::Point | Sign::Points | Sign::At | Sign::Axis(_)) || begins_test(sign)
}

fn is_pattern_axis(sign: Sign) -> bool
    ensures { result ≡ signs.is_pattern_axis sign }
{
    matches!(
        sign,
        Sign::Axis(AxisName::Child) | Sign::Axis(AxisName::Attribute)
    )
}

fn begins_pattern_step(sign: Sign) -> bool
    ensures { result ≡ signs.begins_pattern_step sign }
{
    matches!(sign, Sign::At) || is_pattern_axis(sign) || begins_test(sign)
}

/// Whether the word is the name of a function, `id` and `key` among them.
pub fn is_function(sign: Sign) -> bool
    ensures { result ≡ signs.is_function sign }
{
    matches!(sign, Sign::Id | Sign::Key | Sign::Function)
}

fn begins_primary(sign: Sign) -> bool
    ensures { result ≡ signs.begins_primary sign }
{
    matches!(
        sign,
        Sign::Variable | Sign::Open | Sign::NameLiteral | Sign::Literal | Sign::Number
    ) || is_function(sign)
}

fn is_minus(sign: Sign) -> bool
    ensures { result ≡ signs.is_minus sign }
{
    matches!(sign, Sign::Operator(Op::Subtract))
}

fn begins_expression(sign: Sign) -> bool
    ensures { result ≡ signs.begins_expression sign }
{
    is_minus(sign)
        || begins_primary(sign)
        || matches!(sign, Sign::Slash)
        || matches!(sign, Sign::Slashes)
        || begins_step(sign)
}

fn passes_mark(wanted: Lookahead, sign: Sign) -> bool
    ensures { result ≡ passes wanted sign }
{
    match wanted {
        Lookahead::Minus => is_minus(sign),
        Lookahead::Bar => matches!(sign, Sign::Operator(Op::Union)),
        Lookahead::Slash => matches!(sign, Sign::Slash),
        Lookahead::Slashes => matches!(sign, Sign::Slashes),
        Lookahead::Open => matches!(sign, Sign::Open),
        Lookahead::Close => matches!(sign, Sign::Close),
        Lookahead::OpenSquare => matches!(sign, Sign::OpenSquare),
        Lookahead::CloseSquare => matches!(sign, Sign::CloseSquare),
        Lookahead::Point => matches!(sign, Sign::Point),
        Lookahead::Points => matches!(sign, Sign::Points),
        Lookahead::At => matches!(sign, Sign::At),
        Lookahead::Comma => matches!(sign, Sign::Comma),
        Lookahead::Colons => matches!(sign, Sign::Colons),
        Lookahead::Axis => matches!(sign, Sign::Axis(_)),
        Lookahead::PatternAxis => is_pattern_axis(sign),
        Lookahead::Star => matches!(sign, Sign::Star),
        Lookahead::InPrefix => matches!(sign, Sign::InPrefix),
        Lookahead::NodeType => matches!(sign, Sign::Node | Sign::Text | Sign::Comment),
        Lookahead::Instruction => matches!(sign, Sign::Instruction),
        Lookahead::Name => matches!(sign, Sign::Name),
        Lookahead::Variable => matches!(sign, Sign::Variable),
        Lookahead::Number => matches!(sign, Sign::Number),
        Lookahead::Literal => matches!(sign, Sign::NameLiteral | Sign::Literal),
        Lookahead::NameLiteral => matches!(sign, Sign::NameLiteral),
        Lookahead::Function => is_function(sign),
        Lookahead::Id => matches!(sign, Sign::Id),
        Lookahead::Key => matches!(sign, Sign::Key),
        Lookahead::Step => begins_step(sign),
        Lookahead::PatternStep => begins_pattern_step(sign),
        Lookahead::Primary => begins_primary(sign),
        Lookahead::Expression => begins_expression(sign),
    }
}

/// The first word, and those behind it.
fn first<'a>(words: &'a [Word<'a>]) -> Option<(Word<'a>, &'a [Word<'a>])>
    ensures { MatchOption result (words.now ≡ []) (λ r. words.now ≡ r.0 ∷ r.1.now) }
{
    match words {
        [] => None,
        [word, rest @ ..] => Some((*word, rest)),
    }
}

/// The next word and those behind it, or None where no word comes or one that is not wanted.
pub fn after<'a>(words: &'a [Word<'a>], wanted: Lookahead) -> Option<(Word<'a>, &'a [Word<'a>])>
    ensures { MatchOption result (Skips (passes wanted) (seen words.now)) (λ r. Passes (passes wanted) (seen words.now) (seen_word r.0) (seen r.1.now)) }
{
    let (word, rest) = first(words)?;
    passes_mark(wanted, word.sign).then_some((word, rest))
}

/// The next word, which must be wanted, and those behind it. Where no word comes or another one, it is refused there
/// for Syntax.
pub fn expect<'a>(
    words: &'a [Word<'a>],
    wanted: Lookahead,
) -> Result<(Word<'a>, &'a [Word<'a>]), ParseStop>
    ensures { MatchResult result (λ r. Passes (passes wanted) (seen words.now) (seen_word r.0) (seen r.1.now)) (λ e.
        Skips (passes wanted) (seen words.now) × (e ≡ stop.Refused cause.Syntax (length (seen words.now)))) }
{
    match after(words, wanted) {
        Some(next) => Ok(next),
        None => Err(ParseStop::Refused(Cause::Syntax, words.len())),
    }
}

/// The list and the words as they are: where a loop begins that takes words and adds to the list.
pub fn going_on<'a, T>(list: List<T>, words: &'a [Word<'a>]) -> (List<T>, &'a [Word<'a>])
    ensures { (result.0 ≡ list) × (result.1.now ≡ words.now) }
{
    (list, words)
}

/// Whether a word comes next that is wanted.
pub fn comes(words: &[Word], wanted: Lookahead) -> bool
    ensures { Tested result (passes wanted) (seen words.now) }
{
    match first(words) {
        None => false,
        Some((word, _)) => passes_mark(wanted, word.sign),
    }
}

/// False where `/` comes and true where `//` does, with the words behind it; None where neither comes.
pub fn slashed<'a>(words: &'a [Word<'a>]) -> Option<(bool, &'a [Word<'a>])>
    ensures { MatchOption result (Skips signs.is_slash (seen words.now) × Skips signs.is_slashes (seen words.now)) (λ r. Slashed r.0 (seen words.now) (seen r.1.now)) }
{
    match after(words, Lookahead::Slash) {
        Some((_, rest)) => Some((false, rest)),
        None => match after(words, Lookahead::Slashes) {
            Some((_, rest)) => Some((true, rest)),
            None => None,
        },
    }
}

/// The axis that the word names (XPath 1.0, 2.2), or the child axis where it names none.
pub fn axis_of(sign: Sign) -> AxisName
    ensures { result ≡ signs.axis_of sign }
{
    match sign {
        Sign::Axis(axis) => axis,
        _ => AxisName::Child,
    }
}

/// The next tighter precedence, which is that of the operands (XPath 1.0, 3); of Path, the tightest, it is Path.
pub fn tighter(p: Precedence) -> Precedence
    ensures { result ≡ signs.tighter p }
{
    match p {
        Precedence::Path => Precedence::Path,
        Precedence::Union => Precedence::Path,
        Precedence::Unary => Precedence::Union,
        Precedence::Multiplicative => Precedence::Unary,
        Precedence::Additive => Precedence::Multiplicative,
        Precedence::Relational => Precedence::Additive,
        Precedence::Equality => Precedence::Relational,
        Precedence::And => Precedence::Equality,
        Precedence::Or => Precedence::And,
    }
}

/// How tightly the operator binds (XPath 1.0, 3).
pub fn precedence_of(op: Op) -> Precedence
    ensures { result ≡ signs.precedence_of op }
{
    match op {
        Op::Or => Precedence::Or,
        Op::And => Precedence::And,
        Op::Equal => Precedence::Equality,
        Op::NotEqual => Precedence::Equality,
        Op::Less => Precedence::Relational,
        Op::LessEqual => Precedence::Relational,
        Op::Greater => Precedence::Relational,
        Op::GreaterEqual => Precedence::Relational,
        Op::Add => Precedence::Additive,
        Op::Subtract => Precedence::Additive,
        Op::Multiply => Precedence::Multiplicative,
        Op::Div => Precedence::Multiplicative,
        Op::Mod => Precedence::Multiplicative,
        Op::Union => Precedence::Union,
    }
}

/// The place of a precedence, from the tightest.
fn place(p: Precedence) -> u8
    ensures { result ≡ signs.place p }
{
    match p {
        Precedence::Path => 0,
        Precedence::Union => 1,
        Precedence::Unary => 2,
        Precedence::Multiplicative => 3,
        Precedence::Additive => 4,
        Precedence::Relational => 5,
        Precedence::Equality => 6,
        Precedence::And => 7,
        Precedence::Or => 8,
    }
}

/// The word's operator, where its precedence is one of those from `from` to `to`.
fn operator(from: Precedence, to: Precedence, sign: Sign) -> Option<Op>
    ensures { MatchOption result (IsOutside from to sign) (λ o. Within from to (signs.precedence_of o) × (signs.is_operator (signs.precedence_of o) sign ≡ true) × (o ≡ signs.op_of sign)) }
{
    match sign {
        Sign::Operator(op) => {
            let at = place(precedence_of(op));
            if place(from) <= at && at <= place(to) {
                Some(op)
            } else {
                None
            }
        }
        _ => None,
    }
}

/// The next operator, where its precedence is one of those from `from` to `to`, and the words behind it.
pub fn next_operator<'a>(
    words: &'a [Word<'a>],
    from: Precedence,
    to: Precedence,
) -> Option<(Op, &'a [Word<'a>])>
    ensures { MatchOption result (NoOperator from to (seen words.now)) (λ r. Within from to (signs.precedence_of r.0) × IsOperator (signs.precedence_of r.0) (seen words.now) r.0 (seen r.1.now)) }
{
    let (word, rest) = first(words)?;
    let op = operator(from, to, word.sign)?;
    Some((op, rest))
}

/// The operator between its operands. Fails only for want of memory.
pub fn binary(alloc: Global, op: Op, left: Expr, right: Expr) -> Result<Expr, AllocError>
    ensures { IfOk result (λ e. e ≡ expr.Binary op left right) }
{
    Ok(Expr::Binary {
        op,
        left: Boxed::new(alloc, left)?,
        right: Boxed::new(alloc, right)?,
    })
}

/// The step `axis::node()`, for which `.`, `..` and `//` stand with an axis each (XPath 1.0, 2.5). Takes no memory.
pub fn any_node(alloc: Global, axis: AxisName) -> StepExpr
    ensures { result ≡ grammar.step_of axis test.Node [] }
{
    StepExpr {
        axis,
        test: TestExpr::Node,
        predicates: List::new(alloc),
    }
}

/// Adds a step, and before it, where it is deep, the step that the `//` before it stands for (XPath 1.0, 2.5). Fails
/// only for want of memory: then the list may have the step of the `//` alone. Costs O(1) in the mean.
pub fn push_step(
    alloc: Global,
    parts: &mut List<StepExpr>,
    deep: bool,
    one: StepExpr,
) -> Result<(), AllocError>
    ensures { OnOk result (parts.new ≡ parts.old ++ led deep (one ∷ [])) }
{
    if deep {
        parts.push(any_node(alloc, AxisName::DescendantOrSelf))?;
    }
    parts.push(one)
}

/// The location path of the steps (XPath 1.0, 2), from the root where it is absolute.
pub fn path(absolute: bool, parts: List<StepExpr>) -> Path
    ensures { result ≡ grammar.path_of absolute parts }
{
    Path {
        absolute,
        parts,
        streams: false,
    }
}

/// A primary with the predicates that filter it and the relative path behind them (XPath 1.0, 3.3); with neither it is
/// itself. Fails only for want of memory.
pub fn filtered(
    alloc: Global,
    primary: Expr,
    predicates: List<Expr>,
    tail: Option<Path>,
) -> Result<Expr, AllocError>
    ensures { IfOk result (λ e. e ≡ grammar.filtered primary predicates tail) }
{
    if predicates.is_empty() && tail.is_none() {
        return Ok(primary);
    }
    Ok(Expr::Filter {
        primary: Boxed::new(alloc, primary)?,
        predicates,
        tail,
    })
}

/// The number that is written, or why it is refused, with so many words left. Costs O(length of the text).
fn number(text: &[u8], left: usize) -> Result<Expr, ParseStop>
    ensures { MatchResult result (λ e. (whole_numbers text.now ≡ None) × (e ≡ expr.Number (number_of text.now))) (IsFlaw text.now left) }
{
    match whole_num::parse(text) {
        Ok(Num::Whole(z)) => Ok(Expr::Number(z)),
        Ok(Num::NaN) => Ok(Expr::Number(0)),
        Err(fault) => Err(ParseStop::Refused(Cause::Literal(fault), left)),
    }
}

/// A primary that opens no level, which is a literal, a number or a variable (XPath 1.0, 3.1), and the words behind it.
/// Where another word comes or none, it is refused there for Syntax; a number outside the limits is refused for its
/// fault. Memory comes for want of it. Costs O(length of the word).
pub fn atom<'a>(alloc: Global, words: &'a [Word<'a>]) -> Result<(Expr, &'a [Word<'a>]), ParseStop>
    ensures { (d : ℕ) → Answered (λ x. (x.0, seen x.1.now)) (Reads whole_numbers d rule.primary atom_production (seen words.now)) result }
{
    if let Some((word, rest)) = after(words, Lookahead::Literal) {
        return Ok((Expr::Literal(lexical::literal(alloc, word.text)?), rest));
    }
    if let Some((word, rest)) = after(words, Lookahead::Number) {
        return Ok((number(word.text, words.len())?, rest));
    }
    let (word, rest) = expect(words, Lookahead::Variable)?;
    Ok((Expr::Variable(lexical::variable(alloc, word.text)?), rest))
}

/// What stands behind `processing-instruction`: a literal in brackets, or brackets alone.
fn instruction<'a>(
    alloc: Global,
    words: &'a [Word<'a>],
) -> Result<(TestExpr, &'a [Word<'a>]), ParseStop>
    ensures { (d : ℕ) → Answered (λ x. (x.0, seen x.1.now)) (Reads whole_numbers d rule.node_test behind_instruction (seen words.now)) result }
{
    let (_, inner) = expect(words, Lookahead::Open)?;
    if let Some((word, rest)) = after(inner, Lookahead::Literal) {
        let (_, behind) = expect(rest, Lookahead::Close)?;
        let target = lexical::literal(alloc, word.text)?;
        return Ok((TestExpr::Instruction(Some(target)), behind));
    }
    let (_, behind) = expect(inner, Lookahead::Close)?;
    Ok((TestExpr::Instruction(None), behind))
}

/// The test of a node type that takes no literal.
fn test_of(sign: Sign) -> TestExpr
    ensures { result ≡ grammar.test_of sign }
{
    if matches!(sign, Sign::Text) {
        TestExpr::Text
    } else if matches!(sign, Sign::Comment) {
        TestExpr::Comment
    } else {
        TestExpr::Node
    }
}

/// What stands behind another node type: brackets alone.
fn node_type<'a>(sign: Sign, words: &'a [Word<'a>]) -> Result<(TestExpr, &'a [Word<'a>]), ParseStop>
    ensures { (d : ℕ) → Answered (λ x. (x.0, seen x.1.now)) (Reads whole_numbers d rule.node_test (behind_node_type sign) (seen words.now)) result }
{
    let (_, inner) = expect(words, Lookahead::Open)?;
    let (_, behind) = expect(inner, Lookahead::Close)?;
    Ok((test_of(sign), behind))
}

/// A node test (XPath 1.0, 2.3), and the words behind it. The first word with which no node test goes on is refused for
/// Syntax. Memory comes for want of it. Costs O(length of the words that it reads).
pub fn node_test<'a>(
    alloc: Global,
    words: &'a [Word<'a>],
) -> Result<(TestExpr, &'a [Word<'a>]), ParseStop>
    ensures { (d : ℕ) → Answered (λ x. (x.0, seen x.1.now)) (ReadsSo d rule.node_test (seen words.now)) result }
{
    if let Some((_, rest)) = after(words, Lookahead::Star) {
        return Ok((TestExpr::AnyName, rest));
    }
    if let Some((word, rest)) = after(words, Lookahead::InPrefix) {
        let name = lexical::in_prefix(alloc, word.text)?;
        return Ok((TestExpr::InPrefix(name), rest));
    }
    if let Some((word, rest)) = after(words, Lookahead::NodeType) {
        return node_type(word.sign, rest);
    }
    if let Some((_, rest)) = after(words, Lookahead::Instruction) {
        return instruction(alloc, rest);
    }
    let (word, rest) = expect(words, Lookahead::Name)?;
    Ok((TestExpr::Name(lexical::name(alloc, word.text)?), rest))
}

/// The predicates where no further level may open (XPath 1.0, 2.4): none where no `[` comes, and a `[` is refused for
/// TooDeep. Takes no memory.
pub fn no_predicates<'a>(
    alloc: Global,
    words: &'a [Word<'a>],
) -> Result<(List<Expr>, &'a [Word<'a>]), ParseStop>
    ensures { Answered (λ x. (x.0, seen x.1.now)) (ReadsSo 0 rule.predicates (seen words.now)) result }
{
    if comes(words, Lookahead::OpenSquare) {
        Err(ParseStop::Refused(Cause::TooDeep, words.len()))
    } else {
        Ok((List::new(alloc), words))
    }
}
