//! Attribute value templates (XSLT 1.0, 7.6.2).

ghost use Rattle.std.specs.Prelude.{◌≡◌, ◌+◌, ◌<◌, ◌∷◌, ◌++◌, ◌^◌, ◌↔◌, [], drop, length, take, ℕ, List, Result, Ok, Err, IsTrue, OnOk, MatchOption};
ghost use Rattle.xpath_syntax.specs.declared.pattern.Part.{Part};
ghost use Rattle.xpath_parse.specs.declared.error.ParseError.{ParseError};
ghost use Rattle.xpath_parse.specs.declared.error.ParseError.TheVariants as error;
ghost use Rattle.xpath_parse.specs.Pieces.{AnswersValue, Closes, IsPiece, IsValue, place, plain_part};
ghost use Rattle.xpath_parse.specs.Templates as spec;
ghost use Rattle.xpath_parse.specs.Templates.{AnswersTemplate, Begins, IsInner, IsRefused, IsTemplate, moved};

use crate::error::ParseError;
use crate::parse::expression;
use lists::List;
use std::alloc::{AllocError, Global};
use std::mem;
use xpath_syntax::{Expr, Part};

/// What stands at the front of a template.
#[derive(Clone, Copy)]
enum Piece {
    /// A byte of text, and how many bytes it takes.
    Text(u8, usize),
    /// An expression in braces, and how many bytes stand between them.
    Value(usize),
    /// A syntax error, and how many bytes stand before it.
    Refused(usize),
}

/// A refusal in a part of a text, which begins at a place.
fn shifted(error: ParseError, by: u64) -> ParseError
    requires { by + place error < 2 ^ 64 }
    ensures { result ≡ moved by error }
{
    match error {
        ParseError::Lex(at) => ParseError::Lex(by + at),
        ParseError::Syntax(at) => ParseError::Syntax(by + at),
        ParseError::FractionLiteral(at) => ParseError::FractionLiteral(by + at),
        ParseError::NumberLimit(at) => ParseError::NumberLimit(by + at),
        ParseError::TooDeep(at) => ParseError::TooDeep(by + at),
        ParseError::Memory => ParseError::Memory,
    }
}

fn is_brace(b: u8) -> bool
    ensures { result ≡ spec.is_brace b }
{
    b == b'{' || b == b'}'
}

fn is_quote(b: u8) -> bool
    ensures { result ≡ spec.is_quote b }
{
    b == b'\'' || b == b'"'
}

/// The quote that is open behind a byte, by the one that is open before it.
fn quote_after(quote: Option<u8>, b: u8) -> Option<u8>
    ensures { result ≡ spec.quote_after quote b }
{
    match quote {
        Some(q) => (b != q).then_some(q),
        None => is_quote(b).then_some(b),
    }
}

/// How many bytes an expression has before its `}`, which is the first that stands in no literal.
fn expression_len(bytes: &[u8]) -> Option<usize>
    ensures { MatchOption result (IsInner bytes.now) (λ n. Closes bytes.now n) }
{
    let mut quote = None;
    for (at, b) in bytes.iter().enumerate() {
        if *b == b'}' && quote.is_none() {
            return Some(at);
        }
        quote = quote_after(quote, *b);
    }
    None
}

fn begins_with(wanted: u8, bytes: &[u8]) -> bool
    ensures { IsTrue result ↔ Begins wanted bytes.now }
{
    match bytes {
        [] => false,
        [b, ..] => *b == wanted,
    }
}

/// What stands at the front, by the first byte and those behind it.
fn next_piece(b: u8, behind: &[u8]) -> Piece
    ensures { IsPiece (b ∷ behind.now) result }
{
    if !is_brace(b) {
        return Piece::Text(b, 1);
    }
    if begins_with(b, behind) {
        return Piece::Text(b, 2);
    }
    if b == b'}' {
        return Piece::Refused(0);
    }
    match expression_len(behind) {
        Some(len) => Piece::Value(len),
        None => Piece::Refused(behind.len() + 1),
    }
}

/// The expression of so many bytes between the braces that begin at a place.
fn value(alloc: Global, text: &str, at: usize, len: usize) -> Result<Expr, ParseError>
    requires { IsValue (drop at text.now) len }
    ensures { AnswersValue (at + 1) (take len (drop (at + 1) text.now)) result }
{
    let from = at + 1;
    match expression(alloc, &text[from..from + len]) {
        Ok(value) => Ok(value),
        Err(error) => Err(shifted(error, from as u64)),
    }
}

/// Moves text to the parts, unless it is empty.
fn push_plain(alloc: Global, parts: &mut List<Part>, plain: &mut List<u8>) -> Result<(), AllocError>
    ensures { OnOk result ((parts.new ≡ parts.old ++ plain_part plain.old) × (plain.new ≡ [])) }
{
    if !plain.is_empty() {
        let plain = mem::replace(plain, List::new(alloc));
        parts.push(Part::Plain(plain))?;
    }
    Ok(())
}

/// The parts of an attribute value template: text, where `{{` and `}}` stand for one brace, and expressions in braces.
/// The first refusal from the left counts: an expression's own, Syntax at a `}` that stands alone, or Syntax at the
/// template's end where an expression has no `}`. Places count from the template's start. Costs O(length of the text)
/// steps for every text.
pub fn value_template(alloc: Global, text: &str) -> Result<List<Part>, ParseError>
    ensures { AnswersTemplate text.now result }
{
    let bytes = text.as_bytes();
    let mut parts = List::new(alloc);
    let mut plain = List::new(alloc);
    let mut at = 0;
    while at < bytes.len() {
        let (_, behind) = bytes.split_at(at + 1);
        match next_piece(bytes[at], behind) {
            Piece::Text(b, len) => {
                plain.push(b)?;
                at += len;
            }
            Piece::Value(len) => {
                let value = value(alloc, text, at, len)?;
                push_plain(alloc, &mut parts, &mut plain)?;
                parts.push(Part::Value(value))?;
                at += len + 2;
            }
            Piece::Refused(before) => return Err(ParseError::Syntax((at + before) as u64)),
        }
    }
    push_plain(alloc, &mut parts, &mut plain)?;
    Ok(parts)
}

/// A template has at most one list of parts, or one first refusal, and never both. So each answer of `value_template`
/// comes exactly where its meaning holds, unless memory runs out.
pub fn one_template()
    ensures parts { (text : List ℕ) (ps qs : List Part) → IsTemplate text ps → IsTemplate text qs → ps ≡ qs }
    ensures refusal { (text : List ℕ) (e f : ParseError) → IsRefused text e → IsRefused text f → e ≡ f }
    ensures not_both { (text : List ℕ) (ps : List Part) (e : ParseError) → IsTemplate text ps → IsRefused text e → ⊥ }
    ensures only { (text : List ℕ) (ps : List Part) (r : Result (List Part) ParseError)
        → IsTemplate text ps → AnswersTemplate text r → (r ≡ Err error.Memory → ⊥) → r ≡ Ok ps }
    ensures refused { (text : List ℕ) (e : ParseError) (r : Result (List Part) ParseError)
        → IsRefused text e → AnswersTemplate text r → (r ≡ Err error.Memory → ⊥) → r ≡ Err e }
{}

/// A template has an answer that is no want of memory, and only one.
pub fn a_template()
    ensures some { (text : List ℕ) → (r : Result (List Part) ParseError) × AnswersTemplate text r × (r ≡ Err error.Memory → ⊥) }
    ensures one { (text : List ℕ) (r s : Result (List Part) ParseError)
        → AnswersTemplate text r → (r ≡ Err error.Memory → ⊥) → AnswersTemplate text s → (s ≡ Err error.Memory → ⊥) → r ≡ s }
{}
