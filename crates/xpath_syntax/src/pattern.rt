//! The trees of patterns (XSLT 1.0, 5.2) and the parts of attribute value templates (XSLT 1.0, 7.6.2).

use crate::expression::{Expr, NameRef, StepExpr};
use lists::List;

/// A pattern: several that `|` joins.
#[derive(Drop)]
pub struct Pattern {
    pub alternatives: List<PatternPath>,
}

/// One path of a pattern.
#[derive(Drop)]
pub struct PatternPath {
    pub start: PatternStart,
    pub parts: List<PatternStep>,
}

/// What a path of a pattern begins with.
#[derive(Clone, Debug, Drop, PartialEq, Eq)]
pub enum PatternStart {
    /// Its first step.
    Relative,
    /// `/`.
    Root,
    /// `//`.
    Deep,
    /// `id('x')`.
    Id(List<u8>),
    /// `key('k', 'x')`.
    Key { name: NameRef, value: List<u8> },
}

/// A step of a pattern.
#[derive(Drop)]
pub struct PatternStep {
    /// Whether `//` stands before it.
    pub deep: bool,
    pub part: StepExpr,
}

/// A part of an attribute value template.
#[derive(Drop)]
pub enum Part {
    /// Text, with `{{` and `}}` as one brace.
    Plain(List<u8>),
    /// An expression in braces.
    Value(Expr),
}
