//! The tokens of XPath expressions, and the trees of expressions, patterns and value templates.
#![tactic(auto)]

mod expression;
mod form;
mod lexer;
mod pattern;
mod scan;
mod token;

pub use expression::{
    AxisName, Expr, Layer, NameRef, Op, Path, StepExpr, TestExpr, trees_are_made_of_layers,
};
pub use lexer::{a_reading, one_reading, tokens};
pub use pattern::{Part, Pattern, PatternPath, PatternStart, PatternStep};
pub use token::{LexError, Token, TokenKind};
