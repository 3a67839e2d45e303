//! Expressions (XPath 1.0, 2 and 3) and patterns (XSLT 1.0, 5.2) of texts.

ghost use Rattle.xpath_grammar.specs.Productions as rule;
ghost use Rattle.xpath_grammar.specs.declared.sign.Precedence.TheVariants as precedence;
ghost use Rattle.xpath_parse.specs.Places.{Answers};

use crate::error::ParseError;
use crate::place::with_place;
use std::alloc::Global;
use xpath_syntax::{Expr, Pattern, tokens};
use xpath_trees::{expression_tree, pattern_tree};
use xpath_words::words;

/// The tree of an expression, or why and where the text is refused. Lex stands before the others. Those come at the
/// first token at which no sentence of the grammar goes on, or whose number is refused, or which nests too deep: for
/// an argument list, that is its bracket. A place is a byte of the text, counted from 0, and the end of the text is its
/// length. Costs O(length of the text) steps for every text.
pub fn expression(alloc: Global, text: &str) -> Result<Expr, ParseError>
    ensures { Answers (rule.level precedence.Or) text.now result }
{
    let tokens = tokens(alloc, text)?;
    let words = words(alloc, text.as_bytes(), tokens.as_slice())?;
    let words = words.as_slice();
    match expression_tree(alloc, words) {
        Ok(tree) => Ok(tree),
        Err(stop) => Err(with_place(stop, words, text.len())),
    }
}

/// The tree of a pattern, or why and where the text is refused, as for an expression. Costs O(length of the text) steps
/// for every text.
pub fn pattern(alloc: Global, text: &str) -> Result<Pattern, ParseError>
    ensures { Answers rule.pattern text.now result }
{
    let tokens = tokens(alloc, text)?;
    let words = words(alloc, text.as_bytes(), tokens.as_slice())?;
    let words = words.as_slice();
    match pattern_tree(alloc, words) {
        Ok(tree) => Ok(tree),
        Err(stop) => Err(with_place(stop, words, text.len())),
    }
}
