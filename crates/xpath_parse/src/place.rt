//! Places of refusals.

ghost use Rattle.std.specs.Prelude.{◌≡◌, ℕ, List, Err, length};
ghost use Rattle.xpath_grammar.specs.Productions.{Nonterminal};
ghost use Rattle.xpath_grammar.specs.declared.sign.Cause.TheVariants as cause;
ghost use Rattle.xpath_parse.specs.Places.{Answers, level_place, place_of};
ghost use Rattle.xpath_parse.specs.Refusals.{refusal};
ghost use Rattle.xpath_syntax.specs.Tokens.{TokensOf};
ghost use Rattle.xpath_syntax.specs.declared.token.Token.{Token};
ghost use Rattle.xpath_words.specs.Seen.{Whole, seen};
ghost use Rattle.xpath_words.specs.Words.{WordsAre};

use crate::error::ParseError;
use whole_num::NumFault;
use xpath_grammar::Cause;
use xpath_words::{ParseStop, Word, is_function};

/// The place of the first word, or the end of the text.
fn first_place(words: &[Word], end: usize) -> u64
    ensures { (text : List ℕ) (ts : List Token) → WordsAre text ts words.now → length text ≡ end → result ≡ place_of text cause.Syntax ts }
{
    match words {
        [] => end as u64,
        [word, ..] => word.at,
    }
}

/// The place where a level opens: for an argument list, the bracket behind the function's name.
fn opening_place(words: &[Word], end: usize) -> u64
    ensures { (text : List ℕ) (ts : List Token) → WordsAre text ts words.now → length text ≡ end → result ≡ level_place text ts }
{
    match words {
        [word, behind, ..] if is_function(word.sign) => behind.at,
        _ => first_place(words, end),
    }
}

/// The refusal of the first word, or of the end of the text.
fn refused(cause: Cause, words: &[Word], end: usize) -> ParseError
    ensures { (text : List ℕ) (ts : List Token) → WordsAre text ts words.now → length text ≡ end → result ≡ refusal cause (place_of text cause ts) }
{
    match cause {
        Cause::Syntax => ParseError::Syntax(first_place(words, end)),
        Cause::Literal(NumFault::Fraction) => ParseError::FractionLiteral(first_place(words, end)),
        Cause::Literal(NumFault::NumberRange) => ParseError::NumberLimit(first_place(words, end)),
        Cause::TooDeep => ParseError::TooDeep(opening_place(words, end)),
    }
}

/// A refusal with its place in the text.
pub fn with_place(stop: ParseStop, words: &[Word], end: usize) -> ParseError
    ensures { (v : Nonterminal) (text : List ℕ) (ts : List Token) → TokensOf text ts
        → WordsAre text ts words.now → length text ≡ end → Whole v (seen words.now) (Err stop) → Answers v text (Err result) }
{
    match stop {
        ParseStop::Memory => ParseError::Memory,
        ParseStop::Refused(cause, left) => {
            let (_, rest) = words.split_at(words.len().saturating_sub(left));
            refused(cause, rest, end)
        }
    }
}
