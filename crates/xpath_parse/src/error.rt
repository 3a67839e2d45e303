//! Why a text is refused.

ghost use Rattle.std.specs.Prelude.{◌≡◌};
ghost use Rattle.xpath_parse.specs.Refusals.{no_tokens};
ghost use Rattle.xpath_parse.specs.declared.error.ParseError.TheVariants as error;

use std::alloc::AllocError;
use thiserror::Error;
use xpath_syntax::LexError;

/// Why a text has no tree. A place is a byte, counted from 0; the end of the text is its length.
#[derive(Clone, Copy, Debug, PartialEq, Eq, Error)]
pub enum ParseError {
    /// No token can be read from here. This stands before the others.
    #[error("no token at byte {0}")]
    Lex(u64),
    /// No sentence of the grammar goes on with this token.
    #[error("syntax error at byte {0}")]
    Syntax(u64),
    /// The number has a digit other than 0 behind its point.
    #[error("fraction at byte {0}")]
    FractionLiteral(u64),
    /// The number is above the greatest.
    #[error("number out of range at byte {0}")]
    NumberLimit(u64),
    /// A bracket, predicate, argument list or unary minus is nested more than 100 deep.
    #[error("nested too deep at byte {0}")]
    TooDeep(u64),
    /// Want of memory.
    #[error("out of memory")]
    Memory,
}

impl From<AllocError> for ParseError {
    ghost from_gives = { λ _ e. e ≡ error.Memory };

    fn from(_error: AllocError) -> ParseError {
        ParseError::Memory
    }
}

impl From<LexError> for ParseError {
    ghost from_gives = { λ e r. r ≡ no_tokens e };

    fn from(error: LexError) -> ParseError {
        match error {
            LexError::At(place) => ParseError::Lex(place),
            LexError::Memory => ParseError::Memory,
        }
    }
}
