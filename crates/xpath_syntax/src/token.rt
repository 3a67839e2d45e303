//! Tokens, and why a text has none.

ghost use Rattle.std.specs.Prelude.{◌≡◌};
ghost use Rattle.xpath_syntax.specs.declared.token.LexError.TheVariants.{Memory};

use std::alloc::AllocError;
use thiserror::Error;

/// What a token is, by its spelling, the token before it and what follows.
#[derive(Clone, Copy, Debug, PartialEq, Eq)]
pub enum TokenKind {
    /// A text in `'` or `"`.
    Literal,
    /// Digits that may be followed by `.` and digits, or `.` and digits.
    Number,
    /// A name that is none of those below.
    Name,
    /// `prefix:*`.
    InPrefix,
    /// `*` as a name test.
    Star,
    /// `$` and its name.
    Variable,
    /// The name of a function, before `(`.
    Function,
    /// `comment`, `text`, `processing-instruction` or `node`, before `(`.
    NodeType,
    /// The name of an axis, before `::`.
    Axis,
    /// `*` as multiply, `and`, `or`, `mod`, `div`, or one of `/ // | + - = != < <= > >=`.
    Operator,
    /// One of `( ) [ ] . .. @ , ::`.
    Mark,
}

/// A token: its kind and its slice of the text, in bytes.
#[derive(Clone, Copy, Debug, PartialEq, Eq)]
pub struct Token {
    pub kind: TokenKind,
    pub at: u64,
    pub len: u64,
}

/// Why a text has no tokens.
#[derive(Clone, Copy, Debug, PartialEq, Eq, Error)]
pub enum LexError {
    /// The least byte, counted from 0, from which no token can be read.
    #[error("no token at byte {0}")]
    At(u64),
    /// Want of memory.
    #[error("out of memory")]
    Memory,
}

impl From<AllocError> for LexError {
    ghost from_gives = { λ _ e. e ≡ Memory };

    fn from(_error: AllocError) -> LexError {
        LexError::Memory
    }
}
