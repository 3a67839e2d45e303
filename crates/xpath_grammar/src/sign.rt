//! What a token is to the grammar, how tightly operators bind, and why words have no tree.

use whole_num::NumFault;
use xpath_syntax::{AxisName, Op};

/// What a token is to the grammar.
#[derive(Clone, Copy, Debug, PartialEq, Eq)]
pub enum Sign {
    /// An operator between two operands; Subtract is the unary minus too.
    Operator(Op),
    /// `/`.
    Slash,
    /// `//`.
    Slashes,
    /// `(`.
    Open,
    /// `)`.
    Close,
    /// `[`.
    OpenSquare,
    /// `]`.
    CloseSquare,
    /// `.`.
    Point,
    /// `..`.
    Points,
    /// `@`.
    At,
    /// `,`.
    Comma,
    /// `::`.
    Colons,
    Name,
    /// `prefix:*`.
    InPrefix,
    /// `*` as a name test.
    Star,
    Variable,
    /// The function `id`.
    Id,
    /// The function `key`.
    Key,
    /// Any other function.
    Function,
    /// `node`, `text`, `comment` and `processing-instruction` before `(`.
    Node,
    Text,
    Comment,
    Instruction,
    /// The name of an axis.
    Axis(AxisName),
    /// A literal whose text is a name.
    NameLiteral,
    /// Any other literal.
    Literal,
    Number,
    /// No word of the grammar, as a name before `::` that is no axis.
    Unknown,
}

/// How tightly an expression binds (XPath 1.0, 3), from the tightest.
#[derive(Clone, Copy, Debug, PartialEq, Eq)]
pub enum Precedence {
    Path,
    Union,
    Unary,
    Multiplicative,
    Additive,
    Relational,
    Equality,
    And,
    Or,
}

/// Why words have no tree.
#[derive(Clone, Copy, Debug, PartialEq, Eq)]
pub enum Cause {
    /// No sentence of the grammar goes on so.
    Syntax,
    /// The number is no number of XPath's whole-number profile.
    Literal(NumFault),
    /// The level that opens is nested too deep.
    TooDeep,
}
