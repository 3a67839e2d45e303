//! Words: tokens as the grammar sees them.

ghost use Rattle.std.specs.Prelude.{◌≡◌, ◌+◌, ◌≤◌, ◌∷◌, [], All, IfOk, MatchOption, length, map};
ghost use Rattle.xpath_grammar.specs.Signs as signs;
ghost use Rattle.xpath_grammar.specs.Words.{literal_of};
ghost use Rattle.xpath_words.specs.Words.{WordsAre};

use crate::lexical::quoted;
use lists::List;
use name_grammar::is_name;
use std::alloc::{AllocError, Global};
use xpath_grammar::Sign;
use xpath_syntax::{AxisName, Op, Token, TokenKind};

/// What a token is to the grammar, its bytes, and its place in the text.
#[derive(Clone, Copy, Debug)]
pub struct Word<'a> {
    pub sign: Sign,
    pub text: &'a [u8],
    /// The number of bytes before it.
    pub at: u64,
}

fn operator(text: &[u8]) -> Sign
    ensures { result ≡ signs.spelled_in signs.operators text.now }
{
    if text == b"or".as_slice() {
        Sign::Operator(Op::Or)
    } else if text == b"and".as_slice() {
        Sign::Operator(Op::And)
    } else if text == b"=".as_slice() {
        Sign::Operator(Op::Equal)
    } else if text == b"!=".as_slice() {
        Sign::Operator(Op::NotEqual)
    } else if text == b"<".as_slice() {
        Sign::Operator(Op::Less)
    } else if text == b"<=".as_slice() {
        Sign::Operator(Op::LessEqual)
    } else if text == b">".as_slice() {
        Sign::Operator(Op::Greater)
    } else if text == b">=".as_slice() {
        Sign::Operator(Op::GreaterEqual)
    } else {
        tighter_operator(text)
    }
}

fn tighter_operator(text: &[u8]) -> Sign
    ensures { result ≡ signs.spelled_in signs.tighter_operators text.now }
{
    if text == b"+".as_slice() {
        Sign::Operator(Op::Add)
    } else if text == b"-".as_slice() {
        Sign::Operator(Op::Subtract)
    } else if text == b"*".as_slice() {
        Sign::Operator(Op::Multiply)
    } else if text == b"div".as_slice() {
        Sign::Operator(Op::Div)
    } else if text == b"mod".as_slice() {
        Sign::Operator(Op::Mod)
    } else if text == b"|".as_slice() {
        Sign::Operator(Op::Union)
    } else if text == b"/".as_slice() {
        Sign::Slash
    } else if text == b"//".as_slice() {
        Sign::Slashes
    } else {
        Sign::Unknown
    }
}

fn mark(text: &[u8]) -> Sign
    ensures { result ≡ signs.spelled_in signs.marks text.now }
{
    if text == b"(".as_slice() {
        Sign::Open
    } else if text == b")".as_slice() {
        Sign::Close
    } else if text == b"[".as_slice() {
        Sign::OpenSquare
    } else if text == b"]".as_slice() {
        Sign::CloseSquare
    } else if text == b".".as_slice() {
        Sign::Point
    } else if text == b"..".as_slice() {
        Sign::Points
    } else if text == b"@".as_slice() {
        Sign::At
    } else if text == b",".as_slice() {
        Sign::Comma
    } else if text == b"::".as_slice() {
        Sign::Colons
    } else {
        Sign::Unknown
    }
}

fn node_type(text: &[u8]) -> Sign
    ensures { result ≡ signs.spelled_in signs.node_types text.now }
{
    if text == b"node".as_slice() {
        Sign::Node
    } else if text == b"text".as_slice() {
        Sign::Text
    } else if text == b"comment".as_slice() {
        Sign::Comment
    } else if text == b"processing-instruction".as_slice() {
        Sign::Instruction
    } else {
        Sign::Unknown
    }
}

fn axis(text: &[u8]) -> Sign
    ensures { result ≡ signs.spelled_in signs.axes text.now }
{
    if text == b"self".as_slice() {
        Sign::Axis(AxisName::Itself)
    } else if text == b"child".as_slice() {
        Sign::Axis(AxisName::Child)
    } else if text == b"parent".as_slice() {
        Sign::Axis(AxisName::Parent)
    } else if text == b"descendant".as_slice() {
        Sign::Axis(AxisName::Descendant)
    } else if text == b"descendant-or-self".as_slice() {
        Sign::Axis(AxisName::DescendantOrSelf)
    } else if text == b"ancestor".as_slice() {
        Sign::Axis(AxisName::Ancestor)
    } else if text == b"ancestor-or-self".as_slice() {
        Sign::Axis(AxisName::AncestorOrSelf)
    } else {
        other_axis(text)
    }
}

fn other_axis(text: &[u8]) -> Sign
    ensures { result ≡ signs.spelled_in signs.other_axes text.now }
{
    if text == b"following".as_slice() {
        Sign::Axis(AxisName::Following)
    } else if text == b"preceding".as_slice() {
        Sign::Axis(AxisName::Preceding)
    } else if text == b"following-sibling".as_slice() {
        Sign::Axis(AxisName::FollowingSibling)
    } else if text == b"preceding-sibling".as_slice() {
        Sign::Axis(AxisName::PrecedingSibling)
    } else if text == b"attribute".as_slice() {
        Sign::Axis(AxisName::Attribute)
    } else if text == b"namespace".as_slice() {
        Sign::Axis(AxisName::Namespace)
    } else {
        Sign::Unknown
    }
}

fn function(text: &[u8]) -> Sign
    ensures { result ≡ signs.function_sign text.now }
{
    if text == b"id".as_slice() {
        Sign::Id
    } else if text == b"key".as_slice() {
        Sign::Key
    } else {
        Sign::Function
    }
}

fn literal(text: &[u8]) -> Sign
    ensures { result ≡ signs.literal_sign text.now }
{
    if is_name(quoted(text)) {
        Sign::NameLiteral
    } else {
        Sign::Literal
    }
}

fn sign_of(kind: TokenKind, text: &[u8]) -> Sign
    ensures { result ≡ signs.sign_of kind text.now }
{
    match kind {
        TokenKind::Literal => literal(text),
        TokenKind::Number => Sign::Number,
        TokenKind::Name => Sign::Name,
        TokenKind::InPrefix => Sign::InPrefix,
        TokenKind::Star => Sign::Star,
        TokenKind::Variable => Sign::Variable,
        TokenKind::Function => function(text),
        TokenKind::NodeType => node_type(text),
        TokenKind::Axis => axis(text),
        TokenKind::Operator => operator(text),
        TokenKind::Mark => mark(text),
    }
}

/// The words of a text's tokens, in their order. Each token must lie within the text. Fails only for want of memory.
/// Costs O(length of the tokens).
pub fn words<'a>(
    alloc: Global,
    text: &'a [u8],
    tokens: &[Token],
) -> Result<List<Word<'a>>, AllocError>
    requires { All (λ t. t.at + t.len ≤ length text.now) tokens.now }
    ensures { IfOk result (λ ws. WordsAre text.now tokens.now ws) }
{
    let mut words = List::new(alloc);
    for token in tokens {
        let (_, from) = text.split_at(token.at as usize);
        let (word, _) = from.split_at(token.len as usize);
        words.push(Word {
            sign: sign_of(token.kind, word),
            text: word,
            at: token.at,
        })?;
    }
    Ok(words)
}
