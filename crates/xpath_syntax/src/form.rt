//! What a token is by its bytes alone, and what its first byte tells.

ghost use Rattle.std.specs.Prelude.{◌≡◌};
ghost use Rattle.xpath_syntax.specs.Forms as forms;
ghost use Rattle.xpath_syntax.specs.Scan as scan;
ghost use Rattle.name_grammar.specs.Names as names;

/// What a token is by its bytes alone.
#[derive(Clone, Copy, Debug, PartialEq, Eq)]
pub enum Form {
    Literal,
    Number,
    Name,
    InPrefix,
    Star,
    Variable,
    Operator,
    /// `(`, `[`, `@`, `,` or `::`: what follows is no operator.
    Opening,
    /// `)`, `]`, `.` or `..`.
    Closing,
}

/// What a byte may begin.
#[derive(Clone, Copy, Debug, PartialEq, Eq)]
pub enum Class {
    Name,
    Digit,
    Quote,
    Point,
    Star,
    Dollar,
    Slash,
    /// `<` or `>`.
    Angle,
    /// `!`.
    Bang,
    /// `:`.
    Colon,
    /// `|`, `+`, `-` or `=`.
    Sign,
    /// `(`, `[`, `@` or `,`.
    Opening,
    /// `)` or `]`.
    Closing,
    /// Whitespace, or a byte that begins no token.
    Other,
}

pub fn is_space(b: u8) -> bool
    ensures { result ≡ forms.is_space b }
{
    matches!(b, b' ' | b'\t' | b'\r' | b'\n')
}

/// Whether a byte of UTF-8 may begin an NCName.
pub fn is_name_start(b: u8) -> bool
    ensures { result ≡ names.is_name_start b }
{
    b.is_ascii_alphabetic() || b == b'_' || b >= 128
}

/// Whether a byte of UTF-8 may stand in an NCName after its first.
pub fn is_name_byte(b: u8) -> bool
    ensures { result ≡ names.is_name_byte b }
{
    is_name_start(b) || b.is_ascii_digit() || b == b'-' || b == b'.'
}

pub fn class_of(b: u8) -> Class
    ensures { result ≡ scan.class_of b }
{
    if is_name_start(b) {
        Class::Name
    } else if b.is_ascii_digit() {
        Class::Digit
    } else {
        class_of_sign(b)
    }
}

fn class_of_sign(b: u8) -> Class
    ensures { result ≡ scan.class_of_sign b }
{
    match b {
        b'\'' | b'"' => Class::Quote,
        b'.' => Class::Point,
        b'*' => Class::Star,
        b'$' => Class::Dollar,
        b'/' => Class::Slash,
        b'<' | b'>' => Class::Angle,
        b'!' => Class::Bang,
        b':' => Class::Colon,
        b'|' | b'+' | b'-' | b'=' => Class::Sign,
        b'(' | b'[' | b'@' | b',' => Class::Opening,
        b')' | b']' => Class::Closing,
        _ => Class::Other,
    }
}
