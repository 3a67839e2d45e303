ghost use Rattle.std.specs.Prelude.{◌≡◌};
ghost use Rattle.sheet_elements.specs.Faults as spec;

use doc_model::FlawKind;

/// Why a stylesheet is refused.
#[derive(Clone, Copy, Debug, PartialEq, Eq)]
pub enum SheetKind {
    /// The line's number is 4,294,967,296.
    TooManyLines,
    /// A line of more than 1,048,576 bytes before its line feed.
    LongLine,
    /// A line that is not UTF-8.
    NotUtf8,
    /// A line whose first byte begins no event.
    UnknownLine,
    /// An attribute line without a space.
    NoSpace,
    /// A name or a target of a line that is none.
    BadName,
    /// A prefix that is bound to no namespace.
    UnboundPrefix,
    /// Two attributes of one expanded name on one element.
    DuplicateAttr,
    /// More than 8,388,608 bytes of text.
    TooMuchText,
    /// A second root element.
    SecondRoot,
    /// An element below 1,000 open ones.
    TooDeep,
    /// More than 200,000 rows.
    TooManyNodes,
    /// An attribute line that follows no start line.
    AttrPlace,
    /// More than 256 attribute lines on one element.
    TooManyAttrs,
    /// Text outside the root element.
    TextOutside,
    /// An end line that ends another element, or none.
    WrongEnd,
    /// No element.
    NoRoot,
    /// An element that isn't ended.
    Unclosed,
    /// An element below 100 open ones.
    SheetTooDeep,
    /// The root element is no xsl:stylesheet.
    NotStylesheet,
    /// An element that is unknown or misplaced, that has text where none may stand, or both a select and a body.
    BadElement,
    /// An element, an attribute, a method, a function, an axis or a node test that is known and not supported.
    Unsupported,
    /// An attribute that its element may not have, or whose value is none of those that it may have.
    BadAttribute,
    /// An attribute that its element has to have.
    MissingAttribute,
    /// A version other than `1.0`.
    BadVersion,
    /// No token can be read in an expression or a pattern.
    Lex,
    /// An expression, a pattern or a value template that is none.
    Syntax,
    /// A number with a digit other than 0 behind its point.
    FractionLiteral,
    /// A number above the greatest.
    NumberLimit,
    /// An expression that nests more than 100 deep.
    ExprTooDeep,
    /// A function that there is none of.
    UnknownFunction,
    /// A function with other arguments than it takes.
    WrongArgs,
    /// A variable in a pattern.
    VariableInPattern,
    /// A key in the declaration of a key.
    KeyInKey,
    /// A second template of one name.
    DuplicateTemplate,
    /// A second global variable of one name, or a local one that hides a local one.
    DuplicateVariable,
    /// A template that there is none of.
    UnknownTemplate,
    /// A key that there is none of.
    UnknownKey,
    /// A variable that there is none of.
    UnknownVariable,
    /// Global variables that need each other.
    Circle,
}

/// Why and where a stylesheet is refused.
#[derive(Clone, Copy, Debug, PartialEq, Eq)]
pub struct SheetFault {
    /// The line of the element's start, counted from 1; of a flaw its own line.
    pub line: u64,
    pub kind: SheetKind,
}

impl SheetKind {
    /// The name of the variant, as console lines print it.
    pub fn name(self) -> &'static str
        ensures { result.now ≡ spec.kind_name self }
    {
        match self {
            SheetKind::TooManyLines => "TooManyLines",
            SheetKind::LongLine => "LongLine",
            SheetKind::NotUtf8 => "NotUtf8",
            SheetKind::UnknownLine => "UnknownLine",
            SheetKind::NoSpace => "NoSpace",
            SheetKind::BadName => "BadName",
            SheetKind::UnboundPrefix => "UnboundPrefix",
            SheetKind::DuplicateAttr => "DuplicateAttr",
            SheetKind::TooMuchText => "TooMuchText",
            SheetKind::SecondRoot => "SecondRoot",
            SheetKind::TooDeep => "TooDeep",
            SheetKind::TooManyNodes => "TooManyNodes",
            SheetKind::AttrPlace => "AttrPlace",
            SheetKind::TooManyAttrs => "TooManyAttrs",
            SheetKind::TextOutside => "TextOutside",
            SheetKind::WrongEnd => "WrongEnd",
            SheetKind::NoRoot => "NoRoot",
            SheetKind::Unclosed => "Unclosed",
            SheetKind::SheetTooDeep => "SheetTooDeep",
            SheetKind::NotStylesheet => "NotStylesheet",
            SheetKind::BadElement => "BadElement",
            SheetKind::Unsupported => "Unsupported",
            SheetKind::BadAttribute => "BadAttribute",
            SheetKind::MissingAttribute => "MissingAttribute",
            SheetKind::BadVersion => "BadVersion",
            SheetKind::Lex => "Lex",
            SheetKind::Syntax => "Syntax",
            SheetKind::FractionLiteral => "FractionLiteral",
            SheetKind::NumberLimit => "NumberLimit",
            SheetKind::ExprTooDeep => "ExprTooDeep",
            SheetKind::UnknownFunction => "UnknownFunction",
            SheetKind::WrongArgs => "WrongArgs",
            SheetKind::VariableInPattern => "VariableInPattern",
            SheetKind::KeyInKey => "KeyInKey",
            SheetKind::DuplicateTemplate => "DuplicateTemplate",
            SheetKind::DuplicateVariable => "DuplicateVariable",
            SheetKind::UnknownTemplate => "UnknownTemplate",
            SheetKind::UnknownKey => "UnknownKey",
            SheetKind::UnknownVariable => "UnknownVariable",
            SheetKind::Circle => "Circle",
        }
    }

    /// The kind of a flaw of a stylesheet's lines.
    pub fn of_flaw(kind: FlawKind) -> SheetKind
        ensures { result ≡ spec.kind_of_flaw kind }
    {
        match kind {
            FlawKind::TooManyLines => SheetKind::TooManyLines,
            FlawKind::LongLine => SheetKind::LongLine,
            FlawKind::NotUtf8 => SheetKind::NotUtf8,
            FlawKind::UnknownLine => SheetKind::UnknownLine,
            FlawKind::NoSpace => SheetKind::NoSpace,
            FlawKind::BadName => SheetKind::BadName,
            FlawKind::UnboundPrefix => SheetKind::UnboundPrefix,
            FlawKind::DuplicateAttr => SheetKind::DuplicateAttr,
            // no name of a stylesheet is counted
            FlawKind::TooManyNames | FlawKind::TooMuchText => SheetKind::TooMuchText,
            FlawKind::SecondRoot => SheetKind::SecondRoot,
            FlawKind::TooDeep => SheetKind::TooDeep,
            FlawKind::TooManyNodes => SheetKind::TooManyNodes,
            FlawKind::AttrPlace => SheetKind::AttrPlace,
            FlawKind::TooManyAttrs => SheetKind::TooManyAttrs,
            FlawKind::TextOutside => SheetKind::TextOutside,
            FlawKind::WrongEnd => SheetKind::WrongEnd,
            FlawKind::NoRoot => SheetKind::NoRoot,
            FlawKind::Unclosed => SheetKind::Unclosed,
        }
    }
}
