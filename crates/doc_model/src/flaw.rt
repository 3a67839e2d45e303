ghost use Rattle.std.specs.Prelude.{◌≡◌, ◌↔◌, Some};
ghost use Rattle.doc_model.specs.FlawName.{flaw_name};
ghost use Rattle.doc_model.specs.Numbers.{flaw_number};

/// What is wrong with a source. The kinds are numbered in this order.
#[derive(Clone, Copy, Debug, PartialEq, Eq)]
pub enum FlawKind {
    /// The line's number is 4,294,967,296.
    TooManyLines,
    /// A line of more than 1,048,576 bytes before its line feed.
    LongLine,
    /// A line that is not UTF-8.
    NotUtf8,
    /// A line whose first byte begins no event.
    UnknownLine,
    /// An attribute line without a space.
    NoSpace,
    /// A name or a target that is none.
    BadName,
    /// A prefix that is bound to no namespace (XML Namespaces, section 2).
    UnboundPrefix,
    /// Two attributes of one expanded name on one element (XML Namespaces, section 5.3).
    DuplicateAttr,
    /// More names than the limit.
    TooManyNames,
    /// More bytes of text and names than the limit.
    TooMuchText,
    /// A second root element.
    SecondRoot,
    /// An element below 1,000 open ones.
    TooDeep,
    /// More rows than the limit.
    TooManyNodes,
    /// An attribute line that follows no start line.
    AttrPlace,
    /// More than 256 attribute lines on one element.
    TooManyAttrs,
    /// Character data outside the root element that is not whitespace alone.
    TextOutside,
    /// An end line that ends another element, or none.
    WrongEnd,
    /// The source ended without a root element.
    NoRoot,
    /// The source ended with an element open.
    Unclosed,
}

impl FlawKind {
    /// The name of the variant, as console lines print it.
    pub fn name(self) -> &'static str
        ensures { result.now ≡ flaw_name self }
    {
        match self {
            FlawKind::TooManyLines => "TooManyLines",
            FlawKind::LongLine => "LongLine",
            FlawKind::NotUtf8 => "NotUtf8",
            FlawKind::UnknownLine => "UnknownLine",
            FlawKind::NoSpace => "NoSpace",
            FlawKind::BadName => "BadName",
            FlawKind::UnboundPrefix => "UnboundPrefix",
            FlawKind::DuplicateAttr => "DuplicateAttr",
            FlawKind::TooManyNames => "TooManyNames",
            FlawKind::TooMuchText => "TooMuchText",
            FlawKind::SecondRoot => "SecondRoot",
            FlawKind::TooDeep => "TooDeep",
            FlawKind::TooManyNodes => "TooManyNodes",
            FlawKind::AttrPlace => "AttrPlace",
            FlawKind::TooManyAttrs => "TooManyAttrs",
            FlawKind::TextOutside => "TextOutside",
            FlawKind::WrongEnd => "WrongEnd",
            FlawKind::NoRoot => "NoRoot",
            FlawKind::Unclosed => "Unclosed",
        }
    }

    /// The number of the kind, counted from 1 in the order of the variants.
    pub fn number(self) -> u8
        ensures { result ≡ flaw_number self }
    {
        match self {
            FlawKind::TooManyLines => 1,
            FlawKind::LongLine => 2,
            FlawKind::NotUtf8 => 3,
            FlawKind::UnknownLine => 4,
            FlawKind::NoSpace => 5,
            FlawKind::BadName => 6,
            FlawKind::UnboundPrefix => 7,
            FlawKind::DuplicateAttr => 8,
            FlawKind::TooManyNames => 9,
            FlawKind::TooMuchText => 10,
            FlawKind::SecondRoot => 11,
            FlawKind::TooDeep => 12,
            FlawKind::TooManyNodes => 13,
            FlawKind::AttrPlace => 14,
            FlawKind::TooManyAttrs => 15,
            FlawKind::TextOutside => 16,
            FlawKind::WrongEnd => 17,
            FlawKind::NoRoot => 18,
            FlawKind::Unclosed => 19,
        }
    }

    /// The kind that has a number; None exactly where none has it.
    pub fn from_number(number: u8) -> Option<FlawKind>
        ensures { (kind : FlawKind) → (result ≡ Some kind) ↔ (flaw_number kind ≡ number) }
    {
        match number {
            1 => Some(FlawKind::TooManyLines),
            2 => Some(FlawKind::LongLine),
            3 => Some(FlawKind::NotUtf8),
            4 => Some(FlawKind::UnknownLine),
            5 => Some(FlawKind::NoSpace),
            6 => Some(FlawKind::BadName),
            7 => Some(FlawKind::UnboundPrefix),
            8 => Some(FlawKind::DuplicateAttr),
            9 => Some(FlawKind::TooManyNames),
            10 => Some(FlawKind::TooMuchText),
            11 => Some(FlawKind::SecondRoot),
            12 => Some(FlawKind::TooDeep),
            13 => Some(FlawKind::TooManyNodes),
            14 => Some(FlawKind::AttrPlace),
            15 => Some(FlawKind::TooManyAttrs),
            16 => Some(FlawKind::TextOutside),
            17 => Some(FlawKind::WrongEnd),
            18 => Some(FlawKind::NoRoot),
            19 => Some(FlawKind::Unclosed),
            _ => None,
        }
    }
}

/// The first flaw of a source.
#[derive(Clone, Copy, Debug, PartialEq, Eq)]
pub struct Flaw {
    /// The number of the line, counted from 1. A flaw of the input's end has the number of lines plus 1.
    pub line: u64,
    pub kind: FlawKind,
}
