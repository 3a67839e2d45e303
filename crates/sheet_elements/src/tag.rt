ghost use Rattle.std.specs.Prelude.{◌≡◌};
ghost use Rattle.sheet_elements.specs.Names as spec;

/// What an element is (XSLT 1.0, appendix B).
#[derive(Clone, Copy, Debug, PartialEq, Eq)]
pub enum Tag {
    /// xsl:stylesheet or xsl:transform.
    Stylesheet,
    Output,
    StripSpace,
    PreserveSpace,
    Template,
    Variable,
    Param,
    WithParam,
    ApplyTemplates,
    CallTemplate,
    ForEach,
    Sort,
    ValueOf,
    CopyOf,
    Copy,
    Element,
    Attribute,
    ProcessingInstruction,
    Comment,
    Text,
    Message,
    If,
    Choose,
    When,
    Otherwise,
    /// A literal result element (7.1.1): one of no or another namespace.
    Literal,
}

impl Tag {
    fn number(self) -> u8
        ensures { result ≡ spec.tag_number self }
    {
        match self {
            Tag::Stylesheet => 0,
            Tag::Output => 1,
            Tag::StripSpace => 2,
            Tag::PreserveSpace => 3,
            Tag::Template => 4,
            Tag::Variable => 5,
            Tag::Param => 6,
            Tag::WithParam => 7,
            Tag::ApplyTemplates => 8,
            Tag::CallTemplate => 9,
            Tag::ForEach => 10,
            Tag::Sort => 11,
            Tag::ValueOf => 12,
            Tag::CopyOf => 13,
            Tag::Copy => 14,
            Tag::Element => 15,
            Tag::Attribute => 16,
            Tag::ProcessingInstruction => 17,
            Tag::Comment => 18,
            Tag::Text => 19,
            Tag::Message => 20,
            Tag::If => 21,
            Tag::Choose => 22,
            Tag::When => 23,
            Tag::Otherwise => 24,
            Tag::Literal => 25,
        }
    }

    /// Whether the two are one element.
    pub fn is(self, other: Tag) -> bool
        ensures { result ≡ spec.same_tag self other }
    {
        self.number() == other.number()
    }
}

/// The name of an attribute without a namespace.
#[derive(Clone, Copy, Debug, PartialEq, Eq)]
pub enum Word {
    Version,
    Id,
    ExcludeResultPrefixes,
    ExtensionElementPrefixes,
    Method,
    Encoding,
    OmitXmlDeclaration,
    Standalone,
    DoctypePublic,
    DoctypeSystem,
    CdataSectionElements,
    Indent,
    MediaType,
    Elements,
    Name,
    Match,
    Priority,
    Mode,
    Select,
    DataType,
    Order,
    Lang,
    CaseOrder,
    DisableOutputEscaping,
    Namespace,
    Terminate,
    Test,
    /// A name that no element of the namespace has an attribute of.
    Other,
}

impl Word {
    fn number(self) -> u8
        ensures { result ≡ spec.word_number self }
    {
        match self {
            Word::Version => 0,
            Word::Id => 1,
            Word::ExcludeResultPrefixes => 2,
            Word::ExtensionElementPrefixes => 3,
            Word::Method => 4,
            Word::Encoding => 5,
            Word::OmitXmlDeclaration => 6,
            Word::Standalone => 7,
            Word::DoctypePublic => 8,
            Word::DoctypeSystem => 9,
            Word::CdataSectionElements => 10,
            Word::Indent => 11,
            Word::MediaType => 12,
            Word::Elements => 13,
            Word::Name => 14,
            Word::Match => 15,
            Word::Priority => 16,
            Word::Mode => 17,
            Word::Select => 18,
            Word::DataType => 19,
            Word::Order => 20,
            Word::Lang => 21,
            Word::CaseOrder => 22,
            Word::DisableOutputEscaping => 23,
            Word::Namespace => 24,
            Word::Terminate => 25,
            Word::Test => 26,
            Word::Other => 27,
        }
    }

    /// Whether the two are one name.
    pub fn is(self, other: Word) -> bool
        ensures { result ≡ spec.same_word self other }
    {
        self.number() == other.number()
    }
}
