ghost use Rattle.std.specs.Prelude.{◌≡◌};
ghost use Rattle.sheet_elements.specs.Table as spec;

use crate::tag::{Tag, Word};

/// What an attribute's value is.
#[derive(Clone, Copy, Debug, PartialEq, Eq)]
pub enum Kind {
    /// `1.0`, which is judged before all values.
    Version,
    /// An expression (XPath 1.0).
    Expression,
    /// A pattern (XSLT 1.0, section 5.2).
    Pattern,
    /// An attribute value template (7.6.2).
    Template,
    /// A name, with a prefix or without.
    Name,
    /// Name tests between whitespace (3.4).
    NameTests,
    /// A number of at most two digits behind its point, of magnitude at most 1,000,000 (5.5).
    Priority,
    /// `xml` or `text`.
    Method,
    /// `text` or `number`.
    DataType,
    /// `ascending` or `descending`.
    Order,
    /// `yes` or `no`.
    YesOrNo,
    /// The empty value.
    Nothing,
    /// It has no effect.
    Unused,
}

/// Whether an element has to have an attribute.
#[derive(Clone, Copy, Debug, PartialEq, Eq)]
pub enum Need {
    Required,
    /// It, or another one of its element's that is marked so.
    Either,
    Optional,
}

/// An attribute of an element.
#[derive(Clone, Copy, Debug, PartialEq, Eq)]
pub struct Row {
    pub word: Word,
    pub need: Need,
    pub kind: Kind,
}

/// The attributes that an element has in the table; a literal one has none there.
pub fn rows(tag: Tag) -> &'static [Row]
    ensures { result.now ≡ spec.rows tag }
{
    match tag {
        Tag::Stylesheet => &STYLESHEET,
        Tag::Output => &OUTPUT,
        Tag::StripSpace | Tag::PreserveSpace => &STRIP_SPACE,
        Tag::Template => &TEMPLATE,
        Tag::Variable | Tag::Param | Tag::WithParam => &VARIABLE,
        Tag::ApplyTemplates => &APPLY_TEMPLATES,
        Tag::CallTemplate => &CALL_TEMPLATE,
        Tag::ForEach | Tag::CopyOf => &FOR_EACH,
        Tag::Sort => &SORT,
        Tag::ValueOf => &VALUE_OF,
        Tag::Copy | Tag::Comment | Tag::Choose | Tag::Otherwise | Tag::Literal => &NONE,
        Tag::Element | Tag::Attribute => &ELEMENT,
        Tag::ProcessingInstruction => &PROCESSING_INSTRUCTION,
        Tag::Text => &TEXT,
        Tag::Message => &MESSAGE,
        Tag::If | Tag::When => &IF,
    }
}

const STYLESHEET: [Row; 4] = [
    Row {
        word: Word::Version,
        need: Need::Required,
        kind: Kind::Version,
    },
    Row {
        word: Word::Id,
        need: Need::Optional,
        kind: Kind::Unused,
    },
    Row {
        word: Word::ExcludeResultPrefixes,
        need: Need::Optional,
        kind: Kind::Unused,
    },
    Row {
        word: Word::ExtensionElementPrefixes,
        need: Need::Optional,
        kind: Kind::Nothing,
    },
];

const OUTPUT: [Row; 10] = [
    Row {
        word: Word::Method,
        need: Need::Optional,
        kind: Kind::Method,
    },
    Row {
        word: Word::Version,
        need: Need::Optional,
        kind: Kind::Unused,
    },
    Row {
        word: Word::Encoding,
        need: Need::Optional,
        kind: Kind::Unused,
    },
    Row {
        word: Word::OmitXmlDeclaration,
        need: Need::Optional,
        kind: Kind::Unused,
    },
    Row {
        word: Word::Standalone,
        need: Need::Optional,
        kind: Kind::Unused,
    },
    Row {
        word: Word::DoctypePublic,
        need: Need::Optional,
        kind: Kind::Unused,
    },
    Row {
        word: Word::DoctypeSystem,
        need: Need::Optional,
        kind: Kind::Unused,
    },
    Row {
        word: Word::CdataSectionElements,
        need: Need::Optional,
        kind: Kind::Unused,
    },
    Row {
        word: Word::Indent,
        need: Need::Optional,
        kind: Kind::Unused,
    },
    Row {
        word: Word::MediaType,
        need: Need::Optional,
        kind: Kind::Unused,
    },
];

const STRIP_SPACE: [Row; 1] = [Row {
    word: Word::Elements,
    need: Need::Required,
    kind: Kind::NameTests,
}];

const TEMPLATE: [Row; 4] = [
    Row {
        word: Word::Match,
        need: Need::Either,
        kind: Kind::Pattern,
    },
    Row {
        word: Word::Name,
        need: Need::Either,
        kind: Kind::Name,
    },
    Row {
        word: Word::Priority,
        need: Need::Optional,
        kind: Kind::Priority,
    },
    Row {
        word: Word::Mode,
        need: Need::Optional,
        kind: Kind::Name,
    },
];

const VARIABLE: [Row; 2] = [
    Row {
        word: Word::Name,
        need: Need::Required,
        kind: Kind::Name,
    },
    Row {
        word: Word::Select,
        need: Need::Optional,
        kind: Kind::Expression,
    },
];

const APPLY_TEMPLATES: [Row; 2] = [
    Row {
        word: Word::Select,
        need: Need::Optional,
        kind: Kind::Expression,
    },
    Row {
        word: Word::Mode,
        need: Need::Optional,
        kind: Kind::Name,
    },
];

const CALL_TEMPLATE: [Row; 1] = [Row {
    word: Word::Name,
    need: Need::Required,
    kind: Kind::Name,
}];

const FOR_EACH: [Row; 1] = [Row {
    word: Word::Select,
    need: Need::Required,
    kind: Kind::Expression,
}];

const SORT: [Row; 5] = [
    Row {
        word: Word::Select,
        need: Need::Optional,
        kind: Kind::Expression,
    },
    Row {
        word: Word::DataType,
        need: Need::Optional,
        kind: Kind::DataType,
    },
    Row {
        word: Word::Order,
        need: Need::Optional,
        kind: Kind::Order,
    },
    Row {
        word: Word::Lang,
        need: Need::Optional,
        kind: Kind::Unused,
    },
    Row {
        word: Word::CaseOrder,
        need: Need::Optional,
        kind: Kind::Unused,
    },
];

const VALUE_OF: [Row; 2] = [
    Row {
        word: Word::Select,
        need: Need::Required,
        kind: Kind::Expression,
    },
    Row {
        word: Word::DisableOutputEscaping,
        need: Need::Optional,
        kind: Kind::Unused,
    },
];

const NONE: [Row; 0] = [];

const ELEMENT: [Row; 2] = [
    Row {
        word: Word::Name,
        need: Need::Required,
        kind: Kind::Template,
    },
    Row {
        word: Word::Namespace,
        need: Need::Optional,
        kind: Kind::Template,
    },
];

const PROCESSING_INSTRUCTION: [Row; 1] = [Row {
    word: Word::Name,
    need: Need::Required,
    kind: Kind::Template,
}];

const TEXT: [Row; 1] = [Row {
    word: Word::DisableOutputEscaping,
    need: Need::Optional,
    kind: Kind::Unused,
}];

const MESSAGE: [Row; 1] = [Row {
    word: Word::Terminate,
    need: Need::Optional,
    kind: Kind::YesOrNo,
}];

const IF: [Row; 1] = [Row {
    word: Word::Test,
    need: Need::Required,
    kind: Kind::Expression,
}];
