ghost use Rattle.std.specs.Prelude.{◌≡◌, ◌↔◌, Some};
ghost use Rattle.doc_model.specs.Document.{is_parent, is_attribute};
ghost use Rattle.doc_model.specs.Numbers.{kind_number};
ghost use Rattle.doc_model.specs.Strip.{is_text, is_element};

use lists::List;
use shared_texts::Shared;

/// What a row is (XPath 1.0, section 5).
#[derive(Clone, Copy, Debug, PartialEq, Eq)]
pub enum Kind {
    Root,
    Element,
    Attribute,
    Text,
    /// A processing instruction, whose target is the local name.
    Instruction,
    /// A comment, which may stand outside the root element too.
    Comment,
}

impl Kind {
    /// The number of the kind, counted from 0 in the order of the variants.
    pub fn number(self) -> u8
        ensures { result ≡ kind_number self }
    {
        match self {
            Kind::Root => 0,
            Kind::Element => 1,
            Kind::Attribute => 2,
            Kind::Text => 3,
            Kind::Instruction => 4,
            Kind::Comment => 5,
        }
    }

    /// The kind that has a number; None exactly where none has it.
    pub fn from_number(number: u8) -> Option<Kind>
        ensures { (kind : Kind) → (result ≡ Some kind) ↔ (kind_number kind ≡ number) }
    {
        match number {
            0 => Some(Kind::Root),
            1 => Some(Kind::Element),
            2 => Some(Kind::Attribute),
            3 => Some(Kind::Text),
            4 => Some(Kind::Instruction),
            5 => Some(Kind::Comment),
            _ => None,
        }
    }

    /// Whether rows of this kind may have children: the root and elements.
    pub fn may_have_children(self) -> bool
        ensures { result ≡ is_parent self }
    {
        match self {
            Kind::Root | Kind::Element => true,
            Kind::Attribute | Kind::Text | Kind::Instruction | Kind::Comment => false,
        }
    }

    pub fn is_element(self) -> bool
        ensures { result ≡ is_element self }
    {
        match self {
            Kind::Element => true,
            Kind::Root | Kind::Attribute | Kind::Text | Kind::Instruction | Kind::Comment => false,
        }
    }

    pub fn is_attribute(self) -> bool
        ensures { result ≡ is_attribute self }
    {
        match self {
            Kind::Attribute => true,
            Kind::Root | Kind::Element | Kind::Text | Kind::Instruction | Kind::Comment => false,
        }
    }

    pub fn is_text(self) -> bool
        ensures { result ≡ is_text self }
    {
        match self {
            Kind::Text => true,
            Kind::Root | Kind::Element | Kind::Attribute | Kind::Instruction | Kind::Comment =>
                false,
        }
    }
}

/// An axis (XPath 1.0, section 2.2), without the namespace axis.
#[derive(Clone, Copy, Debug, PartialEq, Eq)]
pub enum Axis {
    /// The axis `self`.
    Itself,
    Child,
    Parent,
    Descendant,
    DescendantOrSelf,
    Ancestor,
    AncestorOrSelf,
    Following,
    Preceding,
    FollowingSibling,
    PrecedingSibling,
    Attribute,
}

/// A row of the table. Rows are numbered from 0, the root, in document order.
#[derive(Clone, Debug, Drop, PartialEq, Eq)]
pub struct Row {
    pub kind: Kind,
    pub prefix: List<u8>,
    pub uri: Shared<u8>,
    pub local: List<u8>,
    /// The text of a text, an attribute, an instruction or a comment; empty for others.
    pub value: List<u8>,
    /// The number of elements around, the root counted. An attribute has its element's depth plus 1.
    pub depth: u32,
}

/// The texts of a row's name, all UTF-8.
#[derive(Clone, Debug, Drop, PartialEq, Eq)]
pub struct NameText {
    pub prefix: List<u8>,
    pub uri: List<u8>,
    pub local: List<u8>,
}
