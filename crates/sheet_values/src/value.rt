//! What attributes have as values.

use lists::List;
use xpath_syntax::{Expr, NameRef, Part, Pattern};

/// A name test of xsl:strip-space or xsl:preserve-space (XSLT 1.0, section 3.4).
#[derive(Debug, Drop)]
pub struct NameTest {
    /// The namespace of the names; without it, every name is meant, and `local` is None.
    pub uri: Option<List<u8>>,
    /// The local name; without it, every name of the namespace is meant.
    pub local: Option<List<u8>>,
}

/// The value of an attribute. Expressions have their names bound, but for variables and keys, which have no place yet.
#[derive(Drop)]
pub enum Value {
    Expression(Expr),
    Pattern(Pattern),
    Template(List<Part>),
    /// A name with the URI of its prefix, which is empty where it has none.
    Name(NameRef),
    /// In the order of the value.
    NameTests(List<NameTest>),
    /// In hundredths, from -100,000,000 to 100,000,000.
    Priority(i32),
    /// Whether the method is `text`, and not `xml`.
    IsText(bool),
    /// Whether a sort is by number, and not by text.
    IsNumber(bool),
    /// Whether a sort descends.
    IsDescending(bool),
    /// `yes`, or `no`.
    IsYes(bool),
    /// It has no effect.
    Unused,
}
