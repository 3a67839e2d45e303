use crate::row::Kind;
use lists::List;

/// A node test (XPath 1.0, section 2.3). A test by name asks for the principal kind of the axis:
/// attributes on the attribute axis, else elements.
#[derive(Clone, Debug, Drop, PartialEq, Eq)]
pub enum Test {
    /// The test `node()`.
    Any,
    /// Nodes of this kind, as `text()` and `processing-instruction()` ask.
    Kind(Kind),
    /// An expanded name.
    Name { uri: List<u8>, local: List<u8> },
    /// Every name of this namespace.
    InUri(List<u8>),
    /// Every name, the test `*`.
    AnyName,
    /// Instructions with this target.
    Target(List<u8>),
}
