use doc_model::Row;
use lists::List;
use sheet_scopes::ScopeEntry;
use xml_names::Binding;

/// An element without its content.
#[derive(Debug, Drop)]
pub struct Start {
    /// The number of its line, counted from 1.
    pub line: u64,
    pub row: Row,
    /// In line order, without declarations of namespaces.
    pub attributes: List<Row>,
    /// In line order, without those of `xml` and `xmlns`.
    pub declarations: List<Binding>,
    /// The number of the element's scope among those of the document.
    pub scope: u32,
}

/// A node of a stylesheet. Comments and processing instructions are none, but end a text.
#[cycle(document)]
#[derive(Debug, Drop)]
pub enum Node {
    /// Text that isn't whitespace alone, or that stands in xsl:text (XSLT 1.0, section 3.4).
    Text(List<u8>),
    Element(Element),
}

/// An element of a stylesheet.
#[cycle(document)]
#[derive(Debug, Drop)]
pub struct Element {
    pub start: Start,
    pub children: List<Node>,
}

/// What the lines of a stylesheet give.
#[derive(Debug, Drop)]
pub struct Document {
    /// What stands outside of every element: the root element.
    pub nodes: List<Node>,
    /// The declarations of namespaces, in line order.
    pub scopes: List<ScopeEntry>,
}
