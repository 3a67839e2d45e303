use doc_model::Row;
use lists::List;
use xml_names::Binding;

/// What lines give.
#[derive(Clone, Debug, Drop, PartialEq, Eq)]
pub enum Event {
    /// A row with what came with it.
    Node {
        row: Row,
        /// The attributes, in the order of their lines.
        attributes: List<Row>,
        /// The element's declarations, in the order of their lines, without those of `xml` and `xmlns`.
        declarations: List<Binding>,
        /// The numbers of the URIs of an element and then of its attributes: equal URIs of a source have
        /// equal numbers, and other URIs other ones. The empty URI has 0. Other rows have none.
        uris: List<u32>,
        /// The number of the line, counted from 1: of an element's start, of a text the line that ends it.
        line: u64,
    },
    /// The innermost open element ends.
    Shut,
}

/// What one line gives, in document order.
pub type Events = List<Event>;
