use result_events::{Events, Name};

/// What xsl:copy makes of a node, beside its content (XSLT 1.0, section 7.5).
#[derive(Debug, Drop, PartialEq, Eq)]
pub enum Shallow {
    /// Nothing: of the root.
    Content,
    /// A start and an end around the content: of an element.
    Around(Name),
    /// The node by itself, without content: of any other node.
    Alone(Events),
}
