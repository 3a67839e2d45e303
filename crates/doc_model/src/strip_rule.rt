use lists::List;

/// Whether whitespace texts in elements of some names are stripped (XSLT 1.0, section 3.4).
#[derive(Clone, Debug, Drop, PartialEq, Eq)]
pub struct StripRule {
    /// Strip them, or preserve them.
    pub strip: bool,
    /// The namespace of the names; without it, every name. A local name stands only beside a namespace.
    pub uri: Option<List<u8>>,
    /// The local name; without it, every name of the namespace.
    pub local: Option<List<u8>>,
    /// The import precedence (XSLT 1.0, section 2.6.2): a higher one holds over a lower one.
    pub precedence: u32,
}

/// The rules of a stylesheet in their order: the higher import precedence holds, then the higher default
/// priority, then the later.
#[derive(Clone, Debug, Drop, PartialEq, Eq)]
pub struct StripRules {
    pub rules: List<StripRule>,
}
