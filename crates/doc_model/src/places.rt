ghost use Rattle.std.specs.Prelude.{◌≡◌, ◌<◌, ◌^◌};
ghost use Rattle.doc_model.specs.Cells.{text_place};

use crate::row::Kind;

/// What is free in a table.
#[derive(Clone, Copy, Debug, PartialEq, Eq)]
pub struct Room {
    pub rows: u32,
    /// Bytes: seven times the number of text words that aren't used.
    pub text: u64,
    /// Types and prefixes together.
    pub names: u32,
}

/// Where the text of a prefix stands, in bytes.
#[derive(Clone, Copy, Debug, PartialEq, Eq)]
pub struct PrefixPlace {
    pub at: u64,
    pub len: u32,
}

/// The name of a type by the places of its texts, in bytes.
#[derive(Clone, Copy, Debug, PartialEq, Eq)]
pub struct NamePlace {
    pub kind: Kind,
    pub uri_at: u64,
    pub uri_len: u32,
    pub local_at: u64,
    pub local_len: u32,
}

/// A row by the places of its parts.
#[derive(Clone, Copy, Debug, PartialEq, Eq)]
pub struct RowPlace {
    pub kind: Kind,
    /// The number of its expanded type: 0 the root's, 1 that of texts, from 3 those that were filled.
    pub type_id: u32,
    /// The number of its prefix: 0 is the empty one.
    pub prefix_id: u32,
    pub parent: u32,
    /// The sibling before it.
    pub prev: Option<u32>,
    pub depth: u32,
    /// How many of the rows right after it are its attributes.
    pub attr_count: u32,
    /// Where its value stands, in bytes.
    pub text_at: u64,
    pub text_len: u32,
}

/// The link by which a row is joined.
#[derive(Clone, Copy, Debug, PartialEq, Eq)]
pub enum Join {
    /// The first child of this row.
    FirstOf(u32),
    /// The sibling after this row.
    NextOf(u32),
}

/// Where a text begins that is filled behind so many bytes: at the least multiple of 7 that isn't below, as
/// a word holds up to seven bytes and a text begins at a new word.
pub fn text_place(end: u64) -> u64
    requires { end < 2 ^ 63 }
    ensures { result ≡ text_place end }
{
    7 * ((end + 6) / 7)
}
