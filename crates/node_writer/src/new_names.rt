// What a Node would add to the names of a table, without a change to it.
ghost use Rattle.std.specs.Prelude.{◌≡◌, ◌+◌, ◌&&◌, ◌∷◌, ◌++◌, ℕ, not, List, if◌then◌else◌, length};
ghost use Rattle.std.specs.Str.{bytes_eq};
ghost use Rattle.doc_model.specs.declared.limits.Limits.{Limits};
ghost use Rattle.doc_model.specs.Cells.{Cells};
ghost use Rattle.doc_model.specs.Rows.{rows_of};
ghost use Rattle.node_writer.specs.Stands.{Stands};
ghost use Rattle.node_writer.specs.Known.{AreApart, AreFound, IsFound, names_in};
ghost use Rattle.node_writer.specs.Taken.{has_name, is_name_of, names_of, name_of_row};
ghost use Rattle.node_writer.specs.New.{capped, has_new_prefix, has_prefix_of, AddsNames};
ghost use Rattle.name_pool.specs.Names.{Name};

use crate::known::known_at;
use crate::writer::NodeWriter;
use doc_model::{Kind, Row};

/// Names that are new to a table.
#[derive(Clone, Copy, Debug, PartialEq, Eq)]
pub struct NewNames {
    /// Types and prefixes; 2^64 - 1 where they are more.
    pub count: u64,
    /// Their bytes; 2^64 - 1 where they are more.
    pub bytes: u64,
}

impl NewNames {
    // One more, of this many bytes in two parts.
    fn with(self, first: usize, second: usize) -> NewNames
        ensures count { (n : ℕ) → self.count ≡ capped n → result.count ≡ capped (n + 1) }
        ensures bytes { (n : ℕ) → self.bytes ≡ capped n → result.bytes ≡ capped (n + (first + second)) }
    {
        NewNames {
            count: self.count.saturating_add(1),
            bytes: self
                .bytes
                .saturating_add(first as u64)
                .saturating_add(second as u64),
        }
    }

    // With the name of a row and its prefix, where these are new.
    fn with_row(self, row: &Row, name: bool, prefix: bool) -> NewNames
        ensures count { (n : ℕ) → self.count ≡ capped n → result.count ≡ capped (n + (if name then 1 else 0) + (if prefix then 1 else 0)) }
        ensures bytes { (n : ℕ) → self.bytes ≡ capped n → result.bytes ≡ capped (n + (if name then length row.now.uri + length row.now.local else 0) + (if prefix then length row.now.prefix else 0)) }
    {
        let named = if name {
            self.with(row.uri.len(), row.local.len())
        } else {
            self
        };
        if prefix {
            named.with(row.prefix.len(), 0)
        } else {
            named
        }
    }
}

impl NodeWriter {
    /// Whether the table has no name of this kind, URI and local name. Takes no memory.
    pub fn is_new_name(&self, kind: Kind, uri: &[u8], local: &[u8]) -> bool
        ensures { (limits : Limits) (cells : Cells) → Stands self.now limits cells → result ≡ not (is_name_of (record { kind = kind; uri = uri.now; local = local.now }) (names_of (rows_of cells.steps))) }
    {
        self.filler.pool.find(kind, uri, local).is_none()
    }

    /// The type number of a row's name, if the table has it. Takes no memory. Costs the bytes of the local
    /// name, and where a name of the table has that one, those of the URI, each times a logarithm.
    pub fn type_number(&self, row: &Row) -> Option<u32>
        ensures { IsFound (names_in self.now) row.now result }
    {
        if has_name(row.kind) {
            self.filler
                .pool
                .find(row.kind, row.uri.as_slice(), row.local.as_slice())
        } else {
            None
        }
    }

    /// The names and prefixes that a Node would add, each counted once, and their bytes. `found` has what
    /// `type_number` gives of the row and then of each attribute, and no two of these have one name. Costs a
    /// look-up of each prefix, and for each that is new the prefixes before it. Takes no memory.
    pub fn new_names(&self, row: &Row, attributes: &[Row], found: &[Option<u32>]) -> NewNames
        requires found { AreFound (names_in self.now) (row.now ∷ attributes.now) found.now }
        requires apart { AreApart (row.now ∷ attributes.now) }
        ensures { (limits : Limits) (cells : Cells) → Stands self.now limits cells → AddsNames (rows_of cells.steps) (row.now ∷ attributes.now) result }
    {
        let none = NewNames { count: 0, bytes: 0 };
        let mut new = none.with_row(
            row,
            is_new_type(row, known_at(found, 0)),
            self.is_new_prefix(row),
        );
        for at in 0..attributes.len() {
            let attribute = &attributes[at];
            let name = is_new_type(attribute, known_at(found, at + 1));
            let prefix = self.is_prefix_new_after(row, &attributes[..at], attribute);
            new = new.with_row(attribute, name, prefix);
        }
        new
    }

    fn is_new_prefix(&self, row: &Row) -> bool
        ensures { (limits : Limits) (cells : Cells) → Stands self.now limits cells → result ≡ has_new_prefix (rows_of cells.steps) row.now }
    {
        self.filler
            .pool
            .prefix_number(row.prefix.as_slice())
            .is_none()
    }

    // Whether a row's prefix is new after those of an element and of attributes.
    fn is_prefix_new_after(&self, element: &Row, attributes: &[Row], row: &Row) -> bool
        ensures { (limits : Limits) (cells : Cells) → Stands self.now limits cells → result ≡ has_new_prefix (rows_of cells.steps ++ element.now ∷ attributes.now) row.now }
    {
        self.is_new_prefix(row) && !has_prefix(element, attributes, row)
    }
}

// Whether the table doesn't have the row's name, by what was found of it.
fn is_new_type(row: &Row, found: Option<u32>) -> bool
    ensures { (names : List Name) → IsFound names row.now found → result ≡ (has_name row.now.kind && not (is_name_of (name_of_row row.now) names)) }
{
    has_name(row.kind) && found.is_none()
}

fn has_name(kind: Kind) -> bool
    ensures { result ≡ has_name kind }
{
    matches!(kind, Kind::Element | Kind::Attribute | Kind::Instruction)
}

fn has_prefix(element: &Row, attributes: &[Row], row: &Row) -> bool
    ensures { result ≡ has_prefix_of row.now (element.now ∷ attributes.now) }
{
    is_same_prefix(row, element) || is_prefix_among(attributes, row)
}

fn is_prefix_among(rows: &[Row], row: &Row) -> bool
    ensures { result ≡ has_prefix_of row.now rows.now }
{
    rows.iter().any(|other| is_same_prefix(row, other))
}

fn is_same_prefix(row: &Row, other: &Row) -> bool
    ensures { result ≡ bytes_eq row.now.prefix other.now.prefix }
{
    row.prefix.as_slice() == other.prefix.as_slice()
}
