ghost use Rattle.std.specs.Prelude.{◌≡◌, ◌+◌, ◌*◌, ◌<◌, ◌≤◌, ◌^◌, ◌∷◌, [], true, length, None, OnOk, IfOk};
ghost use Rattle.doc_model.specs.Cells.{with_text, free_of, place_at, text_place, text_words};
ghost use Rattle.doc_model.specs.Document.{document_of};
ghost use Rattle.doc_model.specs.Lawful.{AllAttributes};
ghost use Rattle.doc_model.specs.Legal.{IsFresh};
ghost use Rattle.node_writer.specs.Filled.{FillsTexts, name_texts, name_next, with_new_name, with_new_prefix};
ghost use Rattle.node_writer.specs.Filler.{FillerStands, NameFits, NameFilled, IsTypeOf, PrefixFits, PrefixFilled, IsPrefixOf, IsGiven, TypeFits, TypeFilled, RowsFit, LinksFit, RowsFilled};
ghost use Rattle.node_writer.specs.Known.{IsKnown, AreKnown};
ghost use Rattle.node_writer.specs.Taken.{has_name, name_of_row};

use crate::known::known_at;
use doc_model::{GrowCells, Kind, NamePlace, Row, RowPlace, text_place};
use name_pool::{Memory, NamePool, PoolError};
use std::alloc::Global;

/// The type number of texts.
const TEXT_TYPE: u32 = 1;

/// The type number of comments.
const COMMENT_TYPE: u32 = 2;

/// The numbers of what is filled.
#[derive(Drop)]
pub(crate) struct Filler {
    pub(crate) pool: NamePool,
    /// Bytes that were counted: those of the texts, without the gaps between them.
    pub(crate) text: u64,
    /// Where the texts end, in bytes.
    pub(crate) at: u64,
    pub(crate) rows: u32,
    /// Type numbers, the three of the start counted.
    pub(crate) types: u32,
    /// Prefix numbers, the empty one counted.
    pub(crate) prefixes: u32,
}

/// Where a row stands: its parent, the sibling before it, and how many attributes follow it.
#[derive(Clone, Copy)]
pub(crate) struct Links {
    pub(crate) parent: u32,
    pub(crate) prev: Option<u32>,
    pub(crate) attributes: u32,
}

impl Filler {
    /// Fills the bytes, and gives their place.
    pub(crate) fn text<C: GrowCells>(&mut self, c: &mut C, bytes: &[u8]) -> u64
        requires going { (document_of (C.cells c.old).steps).ended ≡ None }
        requires at { self.old.at ≡ length (C.cells c.old).columns.texts }
        requires words { 7 * text_words (C.limits c.old) < 2 ^ 62 }
        requires small { (C.limits c.old).text < 2 ^ 32 }
        requires counted { self.old.text + length bytes.now ≤ (C.limits c.old).text }
        requires room { text_place self.old.at + length bytes.now ≤ 7 * text_words (C.limits c.old) }
        ensures at { result ≡ text_place self.old.at }
        ensures filler { self.new ≡ record self.old { text = self.old.text + length bytes.now; at = text_place self.old.at + length bytes.now } }
        ensures end { self.new.at ≡ length (C.cells c.new).columns.texts }
        ensures cells { C.cells c.new ≡ with_text (C.cells c.old) bytes.now }
        ensures limits { C.limits c.new ≡ C.limits c.old }
        ensures mark { C.mark c.new ≡ C.mark c.old }
    {
        let at = text_place(self.at);
        c.fill_text(at, bytes);
        self.text += bytes.len() as u64;
        self.at = at + bytes.len() as u64;
        at
    }

    /// Fills the next name and its texts.
    pub(crate) fn new_name<C: GrowCells>(&mut self, c: &mut C, kind: Kind, uri: &[u8], local: &[u8])
        requires going { (document_of (C.cells c.old).steps).ended ≡ None }
        requires at { self.old.at ≡ length (C.cells c.old).columns.texts }
        requires types { self.old.types ≡ length (C.cells c.old).columns.names }
        requires words { 7 * text_words (C.limits c.old) < 2 ^ 62 }
        requires small { (C.limits c.old).text < 2 ^ 32 }
        requires few { self.old.types + 1 < 2 ^ 32 }
        requires counted { self.old.text + (length uri.now + length local.now) ≤ (C.limits c.old).text }
        requires room { text_place (text_place self.old.at + length uri.now) + length local.now ≤ 7 * text_words (C.limits c.old) }
        requires name_room { 0 < (free_of (C.limits c.old) (C.cells c.old).columns).names }
        requires fresh { IsFresh (record (C.cells c.old).columns { texts = name_texts (C.cells c.old).columns.texts uri.now local.now }) (name_next (C.cells c.old).columns kind uri.now local.now) }
        ensures filler { self.new ≡ record self.old { text = self.old.text + length uri.now + length local.now; at = text_place (text_place self.old.at + length uri.now) + length local.now; types = self.old.types + 1 } }
        ensures cells { C.cells c.new ≡ with_new_name (C.cells c.old) kind uri.now local.now }
        ensures limits { C.limits c.new ≡ C.limits c.old }
        ensures mark { C.mark c.new ≡ C.mark c.old }
    {
        let uri_at = self.text(c, uri);
        let local_at = self.text(c, local);
        let name = NamePlace {
            kind,
            uri_at,
            uri_len: uri.len() as u32,
            local_at,
            local_len: local.len() as u32,
        };
        c.fill_name(self.types, &name);
        self.types += 1;
    }

    /// Fills the next prefix and its text.
    pub(crate) fn new_prefix<C: GrowCells>(&mut self, c: &mut C, prefix: &[u8])
        requires going { (document_of (C.cells c.old).steps).ended ≡ None }
        requires at { self.old.at ≡ length (C.cells c.old).columns.texts }
        requires prefixes { self.old.prefixes ≡ length (C.cells c.old).columns.prefixes }
        requires words { 7 * text_words (C.limits c.old) < 2 ^ 62 }
        requires small { (C.limits c.old).text < 2 ^ 32 }
        requires few { self.old.prefixes + 1 < 2 ^ 32 }
        requires counted { self.old.text + length prefix.now ≤ (C.limits c.old).text }
        requires room { text_place self.old.at + length prefix.now ≤ 7 * text_words (C.limits c.old) }
        requires name_room { 0 < (free_of (C.limits c.old) (C.cells c.old).columns).names }
        ensures filler { self.new ≡ record self.old { text = self.old.text + length prefix.now; at = text_place self.old.at + length prefix.now; prefixes = self.old.prefixes + 1 } }
        ensures cells { C.cells c.new ≡ with_new_prefix (C.cells c.old) prefix.now }
        ensures limits { C.limits c.new ≡ C.limits c.old }
        ensures mark { C.mark c.new ≡ C.mark c.old }
    {
        let at = self.text(c, prefix);
        c.fill_prefix(self.prefixes, at, prefix.len() as u32);
        self.prefixes += 1;
    }

    /// The type number of a name, which is filled if it is new. Fails only for want of memory.
    pub(crate) fn name<C: GrowCells>(
        &mut self,
        alloc: Global,
        c: &mut C,
        kind: Kind,
        uri: &[u8],
        local: &[u8],
    ) -> Result<u32, Memory>
        requires going { (document_of (C.cells c.old).steps).ended ≡ None }
        requires stands { FillerStands self.old (C.limits c.old) (C.cells c.old).columns }
        requires named { has_name kind ≡ true }
        requires fits { NameFits self.old (C.limits c.old) (record { kind = kind; uri = uri.now; local = local.now }) }
        ensures ok { OnOk result (NameFilled self.old self.new (C.limits c.old) (C.cells c.new).columns (record { kind = kind; uri = uri.now; local = local.now })) }
        ensures number { IfOk result (λ id. IsTypeOf (C.cells c.new).columns id (record { kind = kind; uri = uri.now; local = local.now })) }
        ensures fills { FillsTexts (C.cells c.old) (C.cells c.new) }
        ensures limits { C.limits c.new ≡ C.limits c.old }
        ensures mark { C.mark c.new ≡ C.mark c.old }
    {
        let id = match self.pool.intern(alloc, kind, uri, local) {
            Ok(id) => id,
            Err(PoolError::Full) => unreachable!(),
            Err(PoolError::Memory) => return Err(Memory),
        };
        if id != self.types {
            return Ok(id);
        }
        self.new_name(c, kind, uri, local);
        Ok(id)
    }

    /// The number of a prefix, which is filled if it is new. Fails only for want of memory.
    pub(crate) fn prefix<C: GrowCells>(
        &mut self,
        alloc: Global,
        c: &mut C,
        prefix: &[u8],
    ) -> Result<u32, Memory>
        requires going { (document_of (C.cells c.old).steps).ended ≡ None }
        requires stands { FillerStands self.old (C.limits c.old) (C.cells c.old).columns }
        requires fits { PrefixFits self.old (C.limits c.old) prefix.now }
        ensures ok { OnOk result (PrefixFilled self.old self.new (C.limits c.old) (C.cells c.new).columns prefix.now) }
        ensures number { IfOk result (λ id. IsPrefixOf (C.cells c.new).columns id prefix.now) }
        ensures fills { FillsTexts (C.cells c.old) (C.cells c.new) }
        ensures limits { C.limits c.new ≡ C.limits c.old }
        ensures mark { C.mark c.new ≡ C.mark c.old }
    {
        let id = match self.pool.prefix(alloc, prefix) {
            Ok(id) => id,
            Err(PoolError::Full) => unreachable!(),
            Err(PoolError::Memory) => return Err(Memory),
        };
        if id != self.prefixes {
            return Ok(id);
        }
        self.new_prefix(c, prefix);
        Ok(id)
    }

    /// The type number of a row: the one that is known, or else that of its name, which is filled if it is
    /// new. Fails only for want of memory.
    fn type_of<C: GrowCells>(
        &mut self,
        alloc: Global,
        c: &mut C,
        row: &Row,
        known: Option<u32>,
    ) -> Result<u32, Memory>
        requires going { (document_of (C.cells c.old).steps).ended ≡ None }
        requires stands { FillerStands self.old (C.limits c.old) (C.cells c.old).columns }
        requires given { IsGiven row.now }
        requires known { IsKnown self.old.pool.names row.now known }
        requires fits { TypeFits self.old (C.limits c.old) row.now }
        ensures ok { OnOk result (TypeFilled self.old self.new (C.limits c.old) (C.cells c.new).columns row.now) }
        ensures number { IfOk result (λ id. IsTypeOf (C.cells c.new).columns id (name_of_row row.now)) }
        ensures fills { FillsTexts (C.cells c.old) (C.cells c.new) }
        ensures limits { C.limits c.new ≡ C.limits c.old }
        ensures mark { C.mark c.new ≡ C.mark c.old }
    {
        match row.kind {
            Kind::Text => Ok(TEXT_TYPE),
            Kind::Comment => Ok(COMMENT_TYPE),
            kind => match known {
                Some(id) => Ok(id),
                None => self.name(alloc, c, kind, row.uri.as_slice(), row.local.as_slice()),
            },
        }
    }

    /// Fills a row and what it names that is new. Fails only for want of memory.
    pub(crate) fn row<C: GrowCells>(
        &mut self,
        alloc: Global,
        c: &mut C,
        row: &Row,
        known: Option<u32>,
        links: Links,
    ) -> Result<(), Memory>
        requires going { (document_of (C.cells c.old).steps).ended ≡ None }
        requires stands { FillerStands self.old (C.limits c.old) (C.cells c.old).columns }
        requires given { IsGiven row.now }
        requires known { IsKnown self.old.pool.names row.now known }
        requires fits { RowsFit self.old (C.limits c.old) (row.now ∷ []) }
        requires links { LinksFit (C.cells c.old).columns row.now links }
        ensures ok { OnOk result (RowsFilled self.old self.new (C.limits c.old) (C.cells c.old).columns (C.cells c.new).columns (row.now ∷ []) links) }
        ensures steps { (C.cells c.new).steps ≡ (C.cells c.old).steps }
        ensures limits { C.limits c.new ≡ C.limits c.old }
        ensures mark { C.mark c.new ≡ C.mark c.old }
    {
        let type_id = self.type_of(alloc, c, row, known)?;
        let prefix_id = self.prefix(alloc, c, row.prefix.as_slice())?;
        let text_at = self.text(c, row.value.as_slice());
        let place = RowPlace {
            kind: row.kind,
            type_id,
            prefix_id,
            parent: links.parent,
            prev: links.prev,
            depth: row.depth,
            attr_count: links.attributes,
            text_at,
            text_len: row.value.len() as u32,
        };
        c.fill_row(self.rows, &place);
        self.rows += 1;
        Ok(())
    }

    /// Fills the attributes of row `n`, one after the other; what is known of the first stands behind what is
    /// known of the row. Fails only for want of memory.
    pub(crate) fn attributes<C: GrowCells>(
        &mut self,
        alloc: Global,
        c: &mut C,
        n: u32,
        attributes: &[Row],
        known: &[Option<u32>],
    ) -> Result<(), Memory>
        requires going { (document_of (C.cells c.old).steps).ended ≡ None }
        requires stands { FillerStands self.old (C.limits c.old) (C.cells c.old).columns }
        requires parent { n < length (C.cells c.old).columns.places }
        requires carried { AllAttributes (place_at (C.cells c.old).columns n).depth attributes.now }
        requires fits { RowsFit self.old (C.limits c.old) attributes.now }
        requires known { AreKnown 1 self.old.pool.names attributes.now known.now }
        ensures ok { OnOk result (RowsFilled self.old self.new (C.limits c.old) (C.cells c.old).columns (C.cells c.new).columns attributes.now (record { parent = n; prev = None; attributes = 0 })) }
        ensures steps { (C.cells c.new).steps ≡ (C.cells c.old).steps }
        ensures limits { C.limits c.new ≡ C.limits c.old }
        ensures mark { C.mark c.new ≡ C.mark c.old }
    {
        let links = Links {
            parent: n,
            prev: None,
            attributes: 0,
        };
        for at in 0..attributes.len() {
            self.row(alloc, c, &attributes[at], known_at(known, at + 1), links)?;
        }
        Ok(())
    }
}
