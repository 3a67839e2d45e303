ghost use Rattle.std.specs.Prelude.{◌≡◌, ◌+◌, ◌*◌, ◌<◌, ◌≤◌, ◌^◌, ◌∷◌, [], IfOk, OnOk, vec_capacity};
ghost use Rattle.doc_model.specs.Cells.{empty_cells, no_name, text_name, comment_name, no_prefix, root_place, text_words};

mod growing;
mod reading;

use crate::entry::StoredEntry;
use crate::stored_row::StoredRow;
use doc_model::{Kind, Limits, NamePlace, PrefixPlace, RowPlace, Verdict};
use std::alloc::{AllocError, Global};
use std::marker::Model;

/// A table whose memory is all taken when it is made: 56 bytes a row, 40 a name, and each text once, with
/// at most six bytes before it. Beside the columns it keeps one word for each join and shut, and the verdict; they spell its
/// steps.
#[derive(Drop)]
pub struct Plain {
    limits: Limits,
    texts: Vec<u8>,
    names: Vec<NamePlace>,
    prefixes: Vec<PrefixPlace>,
    places: Vec<StoredRow>,
    // the first child, the next sibling and the extent of each row, 0 where unset
    first: Vec<u32>,
    next: Vec<u32>,
    extent: Vec<u32>,
    // how many rows are joined
    joined: u32,
    log: Vec<StoredEntry>,
    verdict: Option<Verdict>,
}

impl Model for Plain {
    ghost use Rattle.plain_columns.specs.Value.{Table};

    ghost Value = { Table };

    ghost use Rattle.plain_columns.specs.Table.{table_of, PlainHolds};

    ghost view = { table_of };

    ghost invariant = { PlainHolds };
}

impl Plain {
    /// An empty table with room for these limits. Takes all memory that the table will need, and fails
    /// only for want of it, as it does for each table whose text words have more than 4,294,967,295 bytes.
    pub fn start(alloc: Global, limits: Limits) -> Result<Plain, AllocError>
        requires rows { 1 ≤ limits.rows }
        requires text { limits.text < 2 ^ 32 }
        ensures { IfOk result (λ table. table ≡ record { limits = limits; cells = empty_cells }) }
    {
        let rows = limits.rows as usize;
        Ok(Plain {
            limits,
            texts: no_texts(alloc, limits)?,
            names: first_names(alloc, limits.names as usize)?,
            prefixes: empty_prefix(alloc, limits.names as usize)?,
            places: root_alone(alloc, rows)?,
            first: unset_words(alloc, rows)?,
            next: unset_words(alloc, rows)?,
            extent: unset_words(alloc, rows)?,
            joined: 1,
            log: Vec::with_capacity(alloc, 2 * rows)?,
            verdict: None,
        })
    }
}

const NO_NAME: NamePlace = NamePlace {
    kind: Kind::Root,
    uri_at: 0,
    uri_len: 0,
    local_at: 0,
    local_len: 0,
};

const TEXT_NAME: NamePlace = NamePlace {
    kind: Kind::Text,
    uri_at: 0,
    uri_len: 0,
    local_at: 0,
    local_len: 0,
};

const COMMENT_NAME: NamePlace = NamePlace {
    kind: Kind::Comment,
    uri_at: 0,
    uri_len: 0,
    local_at: 0,
    local_len: 0,
};

const ROOT: RowPlace = RowPlace {
    kind: Kind::Root,
    type_id: 0,
    prefix_id: 0,
    parent: 0,
    prev: None,
    depth: 0,
    attr_count: 0,
    text_at: 0,
    text_len: 0,
};

// room for all texts, whose places a row keeps in 32 bits
fn no_texts(alloc: Global, limits: Limits) -> Result<Vec<u8>, AllocError>
    requires { limits.text < 2 ^ 32 }
    ensures items { IfOk result (λ texts. texts.items ≡ []) }
    ensures capacity { IfOk result (λ texts. 7 * text_words limits ≤ vec_capacity texts) }
    ensures small { OnOk result (7 * text_words limits < 2 ^ 32) }
{
    let bytes = 7 * limits.text_words();
    if bytes >= 4_294_967_296 {
        return Err(AllocError);
    }
    Vec::with_capacity(alloc, bytes as usize)
}

// the names that stand from the start, and room for so many more
fn first_names(alloc: Global, count: usize) -> Result<Vec<NamePlace>, AllocError>
    requires { count < 2 ^ 32 }
    ensures items { IfOk result (λ names. names.items ≡ no_name ∷ text_name ∷ comment_name ∷ []) }
    ensures capacity { IfOk result (λ names. count + 3 ≤ vec_capacity names) }
{
    let mut names = Vec::with_capacity(alloc, count + 3)?;
    names.push(NO_NAME)?;
    names.push(TEXT_NAME)?;
    names.push(COMMENT_NAME)?;
    Ok(names)
}

// the empty prefix, and room for so many more
fn empty_prefix(alloc: Global, count: usize) -> Result<Vec<PrefixPlace>, AllocError>
    requires { count < 2 ^ 32 }
    ensures items { IfOk result (λ prefixes. prefixes.items ≡ no_prefix ∷ []) }
    ensures capacity { IfOk result (λ prefixes. count + 1 ≤ vec_capacity prefixes) }
{
    let mut prefixes = Vec::with_capacity(alloc, count + 1)?;
    prefixes.push(PrefixPlace { at: 0, len: 0 })?;
    Ok(prefixes)
}

// the root, and room for the other rows
fn root_alone(alloc: Global, rows: usize) -> Result<Vec<StoredRow>, AllocError>
    ensures items { IfOk result (λ places. places.items ≡ root_place ∷ []) }
    ensures capacity { IfOk result (λ places. rows ≤ vec_capacity places) }
{
    let mut places = Vec::with_capacity(alloc, rows)?;
    places.push(StoredRow::of(&ROOT))?;
    Ok(places)
}

// the unset word of the root, and room for the others
fn unset_words(alloc: Global, rows: usize) -> Result<Vec<u32>, AllocError>
    ensures items { IfOk result (λ words. words.items ≡ 0 ∷ []) }
    ensures capacity { IfOk result (λ words. rows ≤ vec_capacity words) }
{
    let mut words = Vec::with_capacity(alloc, rows)?;
    words.push(0)?;
    Ok(words)
}
