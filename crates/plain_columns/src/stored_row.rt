ghost use Rattle.std.specs.Prelude.{◌≡◌, ◌+◌, ◌<◌, ◌^◌, IfSome, slice_index_or, vec_len};
ghost use Rattle.doc_model.specs.Cells.{root_place};
ghost use Rattle.plain_columns.specs.Stored.{prev_of};

use doc_model::{Kind, RowPlace};
use std::marker::Model;

/// A row by the places of its parts, in 36 bytes.
#[derive(Debug, Drop)]
pub(crate) struct StoredRow {
    kind: Kind,
    type_id: u32,
    prefix_id: u32,
    parent: u32,
    // the sibling before it plus 1, or 0 where there is none
    prev: u32,
    depth: u32,
    attr_count: u32,
    text_at: u32,
    text_len: u32,
}

impl Model for StoredRow {
    ghost use Rattle.doc_model.specs.declared.places.RowPlace.{RowPlace};
    ghost use Rattle.plain_columns.specs.Stored.{place_of};

    ghost Value = { RowPlace };

    ghost view = { place_of };
}

impl StoredRow {
    pub(crate) fn of(place: &RowPlace) -> StoredRow
        requires text { place.now.text_at < 2 ^ 32 }
        requires prev { IfSome place.now.prev (λ k. k + 1 < 2 ^ 32) }
        ensures { result ≡ place.now }
    {
        StoredRow {
            kind: place.kind,
            type_id: place.type_id,
            prefix_id: place.prefix_id,
            parent: place.parent,
            prev: stored_prev(place.prev),
            depth: place.depth,
            attr_count: place.attr_count,
            text_at: place.text_at as u32,
            text_len: place.text_len,
        }
    }

    pub(crate) fn place(&self) -> RowPlace
        ensures { result ≡ self.now }
    {
        RowPlace {
            kind: self.kind,
            type_id: self.type_id,
            prefix_id: self.prefix_id,
            parent: self.parent,
            prev: prev_of(self.prev),
            depth: self.depth,
            attr_count: self.attr_count,
            text_at: self.text_at as u64,
            text_len: self.text_len,
        }
    }
}

// the place of a row that is filled
pub(crate) fn place_in(places: &Vec<StoredRow>, n: u32) -> RowPlace
    requires { n < vec_len places.now }
    ensures { result ≡ slice_index_or places.now.items n root_place }
{
    places[n as usize].place()
}

fn stored_prev(prev: Option<u32>) -> u32
    requires { IfSome prev (λ k. k + 1 < 2 ^ 32) }
    ensures { prev_of result ≡ prev }
{
    match prev {
        Some(k) => k + 1,
        None => 0,
    }
}

fn prev_of(word: u32) -> Option<u32>
    ensures { result ≡ prev_of word }
{
    if word == 0 { None } else { Some(word - 1) }
}
