ghost use Rattle.std.specs.Prelude.{◌≡◌, ◌+◌, ◌≤◌, [], slice_index, vec_len};
ghost use Rattle.doc_model.specs.Cells.{slice_of};
ghost use Rattle.doc_model.specs.Document.{is_parent};
ghost use Rattle.doc_model.specs.Lawful.{IsJoined};
ghost use Rattle.doc_model.specs.Relations.{parent_of, attr_count_of};
ghost use Rattle.doc_model.specs.Rows.{rows_of, row_at};
ghost use Rattle.doc_model.specs.Shown.{prev_shown};
ghost use Rattle.doc_model.specs.View.{Moves, FirstIs, NextIs, ExtentIs, EndedIs};
ghost use Rattle.plain_columns.specs.Look.{look_of};
ghost use Rattle.plain_columns.specs.Seen.{seen_of, types_of};

use crate::stored_row::place_in;
use crate::table::Plain;
use doc_model::{Kind, Look, Verdict};

/// What the table answers while it stands still.
impl Plain {
    /// What holds of the steps at any time.
    pub(crate) fn told(&self)
        ensures { Moves (seen_of self.now.cells) (seen_of self.now.cells) }
    {
        let _ = &self.limits;
    }

    pub(crate) fn kind_of(&self, n: u32) -> Kind
        requires { IsJoined self.now.cells.steps n }
        ensures { result ≡ (row_at (rows_of self.now.cells.steps) n).kind }
    {
        place_in(&self.places, n).kind
    }

    pub(crate) fn type_of(&self, n: u32) -> u32
        requires { IsJoined self.now.cells.steps n }
        ensures { result ≡ slice_index (types_of self.now.cells) n }
    {
        place_in(&self.places, n).type_id
    }

    pub(crate) fn parent_of(&self, n: u32) -> Option<u32>
        requires { IsJoined self.now.cells.steps n }
        ensures { result ≡ parent_of (rows_of self.now.cells.steps) n }
    {
        let place = place_in(&self.places, n);
        if n == 0 { None } else { Some(place.parent) }
    }

    pub(crate) fn prev_of(&self, n: u32) -> Option<u32>
        requires { IsJoined self.now.cells.steps n }
        ensures { result ≡ prev_shown [] (rows_of self.now.cells.steps) n }
    {
        place_in(&self.places, n).prev
    }

    pub(crate) fn attr_count_of(&self, n: u32) -> u32
        requires { IsJoined self.now.cells.steps n }
        ensures { result ≡ attr_count_of (rows_of self.now.cells.steps) n }
    {
        place_in(&self.places, n).attr_count
    }

    pub(crate) fn first_of(&self, n: u32) -> Look
        requires { IsJoined self.now.cells.steps n }
        ensures { FirstIs (seen_of self.now.cells) (seen_of self.now.cells) n result }
    {
        let place = place_in(&self.places, n);
        link(self.first[n as usize], place.kind, self.extent[n as usize])
    }

    pub(crate) fn next_of(&self, n: u32) -> Look
        requires { IsJoined self.now.cells.steps n }
        ensures { NextIs (seen_of self.now.cells) (seen_of self.now.cells) n result }
    {
        let place = place_in(&self.places, n);
        if n == 0 {
            return Look::Nothing;
        }
        match place.kind {
            Kind::Attribute => return Look::Nothing,
            _ => {}
        }
        link(
            self.next[n as usize],
            Kind::Element,
            self.extent[place.parent as usize],
        )
    }

    pub(crate) fn extent_of(&self, n: u32) -> Option<u32>
        requires { IsJoined self.now.cells.steps n }
        ensures { ExtentIs self.now.cells.steps self.now.cells.steps n result }
    {
        match place_in(&self.places, n).kind {
            Kind::Root | Kind::Element => {}
            _ => return Some(n + 1),
        }
        match self.extent[n as usize] {
            0 => None,
            end => Some(end),
        }
    }

    pub(crate) fn ended_of(&self) -> Option<Verdict>
        ensures { EndedIs self.now.cells.steps self.now.cells.steps result }
    {
        self.verdict
    }

    pub(crate) fn value_of(&self, n: u32) -> &[u8]
        requires { IsJoined self.now.cells.steps n }
        ensures { result.now ≡ (row_at (rows_of self.now.cells.steps) n).value }
    {
        let place = place_in(&self.places, n);
        bytes_at(&self.texts, place.text_at, place.text_len)
    }

    pub(crate) fn prefix_of(&self, n: u32) -> &[u8]
        requires { IsJoined self.now.cells.steps n }
        ensures { result.now ≡ (row_at (rows_of self.now.cells.steps) n).prefix }
    {
        let place = place_in(&self.places, n);
        let prefix = self.prefixes[place.prefix_id as usize];
        bytes_at(&self.texts, prefix.at, prefix.len)
    }

    pub(crate) fn uri_of(&self, n: u32) -> &[u8]
        requires { IsJoined self.now.cells.steps n }
        ensures { result.now ≡ (row_at (rows_of self.now.cells.steps) n).uri }
    {
        let place = place_in(&self.places, n);
        let name = self.names[place.type_id as usize];
        bytes_at(&self.texts, name.uri_at, name.uri_len)
    }

    pub(crate) fn local_of(&self, n: u32) -> &[u8]
        requires { IsJoined self.now.cells.steps n }
        ensures { result.now ≡ (row_at (rows_of self.now.cells.steps) n).local }
    {
        let place = place_in(&self.places, n);
        let name = self.names[place.type_id as usize];
        bytes_at(&self.texts, name.local_at, name.local_len)
    }
}

// the bytes of a place
fn bytes_at(texts: &Vec<u8>, at: u64, len: u32) -> &[u8]
    requires { at + len ≤ vec_len texts.now }
    ensures { result.now ≡ slice_of texts.now.items at len }
{
    let from = at as usize;
    &texts[from..from + len as usize]
}

// what a link word says, beside the extent word of the row that decides it, whose kind this is
fn link(word: u32, kind: Kind, extent: u32) -> Look
    ensures { result ≡ look_of word (is_parent kind) extent }
{
    if word != 0 {
        return Look::Node(word);
    }
    match kind {
        Kind::Root | Kind::Element => {}
        _ => return Look::Nothing,
    }
    if extent != 0 {
        Look::Nothing
    } else {
        Look::NotYet
    }
}
