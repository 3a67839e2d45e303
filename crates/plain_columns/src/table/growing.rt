ghost use Rattle.std.specs.Prelude.{◌≡◌, ◌+◌, ◌-◌, ◌<◌, ◌≤◌, ◌^◌, ◌++◌, ◌∷◌, [], ⊤, IfSome, length, replicate, vec_len, vec_capacity};
ghost use Rattle.plain_columns.specs.Stored.{JoinsNoRoot};
ghost use Rattle.plain_columns.specs.Link.{HowWithin, first_after, next_after, extent_after};

use crate::entry::{Entry, StoredEntry};
use crate::stored_row::{StoredRow, place_in};
use crate::table::Plain;
use doc_model::{GrowCells, Join, NamePlace, PrefixPlace, Room, RowPlace, Verdict, text_place};

impl GrowCells for Plain {
    ghost Mark = { ⊤ };

    ghost cells = { λ t. t.cells };

    ghost limits = { λ t. t.limits };

    ghost mark = { λ t. tt };

    fn room(&self) -> Room {
        let names = self.names.len() - 3 + (self.prefixes.len() - 1);
        Room {
            rows: self.limits.rows - self.places.len() as u32,
            text: 7 * self.limits.text_words() - text_place(self.texts.len() as u64),
            names: self.limits.names - names as u32,
        }
    }

    fn fill_text(&mut self, at: u64, bytes: &[u8]) {
        fill_gap(&mut self.texts, at);
        push_bytes(&mut self.texts, bytes);
    }

    fn fill_name(&mut self, _id: u32, name: &NamePlace) {
        match self.names.push(*name) {
            Ok(_) => {}
            Err(_) => unreachable!(),
        }
    }

    fn fill_prefix(&mut self, _id: u32, at: u64, len: u32) {
        match self.prefixes.push(PrefixPlace { at, len }) {
            Ok(_) => {}
            Err(_) => unreachable!(),
        }
    }

    fn fill_row(&mut self, _n: u32, row: &RowPlace) {
        push_row(&mut self.places, row);
        push_unset(&mut self.first);
        push_unset(&mut self.next);
        push_unset(&mut self.extent);
    }

    fn join(&mut self, n: u32, how: Join) {
        set_link(&mut self.first, &mut self.next, n, how);
        self.joined = n + 1 + place_in(&self.places, n).attr_count;
        push_entry(&mut self.log, Entry::Join(n));
    }

    fn shut(&mut self, n: u32, extent: u32) {
        self.extent[n as usize] = extent;
        push_entry(&mut self.log, Entry::Shut);
    }

    fn finish(&mut self, verdict: Verdict) {
        set_end(&mut self.extent, self.joined, verdict);
        self.verdict = Some(verdict);
    }
}

// a good end shuts the root, whose subtree is all that is joined
fn set_end(extent: &mut Vec<u32>, joined: u32, verdict: Verdict)
    requires { 0 < vec_len extent.old }
    ensures items { extent.new.items ≡ extent_after verdict joined extent.old.items }
    ensures capacity { vec_capacity extent.old ≤ vec_capacity extent.new }
{
    match verdict {
        Verdict::Good => extent[0] = joined,
        _ => {}
    }
}

// zeros up to the place of the next text
fn fill_gap(texts: &mut Vec<u8>, at: u64)
    requires behind { vec_len texts.old ≤ at }
    requires near { at ≤ vec_len texts.old + 6 }
    requires taken { at ≤ vec_capacity texts.old }
    ensures items { texts.new.items ≡ texts.old.items ++ replicate (at - length texts.old.items) 0 }
    ensures capacity { vec_capacity texts.old ≤ vec_capacity texts.new }
{
    let gap = at as usize - texts.len();
    push_bytes(texts, &[0; 6][..gap]);
}

fn push_bytes(texts: &mut Vec<u8>, bytes: &[u8])
    requires { vec_len texts.old + length bytes.now ≤ vec_capacity texts.old }
    ensures items { texts.new.items ≡ texts.old.items ++ bytes.now }
    ensures capacity { vec_capacity texts.old ≤ vec_capacity texts.new }
{
    match texts.extend_from_slice(bytes) {
        Ok(_) => {}
        Err(_) => unreachable!(),
    }
}

fn push_unset(words: &mut Vec<u32>)
    requires { vec_len words.old < vec_capacity words.old }
    ensures items { words.new.items ≡ words.old.items ++ 0 ∷ [] }
    ensures capacity { vec_capacity words.old ≤ vec_capacity words.new }
{
    match words.push(0) {
        Ok(_) => {}
        Err(_) => unreachable!(),
    }
}

fn push_row(places: &mut Vec<StoredRow>, row: &RowPlace)
    requires taken { vec_len places.old < vec_capacity places.old }
    requires text { row.now.text_at < 2 ^ 32 }
    requires prev { IfSome row.now.prev (λ k. k + 1 < 2 ^ 32) }
    ensures items { places.new.items ≡ places.old.items ++ row.now ∷ [] }
    ensures capacity { vec_capacity places.old ≤ vec_capacity places.new }
{
    match places.push(StoredRow::of(row)) {
        Ok(_) => {}
        Err(_) => unreachable!(),
    }
}

fn push_entry(log: &mut Vec<StoredEntry>, entry: Entry)
    requires taken { vec_len log.old < vec_capacity log.old }
    requires joins { JoinsNoRoot entry }
    ensures items { log.new.items ≡ log.old.items ++ entry ∷ [] }
    ensures capacity { vec_capacity log.old ≤ vec_capacity log.new }
{
    match log.push(StoredEntry::of(entry)) {
        Ok(_) => {}
        Err(_) => unreachable!(),
    }
}

fn set_link(first: &mut Vec<u32>, next: &mut Vec<u32>, n: u32, how: Join)
    requires { HowWithin how (vec_len first.old) (vec_len next.old) }
    ensures first { first.new.items ≡ first_after how n first.old.items }
    ensures next { next.new.items ≡ next_after how n next.old.items }
    ensures first_capacity { vec_capacity first.old ≤ vec_capacity first.new }
    ensures next_capacity { vec_capacity next.old ≤ vec_capacity next.new }
{
    match how {
        Join::FirstOf(parent) => first[parent as usize] = n,
        Join::NextOf(last) => next[last as usize] = n,
    }
}
