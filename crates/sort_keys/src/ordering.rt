ghost use Rattle.std.specs.Prelude.{◌≡◌, ◌≤◌, ◌<◌, ℕ, List, Some, IfOk, length, option_map, slice_get};
ghost use Rattle.std.specs.List.{range_with_len};
ghost use Rattle.std.specs.List.Sorted.{IsPermutation, IsSorted};
ghost use Rattle.std.specs.Ordering.{int_cmp, nat_cmp};
ghost use Rattle.std.specs.Cmp.Lexicographic.{slice_cmp};
ghost use Rattle.std.specs.Option.{option_cmp};
ghost use Rattle.sort_keys.specs.Order as spec;

use crate::key::{How, KeyPart, KeyRow};
use lists::List;
use std::alloc::{AllocError, Global};
use std::cmp::Ordering;
use whole_num::Num;

/// The places of the rows, counted from 0, in the order of their keys: the first key that differs decides, and rows
/// whose keys are all equal keep their order, where an order descends too. Texts go by their UTF-8 bytes; NaN comes
/// before every number. A key that a row lacks, or that is of the other kind, counts as the empty text or as NaN.
/// Takes as many comparisons as a sort of the rows.
pub fn order(alloc: Global, rows: &[KeyRow], how: &[How]) -> Result<List<u32>, AllocError>
    requires { length rows.now ≤ 4294967296 }
    ensures places { IfOk result (λ places. IsPermutation (range_with_len 0 (length rows.now)) places) }
    ensures sorted { IfOk result (λ places. IsSorted (spec.place_cmp how.now rows.now) places) }
{
    let mut places = places_of(alloc, rows.len())?;
    places.sort_unstable_by(|a, b| compare(rows, how, *a, *b));
    Ok(List::from_vec(places))
}

fn places_of(alloc: Global, count: usize) -> Result<Vec<u32>, AllocError>
    requires { count ≤ 4294967296 }
    ensures { IfOk result (λ places. places.items ≡ range_with_len 0 count) }
{
    let mut places = Vec::with_capacity(alloc, count)?;
    for place in 0..count {
        places.push(place as u32)?;
    }
    Ok(places)
}

fn compare(rows: &[KeyRow], how: &[How], a: u32, b: u32) -> Ordering
    ensures { result ≡ spec.place_cmp how.now rows.now a b }
{
    match compare_rows(how, row_at(rows, a), row_at(rows, b)) {
        Ordering::Equal => a.cmp(&b),
        decided => decided,
    }
}

fn row_at(rows: &[KeyRow], place: u32) -> &[KeyPart]
    ensures { result.now ≡ spec.row_at rows.now place }
{
    match rows.get(place as usize) {
        Some(row) => row.as_slice(),
        None => &[],
    }
}

fn compare_rows(how: &[How], row: &[KeyPart], other: &[KeyPart]) -> Ordering
    ensures { result ≡ spec.row_cmp how.now 0 row.now other.now }
{
    for k in 0..how.len() {
        match compare_keys(how_at(how, k), key_at(row, k), key_at(other, k)) {
            Ordering::Equal => {}
            decided => return decided,
        }
    }
    Ordering::Equal
}

fn how_at(how: &[How], k: usize) -> &How
    requires { k < length how.now }
    ensures { slice_get how.now k ≡ Some result.now }
{
    &how[k]
}

fn key_at(row: &[KeyPart], k: usize) -> Option<&KeyPart>
    ensures { option_map (λ key. key.now) result ≡ slice_get row.now k }
{
    row.get(k)
}

fn compare_keys(how: &How, key: Option<&KeyPart>, other: Option<&KeyPart>) -> Ordering
    ensures { result ≡ spec.key_cmp how.now (option_map (λ key. key.now) key.entry) (option_map (λ key. key.now) other.entry) }
{
    if how.descending {
        compare_ascending(how.number, other, key)
    } else {
        compare_ascending(how.number, key, other)
    }
}

fn compare_ascending(number: bool, key: Option<&KeyPart>, other: Option<&KeyPart>) -> Ordering
    ensures { result ≡ spec.ascending number (option_map (λ key. key.now) key.entry) (option_map (λ key. key.now) other.entry) }
{
    if number {
        compare_numbers(number_of(key), number_of(other))
    } else {
        compare_texts(text_of(key), text_of(other))
    }
}

fn compare_numbers(a: Option<i64>, b: Option<i64>) -> Ordering
    ensures { result ≡ option_cmp int_cmp a b }
{
    a.cmp(&b)
}

fn compare_texts(a: &[u8], b: &[u8]) -> Ordering
    ensures { result ≡ slice_cmp nat_cmp a.now b.now }
{
    a.cmp(b)
}

fn number_of(key: Option<&KeyPart>) -> Option<i64>
    ensures { result ≡ spec.number_of (option_map (λ key. key.now) key.entry) }
{
    match key {
        Some(KeyPart::Number(Num::Whole(whole))) => Some(*whole),
        _ => None,
    }
}

fn text_of(key: Option<&KeyPart>) -> &[u8]
    ensures { result.now ≡ spec.text_of (option_map (λ key. key.now) key.entry) }
{
    match key {
        Some(KeyPart::Text(text)) => text.as_slice(),
        _ => &[],
    }
}
