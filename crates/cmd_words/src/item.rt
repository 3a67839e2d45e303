ghost use Rattle.std.specs.Prelude.{◌≡◌, ◌≤◌, ◌<◌, ◌^◌, length, is_some, IfOk};
ghost use Rattle.std.specs.Char.{is_ascii_digit};
ghost use Rattle.std.specs.List.{list_all};
ghost use Rattle.cmd_words.specs.Items as spec;
ghost use Rattle.cmd_words.specs.Items.{number_of, item_of, pieces_of, is_turns, items_of};

use lists::List;
use std::alloc::{AllocError, Global};

/// An item of a list of turns.
#[derive(Clone, Copy, Debug, PartialEq, Eq)]
pub enum Item {
    /// Up to so many lines are fed, 1 to 1,000,000.
    Lines(u32),
    /// One turn of this reader. Readers are counted from 0, in the order of the pairs.
    Reader(u32),
}

fn are_digits(bytes: &[u8]) -> bool
    ensures { result ≡ list_all is_ascii_digit bytes.now }
{
    bytes.iter().all(|byte| byte.is_ascii_digit())
}

// Whether the text is one to `most` digits.
fn is_number(text: &str, most: usize) -> bool
    ensures { result ≡ spec.is_number most text.now }
{
    !text.is_empty() && text.len() <= most && are_digits(text.as_bytes())
}

// The number that one to `most` digits write, or None for any other text.
fn number(text: &str, most: usize) -> Option<u32>
    requires { most ≤ 9 }
    ensures { result ≡ number_of most text.now }
{
    if is_number(text, most) {
        text.parse().ok()
    } else {
        None
    }
}

fn lines(number: u32) -> Option<Item>
    ensures { result ≡ spec.lines_of_number number }
{
    if 1 <= number && number <= 1_000_000 {
        Some(Item::Lines(number))
    } else {
        None
    }
}

fn reader(readers: usize, number: u32) -> Option<Item>
    ensures { result ≡ spec.reader_of_number readers number }
{
    if (number as usize) < readers {
        Some(Item::Reader(number))
    } else {
        None
    }
}

// The item that a piece of LIST spells, or None where it spells none.
fn read_item(readers: usize, piece: &str) -> Option<Item>
    ensures { result ≡ item_of readers piece.now }
{
    if let Some(digits) = piece.strip_prefix('b') {
        lines(number(digits, 7)?)
    } else {
        let digits = piece.strip_prefix('r')?;
        reader(readers, number(digits, 2)?)
    }
}

fn piece_count(list: &str) -> usize
    ensures { result ≡ length (pieces_of list.now) }
{
    list.split(',').count()
}

fn are_items(readers: usize, list: &str) -> bool
    ensures { result ≡ list_all (λ piece. is_some (item_of readers piece)) (pieces_of list.now) }
{
    list.split(',')
        .all(|piece| read_item(readers, piece).is_some())
}

// Whether LIST is 1 to 1,000 items.
pub(crate) fn is_list_of_turns(readers: usize, list: &str) -> bool
    ensures { result ≡ is_turns readers list.now }
{
    piece_count(list) <= 1000 && are_items(readers, list)
}

// The items of LIST.
pub(crate) fn items(alloc: Global, readers: usize, list: &str) -> Result<List<Item>, AllocError>
    ensures { IfOk result (λ items. items ≡ items_of readers list.now) }
{
    let items = list
        .split(',')
        .filter_map(|piece| read_item(readers, piece))
        .collect(alloc)?;
    Ok(List::from_vec(items))
}

// One line, and then each reader in order.
pub(crate) fn line_and_readers(alloc: Global, readers: usize) -> Result<List<Item>, AllocError>
    requires { readers < 2 ^ 32 }
    ensures { IfOk result (λ items. items ≡ spec.line_and_readers readers) }
{
    let mut items = List::new(alloc);
    items.push(Item::Lines(1))?;
    for reader in 0..readers as u32 {
        items.push(Item::Reader(reader))?;
    }
    Ok(items)
}
