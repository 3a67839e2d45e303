ghost use Rattle.std.specs.Prelude.{◌≡◌, map, string_bytes, is_some, IfOk};
ghost use Rattle.std.specs.List.{after_first, count_by, list_all};
ghost use Rattle.std.specs.Option.{option_map};
ghost use Rattle.std.specs.Str.{bytes_eq};
ghost use Rattle.cmd_words.specs.Pairs as spec;
ghost use Rattle.cmd_words.specs.Pairs.{is_equals, pair_of, pairs_of, outs_of, each_stands_once};

use crate::name::Name;
use lists::List;
use std::alloc::{AllocError, Global};

/// A sheet, and the name under which its output is put.
#[derive(Clone, Debug, Drop)]
pub struct Pair {
    /// `builtin`: the built-in template rules alone (XSLT 1.0, section 5.8).
    pub sheet: Name,
    /// Never empty. It may have `=` in it.
    pub out: Name,
}

// The two parts of a word `SHEET=OUT`, or None where the word is no pair.
fn parts(word: &str) -> Option<(&str, &str)>
    ensures pair { option_map (λ parts. record { sheet = parts.0.now; out = parts.1.now }) result ≡ pair_of word.now }
    ensures some { is_some result ≡ is_some (pair_of word.now) }
{
    let (sheet, out) = word.split_once('=')?;
    if sheet == "builtin" && !out.is_empty() {
        Some((sheet, out))
    } else {
        None
    }
}

// What stands after the first `=`.
fn out_of(word: &str) -> &str
    ensures { result.now ≡ after_first is_equals word.now }
{
    match word.split_once('=') {
        Some((_, out)) => out,
        None => "",
    }
}

// How many of the words have this OUT.
fn count_of(words: &[String], out: &str) -> usize
    ensures { result ≡ count_by (bytes_eq out.now) (outs_of (map string_bytes words.now)) }
{
    words
        .iter()
        .filter(|word| out == out_of(word.as_str()))
        .count()
}

fn outs_differ(words: &[String]) -> bool
    ensures { result ≡ each_stands_once (outs_of (map string_bytes words.now)) }
{
    words
        .iter()
        .all(|word| count_of(words, out_of(word.as_str())) == 1)
}

fn each_is_a_pair(words: &[String]) -> bool
    ensures { result ≡ list_all (λ word. is_some (pair_of word)) (map string_bytes words.now) }
{
    words.iter().all(|word| parts(word.as_str()).is_some())
}

// Whether the words are 1 to 16 pairs with different names OUT. Compares each two names.
pub(crate) fn are_pairs(words: &[String]) -> bool
    ensures { result ≡ spec.are_pairs (map string_bytes words.now) }
{
    1 <= words.len() && words.len() <= 16 && each_is_a_pair(words) && outs_differ(words)
}

// The pair that a word is, or None where it is none.
fn read_pair(alloc: Global, word: &str) -> Result<Option<Pair>, AllocError>
    ensures { IfOk result (λ pair. pair ≡ pair_of word.now) }
{
    let Some((sheet, out)) = parts(word) else {
        return Ok(None);
    };
    let sheet = Name::from_str(alloc, sheet)?;
    let out = Name::from_str(alloc, out)?;
    Ok(Some(Pair { sheet, out }))
}

// The pairs that the words are.
pub(crate) fn pairs(alloc: Global, words: &[String]) -> Result<List<Pair>, AllocError>
    ensures { IfOk result (λ pairs. pairs ≡ pairs_of (map string_bytes words.now)) }
{
    let mut pairs = List::new(alloc);
    for word in words {
        if let Some(pair) = read_pair(alloc, word.as_str())? {
            pairs.push(pair)?;
        }
    }
    Ok(pairs)
}
