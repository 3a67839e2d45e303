use lists::List;
use std::alloc::{AllocError, Global};
use whole_num::{Memory, Num};
use xpath_funcs::{
    contains, normalize_space, string_length, substring, substring_after, substring_before,
    translate,
};

// The size of what a string function answers to texts that are made to be dear for it.
pub fn answer_size(alloc: Global, kind: &str, size: u32) -> Result<usize, Memory> {
    let letters = repeated(alloc, b"a", size)?;
    match kind {
        "contains" => {
            let sought = almost_half(alloc, size)?;
            Ok(usize::from(contains(letters.as_slice(), sought.as_slice())))
        }
        "before" => {
            let sought = almost_half(alloc, size)?;
            Ok(substring_before(alloc, letters.as_slice(), sought.as_slice())?.len())
        }
        "after" => Ok(substring_after(alloc, letters.as_slice(), b"a")?.len()),
        "length" => Ok(string_length(letters.as_slice()) as usize),
        "normalize" => Ok(normalize_space(alloc, repeated(alloc, b"a  ", size)?.as_slice())?.len()),
        "substring" => Ok(substring(alloc, letters.as_slice(), Num::Whole(2), None)?.len()),
        "translate" => {
            let from = characters(alloc, size)?;
            Ok(translate(alloc, from.as_slice(), from.as_slice(), letters.as_slice())?.len())
        }
        _ => Ok(0),
    }
}

fn repeated(alloc: Global, bytes: &[u8], times: u32) -> Result<List<u8>, AllocError> {
    let mut text = List::new(alloc);
    for _ in 0..times {
        text.extend_from_slice(bytes)?;
    }
    Ok(text)
}

// Half as many letters with another one behind them, which a search of them all doesn't find.
fn almost_half(alloc: Global, size: u32) -> Result<List<u8>, AllocError> {
    let mut text = repeated(alloc, b"a", size / 2)?;
    text.push(b'b')?;
    Ok(text)
}

// So many characters of two bytes, 1,024 different ones and then these again.
fn characters(alloc: Global, size: u32) -> Result<List<u8>, AllocError> {
    let mut text = List::new(alloc);
    for k in 0..size {
        text.push(0xc4 + (k / 64 % 16) as u8)?;
        text.push(0x80 + (k % 64) as u8)?;
    }
    Ok(text)
}
