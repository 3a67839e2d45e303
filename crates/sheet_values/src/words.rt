// The words of a text.
ghost use Rattle.std.specs.Prelude.{◌≡◌, ◌++◌, ◌∷◌, [], ℕ, List as Lst, IfOk, OnOk, filter};
ghost use Rattle.whole_num.specs.Text.{is_space};
ghost use Rattle.xpath_funcs.specs.Spaces.{is_word, words};
ghost use Rattle.sheet_values.specs.Words.{words_from};

use lists::List;
use std::alloc::{AllocError, Global};
use std::mem;

fn is_space(byte: u8) -> bool
    ensures { result ≡ is_space byte }
{
    matches!(byte, b' ' | b'\t' | b'\r' | b'\n')
}

// Moves the word to the others, unless it is empty.
fn end_word(
    alloc: Global,
    words: &mut List<List<u8>>,
    word: &mut List<u8>,
) -> Result<(), AllocError>
    ensures words { OnOk result (words.new ≡ words.old ++ filter is_word (word.old ∷ [])) }
    ensures word { OnOk result (word.new ≡ []) }
{
    if !word.is_empty() {
        let whole = mem::replace(word, List::new(alloc));
        words.push(whole)?;
    }
    Ok(())
}

// Takes one more byte of the text.
fn take_byte(
    alloc: Global,
    words: &mut List<List<u8>>,
    word: &mut List<u8>,
    byte: u8,
) -> Result<(), AllocError>
    ensures { OnOk result ((text : Lst ℕ) → words.new ++ words_from word.new text ≡ words.old ++ words_from word.old (byte ∷ text)) }
{
    if is_space(byte) {
        end_word(alloc, words, word)?;
        return Ok(());
    }
    word.push(byte)?;
    Ok(())
}

/// What stands between the whitespace of a text, where that is something. Linear in the text; fails only for want of
/// memory.
pub fn words(alloc: Global, text: &[u8]) -> Result<List<List<u8>>, AllocError>
    ensures { IfOk result (λ all. all ≡ words text.now) }
{
    let mut words = List::new(alloc);
    let mut word = List::new(alloc);
    for byte in text {
        take_byte(alloc, &mut words, &mut word, *byte)?;
    }
    end_word(alloc, &mut words, &mut word)?;
    Ok(words)
}
