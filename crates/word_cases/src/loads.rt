ghost use Rattle.std.specs.Prelude.{◌≡◌, ◌≤◌};

use crate::words::Words;

/// How many words a loop reads over and over.
pub const WORDS: usize = 2048;

const STEPS: u32 = 200_000_000;

/// Follows links: each word says which is read next. Gives the last one's number.
pub fn follow<W: Words>(words: &mut W) -> u64
    requires { 2048 ≤ W.count words.old }
{
    let mut at = 0u64;
    for _ in 0..STEPS {
        at = words.word((at & 2047) as usize);
    }
    at & 2047
}

/// Adds up words, one after another.
pub fn sum<W: Words>(words: &mut W) -> u64
    requires { 2048 ≤ W.count words.old }
{
    let mut total = 0u64;
    for step in 0..STEPS {
        total = total.wrapping_add(words.word((step & 2047) as usize));
    }
    total
}
