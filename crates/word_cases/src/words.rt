ghost use Rattle.std.specs.Prelude.{ℕ, ◌≡◌, ◌<◌, ◌≤◌, [], IfOk, vec_len};

use crate::free::Free;
use crate::loads::WORDS;
use link_cells::{Cells, Pass, Writer};
use std::alloc::{AllocError, Global};

/// Words that are read one by one.
pub trait Words {
    // how many there are
    ghost count: { Self → ℕ };

    fn word(&mut self, at: usize) -> u64
        requires { at < count self.old }
        ensures { count self.new ≡ count self.old };
}

/// Words of a vector.
#[derive(Drop)]
pub struct InVector {
    words: Vec<u64>,
}

impl Words for InVector {
    ghost count = { λ it. vec_len it.words };

    fn word(&mut self, at: usize) -> u64 {
        self.words[at]
    }
}

impl InVector {
    /// Each word leads to another, and all of them in a circle.
    pub fn in_a_circle(alloc: Global) -> Result<InVector, AllocError>
        ensures { IfOk result (λ it. vec_len it.words ≡ 2048) }
    {
        let mut words = Vec::with_capacity(alloc, WORDS)?;
        for at in 0..WORDS {
            words.push(next(at))?;
        }
        Ok(InVector { words })
    }
}

/// Set-once words, by a pass.
#[derive(Drop)]
pub struct InCells<'a> {
    pass: &'a mut Pass<Free>,
    cells: &'a Cells<Free>,
    ghost made: { pass.now.mark ≡ cells.now },
}

impl Words for InCells<'_> {
    ghost count = { λ it. it.cells.now.table.words };

    fn word(&mut self, at: usize) -> u64 {
        self.pass.get(self.cells, at)
    }
}

/// The words of these cells.
pub fn read<'a>(pass: &'a mut Pass<Free>, cells: &'a Cells<Free>) -> InCells<'a>
    requires { pass.old.mark ≡ cells.now }
    ensures { result.cells.now ≡ cells.now }
{
    InCells { pass, cells }
}

/// Sets the words as those of `InVector::in_a_circle`.
pub fn set_in_a_circle(cells: &Cells<Free>, writer: &mut Writer<Free>)
    requires mark { writer.old.mark ≡ cells.now }
    requires words { 2048 ≤ cells.now.table.words }
    requires none { writer.old.log ≡ [] }
    ensures mark { writer.new.mark ≡ writer.old.mark }
{
    for at in 0..WORDS {
        writer.set(cells, at, next(at));
    }
}

// the word that comes after this one, as a value other than 0: a prime number of words further on
fn next(at: usize) -> u64
    requires { at < 2048 }
    ensures { 0 < result }
{
    ((at as u64 + 1031) & 2047) + 2048
}
