ghost use Rattle.std.specs.Prelude.{ℕ, ◌≡◌, ◌↔◌, ◌<◌, ◌++◌, ◌∷◌, [], Some, length, slice_get, IfSome, IfOk, OnOk, OnErr};
ghost use Rattle.name_pool.specs.Numbers.{Keeps, IsNew};

use lists::List;
use std::alloc::{AllocError, Global};
use std::collections::BTreeMap;
use std::marker::Model;

/// Texts, each once, numbered from 0 in the order in which they were added. A look-up compares a number
/// of texts that grows with the logarithm of their count, whatever the texts are.
#[derive(Drop)]
pub(crate) struct TextNumbers {
    texts: Vec<List<u8>>,
    numbers: BTreeMap<Vec<u8>, u32>,
}

impl Model for TextNumbers {
    ghost use Rattle.std.specs.Prelude.{ℕ, List as Lst};
    ghost use Rattle.name_pool.specs.Numbers.{Numbers, text_number};

    ghost Value = { Lst (Lst ℕ) };

    ghost view = { λ it. it.texts.items };

    ghost invariant = { λ it. Numbers (text_number it.numbers) it.texts.items };
}

impl TextNumbers {
    pub(crate) fn new(alloc: Global) -> TextNumbers
        ensures { result ≡ [] }
    {
        TextNumbers {
            texts: Vec::new(alloc),
            numbers: BTreeMap::new(alloc),
        }
    }

    pub(crate) fn len(&self) -> usize
        ensures { result ≡ length self.now }
    {
        self.texts.len()
    }

    /// The number of a text that was added.
    pub(crate) fn find(&self, text: &[u8]) -> Option<u32>
        ensures number { (k : ℕ) → (result ≡ Some k) ↔ (slice_get self.now k ≡ Some text.now) }
        ensures within { IfSome result (λ k. k < length self.now) }
    {
        self.numbers.get(text).copied()
    }

    /// The number of a text, which is added if it is new. Fails only for want of memory.
    pub(crate) fn number(&mut self, alloc: Global, text: &[u8]) -> Result<u32, AllocError>
        ensures number { IfOk result (λ k. slice_get self.new k ≡ Some text.now) }
        ensures keeps { Keeps self.old self.new }
    {
        match self.find(text) {
            Some(number) => Ok(number),
            None => self.add(alloc, text),
        }
    }

    /// Adds a text that has no number yet, and returns its number. Fails only for want of memory.
    pub(crate) fn add(&mut self, alloc: Global, text: &[u8]) -> Result<u32, AllocError>
        requires { IsNew self.old text.now }
        ensures number { IfOk result (λ k. k ≡ length self.old) }
        ensures ok { OnOk result (self.new ≡ self.old ++ text.now ∷ []) }
        ensures err { OnErr result (self.new ≡ self.old) }
    {
        let Ok(number) = u32::try_from(self.texts.len()) else {
            return Err(AllocError);
        };
        let key = Vec::from_slice(alloc, text)?;
        let copy = List::from_slice(alloc, text)?;
        self.texts.reserve(1)?;
        self.numbers.insert(key, number)?;
        self.texts.push_reserved(copy);
        Ok(number)
    }
}
