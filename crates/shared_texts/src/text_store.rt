ghost use Rattle.std.specs.Prelude.{ℕ, ◌≡◌, ◌↔◌, ◌<◌, ◌++◌, ◌∷◌, [], Some, length, slice_get, IfSome, IfOk, OnOk, OnErr};
ghost use Rattle.std.specs.Option.{option_copied};
ghost use Rattle.shared_texts.specs.Numbers.{Keeps, NoRepeats, IsNew, with_text};

use crate::shared::Shared;
use std::alloc::{AllocError, Global};
use std::collections::BTreeMap;
use std::marker::Model;

/// A text with its number in a store.
#[derive(Clone, Debug, Drop)]
pub struct NumberedText {
    pub number: u32,
    pub text: Shared<u8>,
}

/// Texts, each once, numbered from 0 in the order in which they were added. A look-up compares a number
/// of texts that grows with the logarithm of their count, whatever the texts are.
#[derive(Debug, Drop)]
pub struct TextStore {
    texts: Vec<Shared<u8>>,
    numbers: BTreeMap<Vec<u8>, u32>,
}

impl Model for TextStore {
    ghost use Rattle.std.specs.Prelude.{ℕ, List as Lst};
    ghost use Rattle.shared_texts.specs.Numbers.{Numbers, text_number};

    ghost Value = { Lst (Lst ℕ) };

    ghost view = { λ it. it.texts.items };

    ghost invariant = { λ it. Numbers (text_number it.numbers) it.texts.items };
}

impl TextStore {
    pub fn new(alloc: Global) -> TextStore
        ensures { result ≡ [] }
    {
        TextStore {
            texts: Vec::new(alloc),
            numbers: BTreeMap::new(alloc),
        }
    }

    pub fn len(&self) -> usize
        ensures { result ≡ length self.now }
    {
        self.texts.len()
    }

    /// The number of a text that was added.
    pub fn find(&self, text: &[u8]) -> Option<u32>
        ensures number { (k : ℕ) → (result ≡ Some k) ↔ (slice_get self.now k ≡ Some text.now) }
        ensures within { IfSome result (λ k. k < length self.now) }
    {
        self.numbers.get(text).copied()
    }

    /// The text of a number. Compares nothing.
    pub fn text(&self, number: u32) -> Option<&Shared<u8>>
        ensures { option_copied result ≡ slice_get self.now number }
    {
        self.texts.get(number as usize)
    }

    /// Equal numbers have equal texts, and other numbers other texts.
    pub fn numbers_tell_texts(&self)
        ensures { NoRepeats self.now }
    {
        let _texts = &self.texts;
    }

    /// The number of a text, which is added if it is new, and an owner of it. Fails only for want of memory.
    pub fn number(&mut self, alloc: Global, text: &[u8]) -> Result<u32, AllocError>
        ensures number { IfOk result (λ k. slice_get self.new k ≡ Some text.now) }
        ensures ok { OnOk result (self.new ≡ with_text self.old text.now) }
        ensures keeps { Keeps self.old self.new }
    {
        match self.find(text) {
            Some(number) => Ok(number),
            None => self.add(alloc, text),
        }
    }

    /// The number of a text, which is added if it is new, and one more owner of it. Fails only for want of
    /// memory; a text that was added stays.
    pub fn intern(&mut self, alloc: Global, text: &[u8]) -> Result<NumberedText, AllocError>
        ensures number { IfOk result (λ it. slice_get self.new it.number ≡ Some text.now) }
        ensures text { IfOk result (λ it. it.text ≡ text.now) }
        ensures ok { OnOk result (self.new ≡ with_text self.old text.now) }
        ensures keeps { Keeps self.old self.new }
    {
        let number = self.number(alloc, text)?;
        let Some(text) = self.text(number) else {
            return Err(AllocError);
        };
        let text = text.share()?;
        Ok(NumberedText { number, text })
    }

    /// Adds a text that has no number yet, and returns its number. Fails only for want of memory.
    pub fn add(&mut self, alloc: Global, text: &[u8]) -> Result<u32, AllocError>
        requires { IsNew self.old text.now }
        ensures number { IfOk result (λ k. k ≡ length self.old) }
        ensures ok { OnOk result (self.new ≡ self.old ++ text.now ∷ []) }
        ensures err { OnErr result (self.new ≡ self.old) }
    {
        let Ok(number) = u32::try_from(self.texts.len()) else {
            return Err(AllocError);
        };
        let key = Vec::from_slice(alloc, text)?;
        let copy = Shared::from_slice(alloc, text)?;
        self.texts.reserve(1)?;
        self.numbers.insert(key, number)?;
        self.texts.push_reserved(copy);
        Ok(number)
    }
}
