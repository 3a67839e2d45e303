ghost use Rattle.std.specs.Prelude.{ℕ, ◌≡◌, ◌↔◌, ◌^◌, ◌<◌, ◌++◌, ◌∷◌, [], length, Some, slice_get, IfSome, IfOk, OnOk, OnErr};
ghost use Rattle.name_pool.specs.Numbers.{IsNew};

use std::alloc::{AllocError, Global};
use std::collections::BTreeMap;
use std::marker::Model;

/// An expanded name by the numbers of its kind and texts.
#[derive(Clone, Copy, PartialEq, Eq, PartialOrd, Ord)]
pub(crate) struct TypeKey {
    pub(crate) kind: u8,
    pub(crate) uri: u32,
    pub(crate) local: u32,
}

/// Keys, each once, numbered from 0 in the order in which they were added. A look-up takes time
/// logarithmic in their count.
#[derive(Drop)]
pub(crate) struct TypeNumbers {
    keys: Vec<TypeKey>,
    numbers: BTreeMap<TypeKey, u32>,
}

impl Model for TypeNumbers {
    ghost use Rattle.std.specs.Prelude.{List as Lst};
    ghost use Rattle.name_pool.specs.declared.type_numbers.TypeKey.{TypeKey};
    ghost use Rattle.name_pool.specs.Numbers.{Numbers};
    ghost use Rattle.name_pool.specs.Keys.{key_number};

    ghost Value = { Lst TypeKey };

    ghost view = { λ it. it.keys.items };

    ghost invariant = { λ it. Numbers (key_number it.numbers) it.keys.items };
}

impl TypeNumbers {
    pub(crate) fn new(alloc: Global) -> TypeNumbers
        ensures { result ≡ [] }
    {
        TypeNumbers {
            keys: Vec::new(alloc),
            numbers: BTreeMap::new(alloc),
        }
    }

    pub(crate) fn len(&self) -> usize
        ensures { result ≡ length self.now }
    {
        self.keys.len()
    }

    pub(crate) fn find(&self, key: &TypeKey) -> Option<u32>
        ensures number { (k : ℕ) → (result ≡ Some k) ↔ (slice_get self.now k ≡ Some key.now) }
        ensures within { IfSome result (λ k. k < length self.now) }
    {
        self.numbers.get(key).copied()
    }

    /// Adds a key that has no number yet, and returns its number. Fails only for want of memory.
    pub(crate) fn add(&mut self, key: TypeKey) -> Result<u32, AllocError>
        requires new { IsNew self.old key }
        requires room { length self.old < 2 ^ 32 }
        ensures number { IfOk result (λ k. k ≡ length self.old) }
        ensures ok { OnOk result (self.new ≡ self.old ++ key ∷ []) }
        ensures err { OnErr result (self.new ≡ self.old) }
    {
        let number = self.keys.len() as u32;
        self.keys.reserve(1)?;
        self.numbers.insert(key, number)?;
        self.keys.push_reserved(key);
        Ok(number)
    }
}
