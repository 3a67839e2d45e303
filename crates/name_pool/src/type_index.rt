ghost use Rattle.std.specs.Prelude.{◌≡◌, ◌↔◌, ◌⊎◌, ℕ, List, Some, OnOk};
ghost use Rattle.doc_model.specs.declared.row.Kind.{Kind};
ghost use Rattle.name_pool.specs.Known.{Knows};

use crate::text_numbers::TextNumbers;
use crate::type_numbers::TypeKey;
use doc_model::Kind;
use std::alloc::{AllocError, Global};
use std::collections::BTreeMap;
use std::marker::Model;

/// Type numbers of names by the numbers that their URIs have elsewhere, as in the scopes of a source. It
/// stands beside a pool: a name that it knows is found without reading a byte of its URI.
///
/// Local names and then the keys are looked up in ordered maps, so that no choice of names makes a call
/// slow: it takes time linear in the local name, times the logarithm of the names that are known.
#[derive(Drop)]
pub struct TypeIndex {
    locals: TextNumbers,
    types: BTreeMap<TypeKey, u32>,
}

impl Model for TypeIndex {
    ghost use Rattle.name_pool.specs.Known.{Index, index_of, IndexHolds};

    ghost Value = { Index };

    ghost view = { index_of };

    ghost invariant = { IndexHolds };
}

impl TypeIndex {
    /// An index that knows no name.
    pub fn new(alloc: Global) -> TypeIndex
        ensures { (k : Kind) (u : ℕ) (text : List ℕ) (n : ℕ) → Knows result k u text n → ⊥ }
    {
        TypeIndex {
            locals: TextNumbers::new(alloc),
            types: BTreeMap::new(alloc),
        }
    }

    /// The type number that was kept of a name last. Takes no memory.
    pub fn find(&self, kind: Kind, uri: u32, local: &[u8]) -> Option<u32>
        ensures { (n : ℕ) → (result ≡ Some n) ↔ Knows self.now kind uri local.now n }
    {
        let local = self.locals.find(local)?;
        let key = TypeKey {
            kind: kind.number(),
            uri,
            local,
        };
        self.types.get(&key).copied()
    }

    /// Keeps the type number of a name, in place of the one that it had; other names keep theirs, after a
    /// failure this one too. Fails only for want of memory.
    pub fn keep(
        &mut self,
        alloc: Global,
        kind: Kind,
        uri: u32,
        local: &[u8],
        number: u32,
    ) -> Result<(), AllocError>
        ensures kept { OnOk result (Knows self.new kind uri local.now number) }
        ensures only { (k : Kind) (u : ℕ) (text : List ℕ) (n : ℕ) → Knows self.new k u text n → Knows self.old k u text n ⊎ ((k ≡ kind) × (u ≡ uri) × (text ≡ local.now) × (n ≡ number)) }
        ensures others { (k : Kind) (u : ℕ) (text : List ℕ) (n : ℕ) → Knows self.old k u text n → Knows self.new k u text n ⊎ ((k ≡ kind) × (u ≡ uri) × (text ≡ local.now)) }
    {
        let local = self.locals.number(alloc, local)?;
        let key = TypeKey {
            kind: kind.number(),
            uri,
            local,
        };
        self.types.insert(key, number)?;
        Ok(())
    }
}
