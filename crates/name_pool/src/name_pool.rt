ghost use Rattle.std.specs.Prelude.{ℕ, ◌≡◌, ◌↔◌, ◌+◌, ◌<◌, ◌≤◌, ◌∷◌, [], Err, Some, List, length, IsTrue, IfNone, IfOk, OnOk, OnErr};
ghost use Rattle.name_pool.specs.Names.{Name, Pool, added, IsTypeNumber, IsPrefixNumber, NumbersName, NumbersPrefix, with_name, with_prefix};
ghost use Rattle.name_pool.specs.Numbers.{IsNew, Keeps};
ghost use Rattle.name_pool.specs.Holds.{IsKey};
ghost use Rattle.name_pool.specs.declared.type_numbers.TypeKey.{TypeKey};
ghost use Rattle.name_pool.specs.declared.pool_error.PoolError.TheVariants.{Full};

use crate::pool_error::{Memory, PoolError};
use crate::text_numbers::TextNumbers;
use crate::type_numbers::{TypeKey, TypeNumbers};
use doc_model::Kind;
use std::alloc::{AllocError, Global};
use std::marker::Model;

/// The number of the first name that is added: 0 is the root's, 1 that of texts, 2 that of comments.
const FIRST_TYPE: u32 = 3;

/// Numbers of expanded names (XML Namespaces, section 2.1) and of prefixes, in the order of their first
/// sight. Names are numbered from 3, each with its kind; prefixes from 1, where 0 is the empty one.
///
/// A name that is there is found without memory. Its two texts and then their numbers are looked up in
/// ordered maps, so that no choice of names makes a call slow: it takes time linear in the name, times the
/// logarithm of the names that are there.
#[derive(Drop)]
pub struct NamePool {
    // the URIs and local names
    texts: TextNumbers,
    types: TypeNumbers,
    prefixes: TextNumbers,
    limit: u32,
}

impl Model for NamePool {
    ghost use Rattle.name_pool.specs.Names.{Pool};
    ghost use Rattle.name_pool.specs.Holds.{pool_of, PoolHolds};

    ghost Value = { Pool };

    ghost view = { pool_of };

    ghost invariant = { PoolHolds };
}

impl NamePool {
    /// A pool without names, in which `limit` types and prefixes together can be numbered.
    pub fn start(alloc: Global, limit: u32) -> Result<NamePool, Memory>
        requires { limit ≤ 65536 }
        ensures { IfOk result (λ pool. pool ≡ record { names = []; prefixes = []; limit = limit }) }
    {
        Ok(NamePool {
            texts: TextNumbers::new(alloc),
            types: TypeNumbers::new(alloc),
            prefixes: TextNumbers::new(alloc),
            limit,
        })
    }

    /// The number of a name that was interned. Takes no memory.
    pub fn find(&self, kind: Kind, uri: &[u8], local: &[u8]) -> Option<u32>
        ensures number { (n : ℕ) → (result ≡ Some n) ↔ IsTypeNumber self.now n (record { kind = kind; uri = uri.now; local = local.now }) }
        ensures new { IfNone result (IsNew self.now.names (record { kind = kind; uri = uri.now; local = local.now })) }
    {
        let key = find_key(&self.texts, kind, uri, local)?;
        let at = self.types.find(&key)?;
        Some(at + FIRST_TYPE)
    }

    /// The number of a name, which takes the next one if it is new. `Full` comes exactly where it is new
    /// and as many types and prefixes were added as the limit allows. A refusal leaves the pool as it was.
    pub fn intern(
        &mut self,
        alloc: Global,
        kind: Kind,
        uri: &[u8],
        local: &[u8],
    ) -> Result<u32, PoolError>
        ensures ok { IfOk result (λ n. NumbersName self.old self.new (record { kind = kind; uri = uri.now; local = local.now }) n) }
        ensures full { (result ≡ Err Full) ↔ (IsNew self.old.names (record { kind = kind; uri = uri.now; local = local.now }) × (added self.old ≡ self.old.limit)) }
        ensures new { OnErr result (IsNew self.old.names (record { kind = kind; uri = uri.now; local = local.now })) }
        ensures err { OnErr result (self.new ≡ self.old) }
    {
        if let Some(number) = self.find(kind, uri, local) {
            return Ok(number);
        }
        if !self.has_room() {
            return Err(PoolError::Full);
        }
        match self.add(alloc, kind, uri, local) {
            Ok(number) => Ok(number),
            Err(_) => Err(PoolError::Memory),
        }
    }

    /// The number of a prefix, which takes the next one if it is new; the empty one has 0. `Full` comes
    /// exactly where it is new and as many types and prefixes were added as the limit allows. A refusal
    /// leaves the pool as it was.
    pub fn prefix(&mut self, alloc: Global, text: &[u8]) -> Result<u32, PoolError>
        ensures ok { IfOk result (λ n. NumbersPrefix self.old self.new text.now n) }
        ensures full { (result ≡ Err Full) ↔ (IsNew ([] ∷ self.old.prefixes) text.now × (added self.old ≡ self.old.limit)) }
        ensures new { OnErr result (IsNew ([] ∷ self.old.prefixes) text.now) }
        ensures err { OnErr result (self.new ≡ self.old) }
    {
        if let Some(number) = self.prefix_number(text) {
            return Ok(number);
        }
        if !self.has_room() {
            return Err(PoolError::Full);
        }
        match self.add_prefix(alloc, text) {
            Ok(number) => Ok(number),
            Err(_) => Err(PoolError::Memory),
        }
    }

    /// Kind, URI and local name are equal exactly where type numbers are equal.
    pub fn numbers_tell_names(&self)
        ensures { (m n : ℕ) (a b : Name) → IsTypeNumber self.now m a → IsTypeNumber self.now n b → (m ≡ n) ↔ (a ≡ b) }
    {
        let _names = &self.types;
    }

    /// Prefixes are equal exactly where their numbers are equal.
    pub fn numbers_tell_prefixes(&self)
        ensures { (m n : ℕ) (a b : List ℕ) → IsPrefixNumber self.now m a → IsPrefixNumber self.now n b → (m ≡ n) ↔ (a ≡ b) }
    {
        let _prefixes = &self.prefixes;
    }

    fn has_room(&self) -> bool
        ensures room { IsTrue result ↔ (added self.now < self.now.limit) }
        ensures within { added self.now ≤ self.now.limit }
    {
        self.types.len() + self.prefixes.len() < self.limit as usize
    }

    // A text that was added for a name that then had no memory serves the names that come later.
    fn add(
        &mut self,
        alloc: Global,
        kind: Kind,
        uri: &[u8],
        local: &[u8],
    ) -> Result<u32, AllocError>
        requires new { IsNew self.old.names (record { kind = kind; uri = uri.now; local = local.now }) }
        requires room { added self.old < self.old.limit }
        ensures number { IfOk result (λ n. n ≡ length self.old.names + 3) }
        ensures ok { OnOk result (self.new ≡ with_name self.old (record { kind = kind; uri = uri.now; local = local.now })) }
        ensures err { OnErr result (self.new ≡ self.old) }
    {
        let key = add_key(&mut self.texts, alloc, kind, uri, local)?;
        let at = self.types.add(key)?;
        Ok(at + FIRST_TYPE)
    }

    /// The number of a prefix that was added; the empty one has 0. Takes no memory.
    pub fn prefix_number(&self, text: &[u8]) -> Option<u32>
        ensures number { (n : ℕ) → (result ≡ Some n) ↔ IsPrefixNumber self.now n text.now }
        ensures new { IfNone result (IsNew ([] ∷ self.now.prefixes) text.now) }
    {
        let prefixes = &self.prefixes;
        if text.is_empty() {
            return Some(0);
        }
        let at = prefixes.find(text)?;
        Some(at + 1)
    }

    fn add_prefix(&mut self, alloc: Global, text: &[u8]) -> Result<u32, AllocError>
        requires new { IsNew ([] ∷ self.old.prefixes) text.now }
        requires room { added self.old < self.old.limit }
        ensures number { IfOk result (λ n. n ≡ length self.old.prefixes + 1) }
        ensures ok { OnOk result (self.new ≡ with_prefix self.old text.now) }
        ensures err { OnErr result (self.new ≡ self.old) }
    {
        let at = self.prefixes.add(alloc, text)?;
        Ok(at + 1)
    }
}

// The local name first: where it is new, no byte of a long URI is read.
fn find_key(texts: &TextNumbers, kind: Kind, uri: &[u8], local: &[u8]) -> Option<TypeKey>
    ensures { (key : TypeKey) → (result ≡ Some key) ↔ IsKey texts.now key (record { kind = kind; uri = uri.now; local = local.now }) }
{
    let local = texts.find(local)?;
    let uri = texts.find(uri)?;
    let kind = kind.number();
    Some(TypeKey { kind, uri, local })
}

// The key of a name, whose texts are added where they are new.
fn add_key(
    texts: &mut TextNumbers,
    alloc: Global,
    kind: Kind,
    uri: &[u8],
    local: &[u8],
) -> Result<TypeKey, AllocError>
    ensures key { IfOk result (λ key. IsKey texts.new key (record { kind = kind; uri = uri.now; local = local.now })) }
    ensures keeps { Keeps texts.old texts.new }
{
    let uri = texts.number(alloc, uri)?;
    let local = texts.number(alloc, local)?;
    let kind = kind.number();
    Ok(TypeKey { kind, uri, local })
}
