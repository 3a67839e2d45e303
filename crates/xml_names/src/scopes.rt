ghost use Rattle.std.specs.Prelude.{◌≡◌, ◌<◌, ◌∷◌, [], List, IfOk, IfSome, OnOk, OnErr, Some, None, false, length, option_map, slice_get, codes};
ghost use Rattle.xml_names.specs.Bindings.{xml_binding, is_fixed, bound_in, first_uris, resolved, unless_empty};
ghost use Rattle.shared_texts.specs.Numbers.{Keeps, NoRepeats, with_text};
ghost use Rattle.xml_names.specs.declared.scopes.Binding.{Binding};

use crate::index::{Declaration, declare, withdraw};
use lists::List;
use shared_texts::{Shared, TextStore};
use std::alloc::{AllocError, Global};
use std::collections::BTreeMap;
use std::marker::Model;

/// A prefix, which is empty for the default namespace, and the URI that it is bound to. An empty URI
/// ends the binding that it hides (Namespaces in XML 1.0, section 6).
#[derive(Clone, Debug, Drop, PartialEq, Eq)]
pub struct Binding {
    pub prefix: List<u8>,
    pub uri: Shared<u8>,
}

/// A URI with its number among those that were declared.
#[derive(Clone, Copy)]
pub struct NumberedUri<'a> {
    pub number: u32,
    pub uri: &'a Shared<u8>,
}

/// The scopes of the open elements, the innermost first, each with its bindings, the latest first.
///
/// The bindings of all scopes stand in one vector, each with the place of the binding that it hides,
/// and a tree finds the latest binding of a prefix: a look-up doesn't go through what else is in scope.
#[derive(Debug, Drop)]
pub struct Scopes {
    declarations: Vec<Declaration>,
    starts: Vec<usize>,
    latest: BTreeMap<Vec<u8>, usize>,
    uris: TextStore,
}

impl Model for Scopes {
    ghost use Rattle.std.specs.Prelude.{List, reverse};
    ghost use Rattle.xml_names.specs.declared.scopes.Binding.{Binding};
    ghost use Rattle.xml_names.specs.Bindings.{Scoped};
    ghost use Rattle.xml_names.specs.Kept.{scopes_of, bindings_of, IsKept};

    ghost Value = { Scoped };

    ghost view = { λ it. record { scopes = scopes_of (reverse it.starts.items) (bindings_of it.declarations.items); uris = it.uris } };

    ghost invariant = { λ it. IsKept (reverse it.starts.items) it.declarations.items it.latest it.uris };
}

impl Scopes {
    /// One scope, in which `xml` is bound.
    pub fn start(alloc: Global) -> Result<Scopes, AllocError>
        ensures { IfOk result (λ scopes. scopes ≡ record { scopes = (xml_binding ∷ []) ∷ []; uris = first_uris }) }
    {
        let mut declarations = Vec::new(alloc);
        let mut latest = BTreeMap::new(alloc);
        let mut uris = TextStore::new(alloc);
        uris.add(alloc, b"")?;
        declare(
            alloc,
            &mut declarations,
            &mut latest,
            &mut uris,
            b"xml",
            b"http://www.w3.org/XML/1998/namespace",
        )?;
        Ok(Scopes {
            declarations,
            starts: Vec::new(alloc),
            latest,
            uris,
        })
    }

    /// Enters a scope without bindings of its own. Fails only for want of memory.
    pub fn push(&mut self, _alloc: Global) -> Result<(), AllocError>
        ensures ok { OnOk result (self.new ≡ record { scopes = [] ∷ self.old.scopes; uris = self.old.uris }) }
        ensures err { OnErr result (self.new ≡ self.old) }
    {
        self.starts.push(self.declarations.len())?;
        Ok(())
    }

    /// Binds a prefix, which is neither `xml` nor `xmlns`, in the innermost scope; an empty one is the
    /// default namespace. Of two bindings of one prefix in a scope the later holds. Fails only for want
    /// of memory.
    pub fn bind(&mut self, alloc: Global, prefix: &[u8], uri: &[u8]) -> Result<(), AllocError>
        requires { is_fixed prefix.now ≡ false }
        ensures ok { OnOk result (self.new.scopes ≡ bound_in self.old.scopes (record { prefix = prefix.now; uri = uri.now })) }
        ensures uris { OnOk result (self.new.uris ≡ with_text self.old.uris uri.now) }
        ensures keeps { Keeps self.old.uris self.new.uris }
        ensures err { OnErr result (self.new.scopes ≡ self.old.scopes) }
    {
        declare(
            alloc,
            &mut self.declarations,
            &mut self.latest,
            &mut self.uris,
            prefix,
            uri,
        )?;
        Ok(())
    }

    /// What the innermost binding of the prefix binds it to; None exactly where no scope binds it or
    /// that binding is empty. Costs as many comparisons as the logarithm of the prefixes in scope, however
    /// often each of them is bound.
    pub fn resolve(&self, prefix: &[u8]) -> Option<&Shared<u8>>
        ensures innermost { option_map (λ uri. uri.now) result ≡ resolved self.now.scopes prefix.now }
        ensures xml { resolved self.now.scopes (codes "xml") ≡ Some xml_binding.uri }
        ensures xmlns { resolved self.now.scopes (codes "xmlns") ≡ None }
    {
        match self.latest.get(prefix) {
            Some(place) => unless_empty(&self.declarations[*place].binding.uri),
            None => None,
        }
    }

    /// Leaves the innermost scope, which isn't the one from the start. Costs in the order of its own
    /// bindings.
    pub fn pop(&mut self)
        requires { 1 < length self.old.scopes }
        ensures scopes { (inner : List Binding) × (self.old.scopes ≡ inner ∷ self.new.scopes) }
        ensures uris { self.new.uris ≡ self.old.uris }
    {
        let start = self.starts.pop().unwrap();
        withdraw(&mut self.declarations, &mut self.latest, start);
    }

    /// What `resolve` answers, with the number of the URI. Costs what `resolve` costs, and no look at the URI.
    pub fn find(&self, prefix: &[u8]) -> Option<NumberedUri<'_>>
        ensures uri { option_map (λ it. it.uri.now) result ≡ resolved self.now.scopes prefix.now }
        ensures number { IfSome result (λ it. slice_get self.now.uris it.number ≡ Some it.uri.now) }
    {
        match self.latest.get(prefix) {
            Some(place) => numbered(&self.declarations[*place]),
            None => None,
        }
    }

    /// Equal numbers have equal URIs, and other numbers other URIs.
    pub fn numbers_tell_uris(&self)
        ensures told { NoRepeats self.now.uris }
        ensures empty { slice_get self.now.uris 0 ≡ Some [] }
    {
        self.uris.numbers_tell_texts();
    }
}

// The URI of a declaration with its number, unless it is empty.
fn numbered(declaration: &Declaration) -> Option<NumberedUri<'_>>
    ensures uri { option_map (λ it. it.uri.now) result ≡ unless_empty (Some declaration.now.binding.uri) }
    ensures number { IfSome result (λ it. (it.number ≡ declaration.now.number) × (it.uri.now ≡ declaration.now.binding.uri)) }
{
    match unless_empty(&declaration.binding.uri) {
        Some(uri) => Some(NumberedUri {
            number: declaration.number,
            uri,
        }),
        None => None,
    }
}

fn unless_empty(uri: &Shared<u8>) -> Option<&Shared<u8>>
    ensures { option_map (λ uri. uri.now) result ≡ unless_empty (Some uri.now) }
{
    if uri.is_empty() { None } else { Some(uri) }
}

/// Whether this is `xml` or `xmlns`, which are never bound anew (Namespaces in XML 1.0, section 3).
pub fn is_fixed(prefix: &[u8]) -> bool
    ensures { result ≡ is_fixed prefix.now }
{
    prefix == b"xml".as_slice() || prefix == b"xmlns".as_slice()
}
