//! Expanded names, numbered in the order in which they come.

ghost use Rattle.std.specs.Prelude.{◌≡◌, [], length, take, IfOk, OnOk};
ghost use Rattle.std.specs.List.{list_any};
ghost use Rattle.sheet_names.specs.Names.{expanded, place_of, same_name, with_name};
ghost use Rattle.sheet_names.specs.Keys.{name_of_key};

use indexmap::IndexSet;
use std::alloc::{AllocError, Global};
use std::marker::Model;
use xpath_syntax::NameRef;

/// An expanded name (XML Namespaces, section 2.1) as a key.
#[derive(Debug, Drop, PartialEq, Eq, Hash)]
pub struct ExpandedName {
    pub local: Vec<u8>,
    pub uri: Vec<u8>,
}

/// Expanded names, each once, in the order in which they came.
#[derive(Drop)]
pub struct NameSet {
    names: IndexSet<ExpandedName>,
}

impl Model for NameSet {
    ghost use Rattle.std.specs.Prelude.{List, map};
    ghost use Rattle.sheet_names.specs.Names.{Name};
    ghost use Rattle.sheet_names.specs.Keys.{name_of_key};

    ghost Value = { List Name };

    ghost view = { λ it. map name_of_key it.names.keys };
}

fn key_of(alloc: Global, name: &NameRef) -> Result<ExpandedName, AllocError>
    ensures { IfOk result (λ key. name_of_key key ≡ expanded name.now) }
{
    let local = Vec::from_slice(alloc, name.local.as_slice())?;
    match &name.uri {
        None => Ok(ExpandedName {
            local,
            uri: Vec::new(alloc),
        }),
        Some(uri) => Ok(ExpandedName {
            local,
            uri: Vec::from_slice(alloc, uri.as_slice())?,
        }),
    }
}

impl NameSet {
    /// No names.
    pub fn new(alloc: Global) -> NameSet
        ensures { result ≡ [] }
    {
        NameSet {
            names: IndexSet::new(alloc),
        }
    }

    /// How many names there are.
    pub fn len(&self) -> usize
        ensures { result ≡ length self.now }
    {
        self.names.len()
    }

    /// The place of a name, counted from 0. Takes a time linear in the name. Fails only for want of memory.
    pub fn place_of(&self, alloc: Global, name: &NameRef) -> Result<Option<usize>, AllocError>
        ensures { IfOk result (λ place. place ≡ place_of self.now (expanded name.now)) }
    {
        let key = key_of(alloc, name)?;
        Ok(self.names.get_index_of(&key))
    }

    /// Whether a name is there. Costs as `place_of` does, and fails only for want of memory.
    pub fn has(&self, alloc: Global, name: &NameRef) -> Result<bool, AllocError>
        ensures { IfOk result (λ has. has ≡ list_any (same_name (expanded name.now)) self.now) }
    {
        let key = key_of(alloc, name)?;
        Ok(self.names.contains(&key))
    }

    /// Adds a name at the end, unless it is there. Costs as `place_of` does, and fails only for want of memory.
    pub fn add(&mut self, alloc: Global, name: &NameRef) -> Result<(), AllocError>
        ensures { OnOk result (self.new ≡ with_name self.old (expanded name.now)) }
    {
        let key = key_of(alloc, name)?;
        self.names.insert(key)?;
        Ok(())
    }

    /// Takes away all names but the first so many.
    pub fn keep(&mut self, len: usize)
        ensures { self.new ≡ take len self.old }
    {
        self.names.truncate(len);
    }
}
