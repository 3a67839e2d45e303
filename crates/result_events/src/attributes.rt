ghost use Rattle.std.specs.Prelude.{◌≡◌, ◌++◌, ◌∷◌, [], None, OnOk, IfOk, position};
ghost use Rattle.result_events.specs.Tidy.{placed, same_expanded};
ghost use Rattle.result_events.specs.Places.{place_from};

use crate::event::{Attribute, Name};
use crate::index::{ExpandedName, FEW, find, note_next};
use std::alloc::{AllocError, Global};
use std::collections::BTreeMap;
use std::marker::Model;

/// The attributes of one element, which contracts see as their list.
///
/// More than a few are found by an ordered index, so that a name costs its bytes times the logarithm of their count.
#[derive(Debug, Drop)]
pub struct Attributes {
    list: Vec<Attribute>,
    index: BTreeMap<ExpandedName, usize>,
}

impl Model for Attributes {
    ghost use Rattle.std.specs.Prelude.{List, ◌<◌, length};
    ghost use Rattle.result_events.specs.declared.event.Attribute.{Attribute};
    ghost use Rattle.result_events.specs.Places.{Finds};

    ghost Value = { List Attribute };

    ghost view = { λ it. it.list.items };

    ghost invariant = { λ it. 8 < length it.list.items → Finds it.index it.list.items };
}

impl Attributes {
    pub fn new(alloc: Global) -> Attributes
        ensures { result ≡ [] }
    {
        Attributes {
            list: Vec::new(alloc),
            index: BTreeMap::new(alloc),
        }
    }

    pub fn into_vec(self) -> Vec<Attribute>
        ensures { result.items ≡ self }
    {
        let Attributes { list, index: _ } = self;
        list
    }

    /// Puts an attribute in the place of the one with its expanded name, or else at the end.
    pub fn place(&mut self, alloc: Global, attribute: Attribute) -> Result<(), AllocError>
        ensures { OnOk result (self.new ≡ placed attribute self.old) }
    {
        match self.place_of(alloc, &attribute.name)? {
            Some(at) => {
                self.list[at] = attribute;
                Ok(())
            }
            None => self.add(alloc, attribute),
        }
    }

    fn place_of(&self, alloc: Global, name: &Name) -> Result<Option<usize>, AllocError>
        ensures { IfOk result (λ place. place ≡ place_from name.now 0 self.now) }
    {
        if self.list.len() > FEW {
            find(alloc, &self.index, name)
        } else {
            Ok(position_of(self.list.as_slice(), name))
        }
    }

    // Adds an attribute whose name is new.
    fn add(&mut self, alloc: Global, attribute: Attribute) -> Result<(), AllocError>
        requires { place_from attribute.name 0 self.old ≡ None }
        ensures { OnOk result (self.new ≡ self.old ++ attribute ∷ []) }
    {
        self.list.reserve(1)?;
        note_next(
            alloc,
            &mut self.index,
            self.list.as_slice(),
            &attribute.name,
        )?;
        self.list.push_reserved(attribute);
        Ok(())
    }
}

fn position_of(attributes: &[Attribute], name: &Name) -> Option<usize>
    ensures { result ≡ position (λ other. same_expanded other.name name.now) attributes.now }
{
    attributes
        .iter()
        .position(|other| same_expanded(&other.name, name))
}

fn same_expanded(a: &Name, b: &Name) -> bool
    ensures { result ≡ same_expanded a.now b.now }
{
    a.local.as_slice() == b.local.as_slice() && a.uri.as_slice() == b.uri.as_slice()
}
