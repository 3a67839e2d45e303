ghost use Rattle.std.specs.Prelude.{◌≡◌, [], ◌↔◌, length, IsTrue, IfOk};
ghost use Rattle.std.specs.Cmp.Lexicographic.{pointwise, lists_per};
ghost use Rattle.std.proofs.lemmas.Cmp.{lists_equiv};

use lists::List;
use std::alloc::{AllocError, Global};
use std::marker::Model;
use std::rc::RcSlice;

/// Items with several owners, which contracts see as the list of the items. The empty list takes no memory.
#[derive(Debug, Drop)]
pub struct Shared<T> {
    items: Option<RcSlice<T>>,
}

impl<T> Model for Shared<T> {
    ghost use Rattle.std.specs.Prelude.{List as Lst};
    ghost use Rattle.std.specs.Coded.{coded_list};
    ghost use Rattle.shared_texts.specs.Items.{shared_items};

    ghost Value = { Lst T };

    ghost coded = { coded_list T.code };

    ghost view = { λ it. shared_items it.items };
}

impl<T> Shared<T> {
    /// No items, which take no memory.
    pub fn empty() -> Shared<T>
        ensures { result ≡ [] }
    {
        Shared { items: None }
    }

    pub fn as_slice(&self) -> &[T]
        ensures { result.now ≡ self.now }
    {
        match &self.items {
            Some(items) => items.as_slice(),
            None => &[],
        }
    }

    pub fn len(&self) -> usize
        ensures { result ≡ length self.now }
    {
        self.as_slice().len()
    }

    pub fn is_empty(&self) -> bool
        ensures { IsTrue result ↔ (self.now ≡ []) }
    {
        self.as_slice().is_empty()
    }
}

impl<T: Drop> Shared<T> {
    /// Takes the items over, without a copy of them. Fails only for want of memory.
    pub fn from_list(items: List<T>) -> Result<Shared<T>, AllocError>
        ensures { IfOk result (λ shared. shared ≡ items) }
    {
        Ok(Shared {
            items: Some(RcSlice::from_vec(items.into_vec())?),
        })
    }

    /// One more owner of the same items; none is copied. Fails only where they have no room for one more.
    pub fn share(&self) -> Result<Shared<T>, AllocError>
        ensures { IfOk result (λ shared. shared ≡ self.now) }
    {
        match &self.items {
            Some(items) => Ok(Shared {
                items: Some(items.clone()?),
            }),
            None => Ok(Shared::empty()),
        }
    }
}

impl<T: Copy> Shared<T> {
    /// Copies of the items. Fails only for want of memory.
    pub fn from_slice(alloc: Global, items: &[T]) -> Result<Shared<T>, AllocError>
        ensures { IfOk result (λ shared. shared ≡ items.now) }
    {
        Ok(Shared {
            items: Some(RcSlice::from_slice(alloc, items)?),
        })
    }
}

impl<T: Drop> Clone for Shared<T> {
    ghost is_clone = { λ it copy. copy ≡ it };

    fn clone(&self) -> Result<Shared<T>, AllocError> {
        self.share()
    }
}

impl<T: PartialEq> PartialEq for Shared<T> {
    ghost eq = { λ x y. pointwise T.eq x y };

    ghost laws = { lists_per T.laws };

    fn eq(&self, other: &Shared<T>) -> bool {
        self.as_slice() == other.as_slice()
    }
}

impl<T: Eq> Eq for Shared<T> {
    ghost laws = { lists_equiv T.Eq.laws };
}
