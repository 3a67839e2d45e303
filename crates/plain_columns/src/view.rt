ghost use Rattle.std.specs.Prelude.{◌≡◌, ⊤};
ghost use Rattle.doc_model.specs.Strip.{all_white};
ghost use Rattle.plain_columns.specs.Seen.{seen_of};

use crate::table::Plain;
use doc_model::{Kind, Look, NameText, NodeView, Verdict};
use lists::List;
use std::alloc::{AllocError, Global};
use std::marker::Model;

/// A table that is borrowed to be read, and so stands still. Every call but `text` and `name` costs
/// O(1), or the bytes that it compares: of two names the local parts first.
#[derive(Drop)]
pub struct PlainView<'a> {
    table: &'a Plain,
}

impl<'a> Model for PlainView<'a> {
    ghost use Rattle.plain_columns.specs.Value.{Table};

    ghost Value = { Table };

    ghost view = { λ v. v.table.now };
}

impl Plain {
    /// What can be read now.
    pub fn view(&self) -> PlainView<'_>
        ensures { result ≡ self.now }
    {
        PlainView { table: self }
    }
}

impl<'a> NodeView for PlainView<'a> {
    ghost Mark = { ⊤ };

    ghost sees = { λ v. seen_of v.cells };

    fn told(&mut self) {
        self.table.told();
    }

    fn kind(&mut self, n: u32) -> Kind {
        self.table.told();
        self.table.kind_of(n)
    }

    fn type_id(&mut self, n: u32) -> u32 {
        self.table.told();
        self.table.type_of(n)
    }

    fn parent(&mut self, n: u32) -> Option<u32> {
        self.table.told();
        self.table.parent_of(n)
    }

    fn prev(&mut self, n: u32) -> Option<u32> {
        self.table.told();
        self.table.prev_of(n)
    }

    fn attr_count(&mut self, n: u32) -> u32 {
        self.table.told();
        self.table.attr_count_of(n)
    }

    fn shown(&mut self, _n: u32) -> bool {
        self.table.told();
        true
    }

    fn first(&mut self, n: u32) -> Look {
        self.table.told();
        self.table.first_of(n)
    }

    fn next(&mut self, n: u32) -> Look {
        self.table.told();
        self.table.next_of(n)
    }

    fn extent(&mut self, n: u32) -> Option<u32> {
        self.table.told();
        self.table.extent_of(n)
    }

    fn ended(&mut self) -> Option<Verdict> {
        self.table.told();
        self.table.ended_of()
    }

    fn text(&mut self, _alloc: Global, n: u32, into: &mut Vec<u8>) -> Result<(), AllocError> {
        self.table.told();
        into.extend_from_slice(self.table.value_of(n))
    }

    fn name(&mut self, alloc: Global, n: u32, into: &mut NameText) -> Result<(), AllocError> {
        self.table.told();
        let prefix = List::from_slice(alloc, self.table.prefix_of(n))?;
        let uri = List::from_slice(alloc, self.table.uri_of(n))?;
        let local = List::from_slice(alloc, self.table.local_of(n))?;
        *into = NameText { prefix, uri, local };
        Ok(())
    }

    fn blank(&mut self, n: u32) -> bool {
        self.table.told();
        match self.table.kind_of(n) {
            Kind::Text => all_white(self.table.value_of(n)),
            _ => false,
        }
    }

    fn name_is(&mut self, n: u32, uri: &[u8], local: Option<&[u8]>) -> bool {
        self.table.told();
        if let Some(part) = local {
            if self.table.local_of(n) != part {
                return false;
            }
        }
        self.table.uri_of(n) == uri
    }

    fn value_is(&mut self, n: u32, text: &[u8]) -> bool {
        self.table.told();
        self.table.value_of(n) == text
    }
}

fn all_white(bytes: &[u8]) -> bool
    ensures { result ≡ all_white bytes.now }
{
    for byte in bytes {
        match *byte {
            b' ' | b'\t' | b'\n' | b'\r' => {}
            _ => return false,
        }
    }
    true
}
