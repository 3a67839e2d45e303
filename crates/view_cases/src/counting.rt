use doc_model::{Kind, Look, NameText, NodeView, Verdict};
use std::alloc::{AllocError, Global};

/// A view that counts the calls on it, and those of `name_is` apart; `told`, which does nothing, aside.
#[derive(Drop)]
pub struct Counting<V> {
    pub below: V,
    pub calls: u64,
    pub names: u64,
}

impl<V: NodeView> NodeView for Counting<V> {
    ghost Mark = { V.Mark };

    ghost sees = { λ counting. V.sees counting.below };

    fn told(&mut self) {
        self.below.told();
    }

    fn kind(&mut self, n: u32) -> Kind {
        self.calls = self.calls.saturating_add(1);
        self.below.kind(n)
    }

    fn type_id(&mut self, n: u32) -> u32 {
        self.calls = self.calls.saturating_add(1);
        self.below.type_id(n)
    }

    fn parent(&mut self, n: u32) -> Option<u32> {
        self.calls = self.calls.saturating_add(1);
        self.below.parent(n)
    }

    fn prev(&mut self, n: u32) -> Option<u32> {
        self.calls = self.calls.saturating_add(1);
        self.below.prev(n)
    }

    fn attr_count(&mut self, n: u32) -> u32 {
        self.calls = self.calls.saturating_add(1);
        self.below.attr_count(n)
    }

    fn shown(&mut self, n: u32) -> bool {
        self.calls = self.calls.saturating_add(1);
        self.below.shown(n)
    }

    fn first(&mut self, n: u32) -> Look {
        self.calls = self.calls.saturating_add(1);
        self.below.first(n)
    }

    fn next(&mut self, n: u32) -> Look {
        self.calls = self.calls.saturating_add(1);
        self.below.next(n)
    }

    fn extent(&mut self, n: u32) -> Option<u32> {
        self.calls = self.calls.saturating_add(1);
        self.below.extent(n)
    }

    fn ended(&mut self) -> Option<Verdict> {
        self.calls = self.calls.saturating_add(1);
        self.below.ended()
    }

    fn text(&mut self, alloc: Global, n: u32, into: &mut Vec<u8>) -> Result<(), AllocError> {
        self.calls = self.calls.saturating_add(1);
        self.below.text(alloc, n, into)
    }

    fn name(&mut self, alloc: Global, n: u32, into: &mut NameText) -> Result<(), AllocError> {
        self.calls = self.calls.saturating_add(1);
        self.below.name(alloc, n, into)
    }

    fn blank(&mut self, n: u32) -> bool {
        self.calls = self.calls.saturating_add(1);
        self.below.blank(n)
    }

    fn name_is(&mut self, n: u32, uri: &[u8], local: Option<&[u8]>) -> bool {
        self.names = self.names.saturating_add(1);
        self.calls = self.calls.saturating_add(1);
        self.below.name_is(n, uri, local)
    }

    fn value_is(&mut self, n: u32, text: &[u8]) -> bool {
        self.calls = self.calls.saturating_add(1);
        self.below.value_is(n, text)
    }
}
