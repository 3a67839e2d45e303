ghost use Rattle.std.specs.Prelude.{◌≡◌, ℕ, [], true};
ghost use Rattle.doc_model.specs.Strip.{all_spelled};
ghost use Rattle.strip_rules.specs.Stripped.{stripped};

use crate::judge::is_shown;
use crate::siblings::{first_shown, next_shown, prev_shown};
use doc_model::{Kind, Look, NameText, NodeView, StripRules, Verdict};
use std::alloc::{AllocError, Global};

/// A view without the whitespace texts that strip rules hide (XSLT 1.0, section 3.4), with the row numbers
/// and the extents of the view below. `prev`, `first` and `next` look once at each hidden row that they
/// pass over; the judgement of a whitespace text goes through the rules, and up to the nearest
/// `xml:space`. All other calls cost what they cost below.
#[derive(Drop)]
pub struct StripView<'a, V: NodeView> {
    below: &'a mut V,
    rules: &'a StripRules,
    ghost plain: { (V.sees below.now).rules ≡ [] },
    ghost spelled: { all_spelled rules.now.rules ≡ true },
}

impl<'a, V: NodeView> StripView<'a, V> {
    /// Lays the rules over a view that strips nothing. A rule that gives a local name gives a URI.
    pub fn on(below: &'a mut V, rules: &'a StripRules) -> StripView<'a, V>
        requires plain { (V.sees below.old).rules ≡ [] }
        requires spelled { all_spelled rules.now.rules ≡ true }
        ensures same { result.below.ghost_name ≡ below.entry.ghost_name }
        ensures now { (result.below.now ≡ below.old) × (result.rules.now ≡ rules.now) }
    {
        StripView { below, rules }
    }
}

impl<'a, V: NodeView> NodeView for StripView<'a, V> {
    ghost Mark = { ℕ × V.Mark };

    ghost sees = { λ v. stripped v.below.ghost_name v.rules.now.rules (V.sees v.below.now) };

    fn told(&mut self) {
        self.below.told();
    }

    fn kind(&mut self, n: u32) -> Kind {
        self.below.kind(n)
    }

    fn type_id(&mut self, n: u32) -> u32 {
        self.below.type_id(n)
    }

    fn parent(&mut self, n: u32) -> Option<u32> {
        self.below.parent(n)
    }

    fn prev(&mut self, n: u32) -> Option<u32> {
        prev_shown(self.below, self.rules.rules.as_slice(), n)
    }

    fn attr_count(&mut self, n: u32) -> u32 {
        self.below.attr_count(n)
    }

    fn shown(&mut self, n: u32) -> bool {
        is_shown(self.below, self.rules.rules.as_slice(), n)
    }

    fn first(&mut self, n: u32) -> Look {
        first_shown(self.below, self.rules.rules.as_slice(), n)
    }

    fn next(&mut self, n: u32) -> Look {
        next_shown(self.below, self.rules.rules.as_slice(), n)
    }

    fn extent(&mut self, n: u32) -> Option<u32> {
        self.below.extent(n)
    }

    fn ended(&mut self) -> Option<Verdict> {
        self.below.ended()
    }

    fn text(&mut self, alloc: Global, n: u32, into: &mut Vec<u8>) -> Result<(), AllocError> {
        self.below.text(alloc, n, into)
    }

    fn name(&mut self, alloc: Global, n: u32, into: &mut NameText) -> Result<(), AllocError> {
        self.below.name(alloc, n, into)
    }

    fn blank(&mut self, n: u32) -> bool {
        self.below.blank(n)
    }

    fn name_is(&mut self, n: u32, uri: &[u8], local: Option<&[u8]>) -> bool {
        self.below.name_is(n, uri, local)
    }

    fn value_is(&mut self, n: u32, text: &[u8]) -> bool {
        self.below.value_is(n, text)
    }
}
