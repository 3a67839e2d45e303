// The flaws of a line's own event, names aside.
ghost use Rattle.std.specs.Prelude.{◌≡◌, ◌+◌, ◌≤◌, ◌==◌, ◌&&◌, not, ℕ, List, length, reverse, slice_get, nat_lt};
ghost use Rattle.std.specs.List.{list_all};
ghost use Rattle.doc_model.specs.declared.limits.Limits.{Limits};
ghost use Rattle.doc_model.specs.Strip.{is_white};
ghost use Rattle.pyx_lines.specs.declared.line.Line.{Line};
ghost use Rattle.pyx_lines.specs.declared.line.Line.TheVariants.{Start, End, Attr, Text, Instruction, Comment};
ghost use Rattle.pyx_events.specs.Before.{pending_start, pending_text};
ghost use Rattle.pyx_events.specs.Counted.{free_names};
ghost use Rattle.pyx_events.specs.Flaw.{own_flaw, own_end_flaw, is_named};
ghost use Rattle.pyx_events.specs.Standing.{IsNested};

use crate::declarations::is_declaration;
use crate::nesting::Nesting;
use crate::pending_start::PendingStart;
use doc_model::FlawKind;
use lists::List;

/// The most elements that are open at once.
const MAX_DEPTH: usize = 1000;

/// The most attribute lines of an element.
const MAX_ATTRIBUTES: usize = 256;

impl Nesting {
    pub fn judge_start(&self) -> Option<FlawKind>
        ensures { (limits : Limits) (before : List Line) (name : List ℕ) → IsNested limits self.now before → result ≡ own_flaw limits free_names before (Start name) }
    {
        if self.open_names.is_empty() && self.rooted {
            Some(FlawKind::SecondRoot)
        } else if self.open_names.len() >= MAX_DEPTH {
            Some(FlawKind::TooDeep)
        } else if self.rows == self.limits.rows {
            Some(FlawKind::TooManyNodes)
        } else {
            None
        }
    }

    pub fn judge_end(&self, name: &[u8]) -> Option<FlawKind>
        ensures { (limits : Limits) (before : List Line) → IsNested limits self.now before → result ≡ own_flaw limits free_names before (End name.now) }
    {
        if is_innermost(self.open_names.as_slice(), name) {
            None
        } else {
            Some(FlawKind::WrongEnd)
        }
    }

    pub fn judge_attribute(
        &self,
        pending: &Option<PendingStart>,
        name: &[u8],
        value: &[u8],
    ) -> Option<FlawKind>
        requires { self.now.bytes ≤ self.now.limits.text }
        ensures { (limits : Limits) (before : List Line) → IsNested limits self.now before → pending.now ≡ pending_start before → result ≡ own_flaw limits free_names before (Attr name.now value.now) }
    {
        let Some(start) = pending else {
            return Some(FlawKind::AttrPlace);
        };
        if start.attributes.len() == MAX_ATTRIBUTES {
            Some(FlawKind::TooManyAttrs)
        } else if is_declaration(name) {
            None
        } else if self.rows == self.limits.rows {
            Some(FlawKind::TooManyNodes)
        } else if self.is_too_much(value) {
            Some(FlawKind::TooMuchText)
        } else {
            None
        }
    }

    pub fn judge_text(&self, kept: &[u8], text: &[u8]) -> Option<FlawKind>
        requires { self.now.bytes ≤ self.now.limits.text }
        ensures { (limits : Limits) (before : List Line) → IsNested limits self.now before → kept.now ≡ pending_text before → result ≡ own_flaw limits free_names before (Text text.now) }
    {
        if self.open_names.is_empty() && !is_all_white(text) {
            Some(FlawKind::TextOutside)
        } else if self.begins_text(kept, text) && self.rows == self.limits.rows {
            Some(FlawKind::TooManyNodes)
        } else if self.is_too_much(text) {
            Some(FlawKind::TooMuchText)
        } else {
            None
        }
    }

    /// Whether this text begins a text node.
    pub fn begins_text(&self, kept: &[u8], text: &[u8]) -> bool
        ensures { result ≡ (not (length self.now.open_names == 0) && not (length text.now == 0) && length kept.now == 0) }
    {
        !self.open_names.is_empty() && !text.is_empty() && kept.is_empty()
    }

    pub fn judge_instruction(&self, value: &[u8]) -> Option<FlawKind>
        requires { self.now.bytes ≤ self.now.limits.text }
        ensures { (limits : Limits) (before : List Line) (target : List ℕ) → IsNested limits self.now before → result ≡ own_flaw limits free_names before (Instruction target value.now) }
    {
        if self.rows == self.limits.rows {
            Some(FlawKind::TooManyNodes)
        } else if self.is_too_much(value) {
            Some(FlawKind::TooMuchText)
        } else {
            None
        }
    }

    pub fn judge_comment(&self, text: &[u8]) -> Option<FlawKind>
        requires { self.now.bytes ≤ self.now.limits.text }
        ensures { (limits : Limits) (before : List Line) → IsNested limits self.now before → result ≡ own_flaw limits free_names before (Comment text.now) }
    {
        if self.rows == self.limits.rows {
            Some(FlawKind::TooManyNodes)
        } else if self.is_too_much(text) {
            Some(FlawKind::TooMuchText)
        } else {
            None
        }
    }

    pub fn judge_close(&self) -> Option<FlawKind>
        ensures { (limits : Limits) (before : List Line) → IsNested limits self.now before → result ≡ own_end_flaw before }
    {
        if !self.rooted {
            Some(FlawKind::NoRoot)
        } else if !self.open_names.is_empty() {
            Some(FlawKind::Unclosed)
        } else {
            None
        }
    }

    // Whether this value is more than there is room for.
    fn is_too_much(&self, value: &[u8]) -> bool
        requires { self.now.bytes ≤ self.now.limits.text }
        ensures { result ≡ nat_lt self.now.limits.text (self.now.bytes + length value.now) }
    {
        value.len() as u64 > self.limits.text - self.bytes
    }
}

// Whether the innermost of these names, the last, is this one.
fn is_innermost(names: &[List<u8>], name: &[u8]) -> bool
    ensures { result ≡ is_named (slice_get (reverse names.now) 0) name.now }
{
    match names {
        [.., inner] => inner.as_slice() == name,
        [] => false,
    }
}

fn is_all_white(text: &[u8]) -> bool
    ensures { result ≡ list_all is_white text.now }
{
    text.iter().all(|b| is_white(*b))
}

fn is_white(b: u8) -> bool
    ensures { result ≡ is_white b }
{
    matches!(b, b' ' | b'\t' | b'\n' | b'\r')
}
