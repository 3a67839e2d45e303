ghost use Rattle.std.specs.Prelude.{◌≡◌, ◌+◌, ◌≤◌, ◌<◌, ◌==◌, ◌&&◌, not, [], ◌∷◌, ℕ, List, None, IfOk, OnOk, length, if◌then◌else◌};
ghost use Rattle.doc_model.specs.declared.limits.Limits.{Limits};
ghost use Rattle.pyx_lines.specs.declared.line.Line.{Line};
ghost use Rattle.pyx_lines.specs.declared.line.Line.TheVariants.{Start, End, Attr, Text, Instruction, Comment, Passed};
ghost use Rattle.pyx_events.specs.Before.{is_declaration, pending_text};
ghost use Rattle.pyx_events.specs.Counted.{free_names};
ghost use Rattle.pyx_events.specs.Flaw.{own_flaw};
ghost use Rattle.pyx_events.specs.Standing.{IsNested};

use crate::declarations::{declare, is_declaration};
use crate::pending_start::PendingStart;
use doc_model::Limits;
use lists::List;
use std::alloc::{AllocError, Global};
use xml_names::Scopes;

/// The open elements and their scopes, and what has been counted.
#[derive(Debug, Drop)]
pub struct Nesting {
    pub limits: Limits,
    /// As written, the innermost last.
    pub open_names: List<List<u8>>,
    pub scopes: Scopes,
    /// A root element was there.
    pub rooted: bool,
    pub lines: u64,
    /// With the root's and those that are pending.
    pub rows: u32,
    /// Of values, with those that are pending.
    pub bytes: u64,
}

impl Nesting {
    pub fn start(alloc: Global, limits: Limits) -> Result<Nesting, AllocError>
        requires { 1 ≤ limits.rows }
        ensures { IfOk result (λ nesting. IsNested limits nesting []) }
    {
        Ok(Nesting {
            limits,
            open_names: List::new(alloc),
            scopes: Scopes::start(alloc)?,
            rooted: false,
            lines: 0,
            rows: 1,
            bytes: 0,
        })
    }

    pub fn depth(&self) -> u32
        requires { length self.now.open_names ≤ 1000 }
        ensures { result ≡ length self.now.open_names }
    {
        self.open_names.len() as u32
    }

    /// Whether an element is open.
    pub fn is_inside(&self) -> bool
        ensures { result ≡ not (length self.now.open_names == 0) }
    {
        !self.open_names.is_empty()
    }

    /// Takes a start that has no flaw.
    pub fn take_start(&mut self, alloc: Global, name: List<u8>) -> Result<PendingStart, AllocError>
        requires { (before : List Line) × IsNested self.old.limits self.old before × (own_flaw self.old.limits free_names before (Start name) ≡ None) × (length before < 4294967295) }
        ensures nested { (limits : Limits) (before : List Line) → IsNested limits self.old before → own_flaw limits free_names before (Start name) ≡ None → OnOk result (IsNested limits self.new (Start name ∷ before)) }
        ensures start { IfOk result (λ start. start ≡ record { name = name; line = self.old.lines + 1; attributes = [] }) }
    {
        let pending = List::from_slice(alloc, name.as_slice())?;
        self.scopes.push(alloc)?;
        self.open_names.push(name)?;
        self.rooted = true;
        self.rows += 1;
        self.lines += 1;
        Ok(PendingStart {
            name: pending,
            line: self.lines,
            attributes: List::new(alloc),
        })
    }

    /// Takes an end that has no flaw.
    pub fn take_end(&mut self, _name: List<u8>)
        requires { (before : List Line) × IsNested self.old.limits self.old before × (own_flaw self.old.limits free_names before (End _name) ≡ None) × (length before < 4294967295) }
        ensures { (limits : Limits) (before : List Line) → IsNested limits self.old before → own_flaw limits free_names before (End _name) ≡ None → IsNested limits self.new (End _name ∷ before) }
    {
        self.scopes.pop();
        self.open_names.pop();
        self.lines += 1;
    }

    /// Takes an attribute line that has no flaw.
    #[tactic(auto, using(crate::proofs::Scoping::bound_more, crate::proofs::Scoping::scoped_more))]
    pub fn take_attribute(
        &mut self,
        alloc: Global,
        name: &[u8],
        value: &[u8],
    ) -> Result<(), AllocError>
        requires { (before : List Line) × IsNested self.old.limits self.old before × (own_flaw self.old.limits free_names before (Attr name.now value.now) ≡ None) × (length before < 4294967295) }
        ensures { (limits : Limits) (before : List Line) → IsNested limits self.old before → own_flaw limits free_names before (Attr name.now value.now) ≡ None → OnOk result (IsNested limits self.new (Attr name.now value.now ∷ before)) }
    {
        declare(alloc, &mut self.scopes, name, value)?;
        self.rows += attribute_rows(name);
        self.bytes += attribute_bytes(name, value);
        self.lines += 1;
        Ok(())
    }

    /// Takes character data that has no flaw, after the text that is kept.
    pub fn take_text(&mut self, kept: &[u8], text: &[u8])
        requires { (before : List Line) × IsNested self.old.limits self.old before × (kept.now ≡ pending_text before) × (own_flaw self.old.limits free_names before (Text text.now) ≡ None) × (length before < 4294967295) }
        ensures { (limits : Limits) (before : List Line) → IsNested limits self.old before → kept.now ≡ pending_text before → own_flaw limits free_names before (Text text.now) ≡ None → IsNested limits self.new (Text text.now ∷ before) }
    {
        self.rows += self.text_rows(kept, text);
        self.bytes += self.text_bytes(text);
        self.lines += 1;
    }

    // How many rows this text adds.
    fn text_rows(&self, kept: &[u8], text: &[u8]) -> u32
        ensures { result ≡ (if not (length self.now.open_names == 0) && not (length text.now == 0) && length kept.now == 0 then 1 else 0) }
    {
        if self.begins_text(kept, text) { 1 } else { 0 }
    }

    // How many bytes this text adds: outside the root element it is dropped.
    fn text_bytes(&self, text: &[u8]) -> u64
        ensures { result ≡ (if length self.now.open_names == 0 then 0 else length text.now) }
    {
        if self.open_names.is_empty() {
            0
        } else {
            text.len() as u64
        }
    }

    /// Takes an instruction that has no flaw.
    pub fn take_instruction(&mut self, _target: &[u8], value: &[u8])
        requires { (before : List Line) × IsNested self.old.limits self.old before × (own_flaw self.old.limits free_names before (Instruction _target.now value.now) ≡ None) × (length before < 4294967295) }
        ensures { (limits : Limits) (before : List Line) → IsNested limits self.old before → own_flaw limits free_names before (Instruction _target.now value.now) ≡ None → IsNested limits self.new (Instruction _target.now value.now ∷ before) }
    {
        self.rows += 1;
        self.bytes += value.len() as u64;
        self.lines += 1;
    }

    /// Takes a comment that has no flaw.
    pub fn take_comment(&mut self, text: &[u8])
        requires { (before : List Line) × IsNested self.old.limits self.old before × (own_flaw self.old.limits free_names before (Comment text.now) ≡ None) × (length before < 4294967295) }
        ensures { (limits : Limits) (before : List Line) → IsNested limits self.old before → own_flaw limits free_names before (Comment text.now) ≡ None → IsNested limits self.new (Comment text.now ∷ before) }
    {
        self.rows += 1;
        self.bytes += text.len() as u64;
        self.lines += 1;
    }

    /// Takes a passed-over line.
    pub fn take_passed(&mut self)
        requires { (before : List Line) × IsNested self.old.limits self.old before × (length before < 4294967295) }
        ensures { (limits : Limits) (before : List Line) → IsNested limits self.old before → IsNested limits self.new (Passed ∷ before) }
    {
        self.lines += 1;
    }
}

// How many rows an attribute line adds.
fn attribute_rows(name: &[u8]) -> u32
    ensures { result ≡ (if is_declaration name.now then 0 else 1) }
{
    if is_declaration(name) { 0 } else { 1 }
}

// How many bytes an attribute line adds.
fn attribute_bytes(name: &[u8], value: &[u8]) -> u64
    ensures { result ≡ (if is_declaration name.now then 0 else length value.now) }
{
    if is_declaration(name) {
        0
    } else {
        value.len() as u64
    }
}
