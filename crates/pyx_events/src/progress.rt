ghost use Rattle.std.specs.Prelude.{◌≡◌, ◌+◌, ◌≤◌, ◌<◌, ◌++◌, ◌∷◌, [], List, IfOk, OnOk, length, if◌then◌else◌};
ghost use Rattle.doc_model.specs.declared.limits.Limits.{Limits};
ghost use Rattle.pyx_lines.specs.declared.line.Line.{Line};
ghost use Rattle.pyx_lines.specs.declared.line.Line.TheVariants.{Start, End, Attr, Text, Instruction, Comment, Passed};
ghost use Rattle.pyx_events.specs.declared.event.Event.TheVariants.{Shut};
ghost use Rattle.pyx_events.specs.Before.{with_attribute};
ghost use Rattle.pyx_events.specs.Counted.{free_names};
ghost use Rattle.pyx_events.specs.Nodes.{text_node, own_events};
ghost use Rattle.pyx_events.specs.Flaw.{own_flaw};
ghost use Rattle.pyx_events.specs.Taken.{HasTaken, IsReady, MayTake};

use crate::event::{Event, Events};
use crate::nesting::Nesting;
use crate::pending_start::{Attribute, PendingStart};
use crate::texts::{with_comment, with_instruction, with_text};
use doc_model::{FlawKind, Limits};
use lists::List;
use pyx_lines::Line;
use std::alloc::{AllocError, Global};
use std::mem;

/// What is kept of the lines that have been taken.
#[derive(Debug, Drop)]
pub struct Progress {
    pub nesting: Nesting,
    pub pending: Option<PendingStart>,
    /// The text of the run of character data lines that hasn't ended.
    pub text: List<u8>,
}

impl Progress {
    pub fn start(alloc: Global, limits: Limits) -> Result<Progress, AllocError>
        requires { 1 ≤ limits.rows }
        ensures { IfOk result (λ progress. HasTaken limits progress []) }
    {
        Ok(Progress {
            nesting: Nesting::start(alloc, limits)?,
            pending: None,
            text: List::new(alloc),
        })
    }

    /// The flaw of the line's own event, names aside.
    pub fn judge(&self, line: &Line) -> Option<FlawKind>
        requires { self.now.nesting.bytes ≤ self.now.nesting.limits.text }
        ensures { (limits : Limits) (before : List Line) → HasTaken limits self.now before → result ≡ own_flaw limits free_names before line.now }
    {
        match line {
            Line::Start(_) => self.nesting.judge_start(),
            Line::End(name) => self.nesting.judge_end(name.as_slice()),
            Line::Attr { name, value } => {
                self.nesting
                    .judge_attribute(&self.pending, name.as_slice(), value.as_slice())
            }
            Line::Text(text) => self
                .nesting
                .judge_text(self.text.as_slice(), text.as_slice()),
            Line::Instruction { target: _, value } => {
                self.nesting.judge_instruction(value.as_slice())
            }
            Line::Comment(text) => self.nesting.judge_comment(text.as_slice()),
            Line::Passed => None,
        }
    }

    fn take_start(
        &mut self,
        alloc: Global,
        node: Events,
        name: List<u8>,
    ) -> Result<Events, AllocError>
        requires { MayTake self.old (Start name) }
        ensures events { (limits : Limits) (before : List Line) → IsReady limits self.old before (Start name) → IfOk result (λ events. events ≡ node ++ own_events before (Start name)) }
        ensures taken { (limits : Limits) (before : List Line) → IsReady limits self.old before (Start name) → own_flaw limits free_names before (Start name) ≡ None → OnOk result (HasTaken limits self.new (Start name ∷ before)) }
    {
        let events = end_text(alloc, &self.nesting, &mut self.text, node)?;
        let start = self.nesting.take_start(alloc, name)?;
        self.pending = Some(start);
        Ok(events)
    }

    fn take_end(
        &mut self,
        alloc: Global,
        node: Events,
        name: List<u8>,
    ) -> Result<Events, AllocError>
        requires { MayTake self.old (End name) }
        ensures events { (limits : Limits) (before : List Line) → IsReady limits self.old before (End name) → IfOk result (λ events. events ≡ node ++ own_events before (End name)) }
        ensures taken { (limits : Limits) (before : List Line) → IsReady limits self.old before (End name) → own_flaw limits free_names before (End name) ≡ None → OnOk result (HasTaken limits self.new (End name ∷ before)) }
    {
        let events = end_text(alloc, &self.nesting, &mut self.text, node)?;
        let events = with_shut(events)?;
        self.nesting.take_end(name);
        Ok(events)
    }

    fn take_attribute(
        &mut self,
        alloc: Global,
        node: Events,
        name: List<u8>,
        value: List<u8>,
    ) -> Result<Events, AllocError>
        requires { MayTake self.old (Attr name value) }
        ensures events { IfOk result (λ events. events ≡ node) }
        ensures taken { (limits : Limits) (before : List Line) → IsReady limits self.old before (Attr name value) → own_flaw limits free_names before (Attr name value) ≡ None → OnOk result (HasTaken limits self.new (Attr name value ∷ before)) }
    {
        self.nesting
            .take_attribute(alloc, name.as_slice(), value.as_slice())?;
        add_attribute(&mut self.pending, name, value)?;
        Ok(node)
    }

    fn take_text(&mut self, node: Events, text: List<u8>) -> Result<Events, AllocError>
        requires { MayTake self.old (Text text) }
        ensures events { IfOk result (λ events. events ≡ node) }
        ensures taken { (limits : Limits) (before : List Line) → IsReady limits self.old before (Text text) → own_flaw limits free_names before (Text text) ≡ None → OnOk result (HasTaken limits self.new (Text text ∷ before)) }
    {
        let inside = self.nesting.is_inside();
        self.nesting
            .take_text(self.text.as_slice(), text.as_slice());
        keep_text(&mut self.text, inside, text)?;
        Ok(node)
    }

    fn take_instruction(
        &mut self,
        alloc: Global,
        node: Events,
        target: List<u8>,
        value: List<u8>,
    ) -> Result<Events, AllocError>
        requires { MayTake self.old (Instruction target value) }
        ensures events { (limits : Limits) (before : List Line) → IsReady limits self.old before (Instruction target value) → IfOk result (λ events. events ≡ node ++ own_events before (Instruction target value)) }
        ensures taken { (limits : Limits) (before : List Line) → IsReady limits self.old before (Instruction target value) → own_flaw limits free_names before (Instruction target value) ≡ None → OnOk result (HasTaken limits self.new (Instruction target value ∷ before)) }
    {
        let events = end_text(alloc, &self.nesting, &mut self.text, node)?;
        let depth = self.nesting.depth() + 1;
        let line = self.nesting.lines + 1;
        self.nesting
            .take_instruction(target.as_slice(), value.as_slice());
        with_instruction(alloc, events, depth, target, value, line)
    }

    fn take_comment(
        &mut self,
        alloc: Global,
        node: Events,
        text: List<u8>,
    ) -> Result<Events, AllocError>
        requires { MayTake self.old (Comment text) }
        ensures events { (limits : Limits) (before : List Line) → IsReady limits self.old before (Comment text) → IfOk result (λ events. events ≡ node ++ own_events before (Comment text)) }
        ensures taken { (limits : Limits) (before : List Line) → IsReady limits self.old before (Comment text) → own_flaw limits free_names before (Comment text) ≡ None → OnOk result (HasTaken limits self.new (Comment text ∷ before)) }
    {
        let events = end_text(alloc, &self.nesting, &mut self.text, node)?;
        let depth = self.nesting.depth() + 1;
        let line = self.nesting.lines + 1;
        self.nesting.take_comment(text.as_slice());
        with_comment(alloc, events, depth, text, line)
    }

    fn take_passed(&mut self, node: Events) -> Events
        requires { MayTake self.old Passed }
        ensures events { result ≡ node }
        ensures taken { (limits : Limits) (before : List Line) → IsReady limits self.old before Passed → HasTaken limits self.new (Passed ∷ before) }
    {
        self.nesting.take_passed();
        node
    }

    /// Takes a line that has no flaw of its own, after the node of the start that it completed.
    pub fn take(&mut self, alloc: Global, node: Events, line: Line) -> Result<Events, AllocError>
        requires { MayTake self.old line }
        ensures events { (limits : Limits) (before : List Line) → IsReady limits self.old before line → IfOk result (λ events. events ≡ node ++ own_events before line) }
        ensures taken { (limits : Limits) (before : List Line) → IsReady limits self.old before line → own_flaw limits free_names before line ≡ None → OnOk result (HasTaken limits self.new (line ∷ before)) }
    {
        match line {
            Line::Start(name) => self.take_start(alloc, node, name),
            Line::End(name) => self.take_end(alloc, node, name),
            Line::Attr { name, value } => self.take_attribute(alloc, node, name, value),
            Line::Text(text) => self.take_text(node, text),
            Line::Instruction { target, value } => {
                self.take_instruction(alloc, node, target, value)
            }
            Line::Comment(text) => self.take_comment(alloc, node, text),
            Line::Passed => Ok(self.take_passed(node)),
        }
    }
}

// Adds the node of the text that ends here.
fn end_text(
    alloc: Global,
    nesting: &Nesting,
    text: &mut List<u8>,
    events: Events,
) -> Result<Events, AllocError>
    requires depth { length nesting.now.open_names ≤ 1000 }
    requires lines { nesting.now.lines < 4294967295 }
    ensures node { IfOk result (λ all. all ≡ events ++ text_node (length nesting.now.open_names + 1) text.old (nesting.now.lines + 1)) }
    ensures text { text.new ≡ [] }
{
    let ended = mem::replace(text, List::new(alloc));
    with_text(alloc, events, nesting.depth() + 1, ended, nesting.lines + 1)
}

fn with_shut(events: Events) -> Result<Events, AllocError>
    ensures { IfOk result (λ all. all ≡ events ++ Shut ∷ []) }
{
    let mut all = events;
    all.push(Event::Shut)?;
    Ok(all)
}

fn add_attribute(
    pending: &mut Option<PendingStart>,
    name: List<u8>,
    value: List<u8>,
) -> Result<(), AllocError>
    ensures { OnOk result (pending.new ≡ with_attribute name value pending.old) }
{
    match pending {
        Some(start) => start.attributes.push(Attribute { name, value }),
        None => Ok(()),
    }
}

// Outside the root element a text is dropped.
fn keep_text(kept: &mut List<u8>, inside: bool, text: List<u8>) -> Result<(), AllocError>
    ensures { OnOk result (kept.new ≡ (if inside then kept.old ++ text else kept.old)) }
{
    if inside { kept.append(text) } else { Ok(()) }
}
