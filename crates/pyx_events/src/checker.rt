ghost use Rattle.std.specs.Prelude.{◌≡◌, ◌≤◌, ◌∷◌, [], List, Err, IfOk, OnOk, IfErr};
ghost use Rattle.doc_model.specs.declared.limits.Limits.{Limits};
ghost use Rattle.pyx_lines.specs.declared.line.Line.{Line};
ghost use Rattle.pyx_events.specs.declared.halt.Halt.{Halt};
ghost use Rattle.pyx_events.specs.Before.{value_bytes};
ghost use Rattle.pyx_events.specs.Answer.{IsAnswer, IsEndAnswer, halt_of, repeated};
ghost use Rattle.pyx_events.specs.Checking.{Stands, IsHalted, HasRoom};

use crate::event::Events;
use crate::event_error::EventError;
use crate::halt::Halt;
use crate::progress::Progress;
use doc_model::Limits;
use pyx_lines::Line;
use std::alloc::{AllocError, Global};
use std::marker::Model;

/// Judges the lines of a source, one after the other, and gives their nodes and ends. Names and their
/// bytes aren't counted against the limits.
#[derive(Debug, Drop)]
pub struct Checker {
    progress: Progress,
    halt: Option<Halt>,
}

impl Model for Checker {
    ghost use Rattle.pyx_events.specs.Checking.{Checking};

    ghost Value = { Checking };

    ghost view = { λ it. record { progress = it.progress; halt = it.halt } };
}

impl Checker {
    /// A checker that has taken no line. Fails only for want of memory.
    pub fn start(alloc: Global, limits: Limits) -> Result<Checker, AllocError>
        requires { 1 ≤ limits.rows }
        ensures { IfOk result (λ checker. Stands limits checker []) }
    {
        Ok(Checker {
            progress: Progress::start(alloc, limits)?,
            halt: None,
        })
    }

    /// Judges the next line, and gives its events. Costs in the order of the line's bytes, where the line
    /// completes a start also of that element's attribute lines, and of the logarithm of their count and of what
    /// is in scope, however long the URIs are. A refusal is given for good, from then on
    /// without a node.
    pub fn line(&mut self, alloc: Global, line: Line) -> Result<Events, EventError>
        requires { HasRoom 4294967295 self.old }
        ensures answer { (limits : Limits) (before : List Line) → Stands limits self.old before → IsAnswer limits before line result }
        ensures taken { (limits : Limits) (before : List Line) → Stands limits self.old before → OnOk result (Stands limits self.new (line ∷ before)) }
        ensures halted { IfErr result (λ error. IsHalted self.new (halt_of error)) }
        ensures repeated { (halt : Halt) → IsHalted self.old halt → result ≡ Err (repeated halt) }
    {
        if let Some(halt) = self.halt {
            return Err(halt.repeated(alloc));
        }
        match self.progress.line(alloc, line) {
            Ok(events) => Ok(events),
            Err(error) => {
                self.halt = Some(Halt::of(&error));
                Err(error)
            }
        }
    }

    /// The bytes of values in the lines that have been taken, pending ones counted. A declaration has none.
    pub fn text(&self) -> u64
        ensures { (limits : Limits) (before : List Line) → Stands limits self.now before → result ≡ value_bytes before }
    {
        self.progress.nesting.bytes
    }

    /// Judges the input's end: it gives no event, and is called at most once. A refusal is given for
    /// good, from then on without a node.
    pub fn close(&mut self, alloc: Global) -> Result<Events, EventError>
        requires { HasRoom 4294967296 self.old }
        ensures answer { (limits : Limits) (before : List Line) → Stands limits self.old before → IsEndAnswer limits before result }
        ensures halted { IfErr result (λ error. IsHalted self.new (halt_of error)) }
        ensures repeated { (halt : Halt) → IsHalted self.old halt → result ≡ Err (repeated halt) }
    {
        if let Some(halt) = self.halt {
            return Err(halt.repeated(alloc));
        }
        match self.progress.close(alloc) {
            Ok(events) => Ok(events),
            Err(error) => {
                self.halt = Some(Halt::of(&error));
                Err(error)
            }
        }
    }
}
