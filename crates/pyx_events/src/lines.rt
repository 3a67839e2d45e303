// A line, and the input's end: judged, then taken.
ghost use Rattle.std.specs.Prelude.{◌∷◌, List, OnOk};
ghost use Rattle.doc_model.specs.declared.limits.Limits.{Limits};
ghost use Rattle.pyx_lines.specs.declared.line.Line.{Line};
ghost use Rattle.pyx_events.specs.Answer.{IsAnswer, IsEndAnswer};
ghost use Rattle.pyx_events.specs.Taken.{HasTaken, CanTake};

use crate::completing::{complete, completes, take_if};
use crate::event::Events;
use crate::event_error::EventError;
use crate::progress::Progress;
use doc_model::Flaw;
use lists::List;
use pyx_lines::Line;
use std::alloc::Global;

impl Progress {
    /// Judges the next line, and takes it where it has no flaw.
    pub fn line(&mut self, alloc: Global, line: Line) -> Result<Events, EventError>
        requires { CanTake 4294967295 self.old }
        ensures answer { (limits : Limits) (before : List Line) → HasTaken limits self.old before → IsAnswer limits before line result }
        ensures taken { (limits : Limits) (before : List Line) → HasTaken limits self.old before → OnOk result (HasTaken limits self.new (line ∷ before)) }
    {
        let own = self.judge(&line);
        let start = take_if(&mut self.pending, completes(&line));
        let node = match complete(alloc, &self.nesting, start) {
            Ok(node) => node,
            Err(error) => return Err(error),
        };
        match own {
            Some(kind) => {
                return Err(EventError::Refused {
                    flaw: Flaw {
                        line: self.nesting.lines + 1,
                        kind,
                    },
                    completed: node,
                });
            }
            None => {}
        }
        let events = self.take(alloc, node, line)?;
        Ok(events)
    }

    /// Judges the input's end.
    pub fn close(&mut self, alloc: Global) -> Result<Events, EventError>
        requires { CanTake 4294967296 self.old }
        ensures { (limits : Limits) (before : List Line) → HasTaken limits self.old before → IsEndAnswer limits before result }
    {
        let own = self.nesting.judge_close();
        let start = self.pending.take();
        let node = match complete(alloc, &self.nesting, start) {
            Ok(node) => node,
            Err(error) => return Err(error),
        };
        match own {
            Some(kind) => {
                return Err(EventError::Refused {
                    flaw: Flaw {
                        line: self.nesting.lines + 1,
                        kind,
                    },
                    completed: node,
                });
            }
            None => {}
        }
        Ok(List::new(alloc))
    }
}
