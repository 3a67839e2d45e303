// Completing the start that is pending.
ghost use Rattle.std.specs.Prelude.{◌≡◌, ◌≤◌, [], Some, None, IfOk, OnOk, IfErr, IfSome, length, if◌then◌else◌};
ghost use Rattle.xml_names.specs.Bindings.{all_bindings};
ghost use Rattle.pyx_events.specs.Before.{completes};
ghost use Rattle.pyx_events.specs.Nodes.{start_node};
ghost use Rattle.pyx_events.specs.Flaw.{start_flaw, start_line, at_line};
ghost use Rattle.pyx_events.specs.Answer.{flaw_in, completed_in};

use crate::elements::{StartError, element_events};
use crate::event::Events;
use crate::event_error::EventError;
use crate::nesting::Nesting;
use crate::pending_start::PendingStart;
use doc_model::Flaw;
use lists::List;
use pyx_lines::Line;
use std::alloc::Global;

/// Whether the line completes a pending start.
pub fn completes(line: &Line) -> bool
    ensures { result ≡ completes line.now }
{
    match line {
        Line::Start(_) | Line::End(_) | Line::Text(_) => true,
        Line::Instruction { .. } | Line::Comment(_) => true,
        Line::Attr { .. } | Line::Passed => false,
    }
}

/// Takes the pending start out, if it is completed.
pub fn take_if(pending: &mut Option<PendingStart>, completed: bool) -> Option<PendingStart>
    ensures start { result ≡ (if completed then pending.old else None) }
    ensures left { pending.new ≡ (if completed then None else pending.old) }
{
    if completed { pending.take() } else { None }
}

/// The node of a start, if there is one, or its flaw, which carries the start's line.
pub fn complete(
    alloc: Global,
    nesting: &Nesting,
    start: Option<PendingStart>,
) -> Result<Events, EventError>
    requires { length nesting.now.open_names ≤ 1000 }
    ensures node { IfOk result (λ events. events ≡ start_node nesting.now.scopes.uris (all_bindings nesting.now.scopes.scopes) (length nesting.now.open_names) start) }
    ensures good { OnOk result (start_flaw (all_bindings nesting.now.scopes.scopes) (length nesting.now.open_names) start ≡ None) }
    ensures refused { IfErr result (λ error. IfSome (flaw_in error) (λ flaw. at_line (start_line start) (start_flaw (all_bindings nesting.now.scopes.scopes) (length nesting.now.open_names) start) None ≡ Some flaw)) }
    ensures empty { IfErr result (λ error. IfSome (completed_in error) (λ events. events ≡ [])) }
{
    match start {
        Some(start) => {
            let line = start.line;
            match element_events(alloc, &nesting.scopes, nesting.depth(), start) {
                Ok(events) => Ok(events),
                Err(StartError::Flawed(kind)) => Err(EventError::Refused {
                    flaw: Flaw { line, kind },
                    completed: List::new(alloc),
                }),
                Err(StartError::Memory) => Err(EventError::Memory),
            }
        }
        None => Ok(List::new(alloc)),
    }
}
