// Events written into a table.
ghost use Rattle.std.specs.Prelude.{◌≡◌, ◌==◌, ◌++◌, ◌∷◌, [], List, None, OnOk, OnErr, if◌then◌else◌};
ghost use Rattle.doc_model.specs.Document.{document_of};
ghost use Rattle.doc_model.specs.declared.step.Step.{Step};
ghost use Rattle.pyx_events.specs.Nodes.{event_rows};
ghost use Rattle.pyx_events.specs.Steps.{step_of, steps_of_events};
ghost use Rattle.node_writer.specs.Known.{AreKnown, names_in};
ghost use Rattle.node_writer.specs.Stands as writing;
ghost use Rattle.dtm_builder.specs.Recalled.{first_rows};
ghost use Rattle.dtm_builder.specs.Standing.{CanFollow};

use doc_model::GrowCells;
use name_pool::Memory;
use node_writer::NodeWriter;
use pyx_events::Event;
use std::alloc::Global;

/// Appends the steps of these events. Of the rows of the first these type numbers are known.
pub(crate) fn write_events<C: GrowCells>(
    writer: &mut NodeWriter,
    alloc: Global,
    c: &mut C,
    events: &[Event],
    known: &[Option<u32>],
) -> Result<(), Memory>
    requires stands { writing.Stands writer.old (C.limits c.old) (C.cells c.old) }
    requires follows { CanFollow (C.limits c.old) (C.cells c.old).steps (steps_of_events events.now) }
    requires known { AreKnown 0 (names_in writer.old) (first_rows events.now) known.now }
    ensures stands { OnOk result (writing.Stands writer.new (C.limits c.new) (C.cells c.new)) }
    ensures steps { OnOk result ((C.cells c.new).steps ≡ (C.cells c.old).steps ++ steps_of_events events.now) }
    ensures made { OnErr result ((made left : List Step) × (made ++ left ≡ steps_of_events events.now) × ((C.cells c.new).steps ≡ (C.cells c.old).steps ++ made)) }
    ensures going { OnErr result ((document_of (C.cells c.new).steps).ended ≡ None) }
    ensures limits { C.limits c.new ≡ C.limits c.old }
    ensures mark { C.mark c.new ≡ C.mark c.old }
{
    for at in 0..events.len() {
        write_event(writer, alloc, c, &events[at], known_of(known, at))?;
    }
    Ok(())
}

// What is known of the rows of the event at this place: nothing but of the first.
fn known_of(known: &[Option<u32>], at: usize) -> &[Option<u32>]
    ensures { result.now ≡ (if at == 0 then known.now else []) }
{
    if at == 0 { known } else { &[] }
}

// Appends the step of an event.
fn write_event<C: GrowCells>(
    writer: &mut NodeWriter,
    alloc: Global,
    c: &mut C,
    event: &Event,
    known: &[Option<u32>],
) -> Result<(), Memory>
    requires stands { writing.Stands writer.old (C.limits c.old) (C.cells c.old) }
    requires follows { CanFollow (C.limits c.old) (C.cells c.old).steps (step_of event.now ∷ []) }
    requires known { AreKnown 0 (names_in writer.old) (event_rows event.now) known.now }
    ensures stands { OnOk result (writing.Stands writer.new (C.limits c.new) (C.cells c.new)) }
    ensures steps { OnOk result ((C.cells c.new).steps ≡ (C.cells c.old).steps ++ step_of event.now ∷ []) }
    ensures err { OnErr result ((C.cells c.new).steps ≡ (C.cells c.old).steps) }
    ensures limits { C.limits c.new ≡ C.limits c.old }
    ensures mark { C.mark c.new ≡ C.mark c.old }
{
    match event {
        Event::Node {
            row,
            attributes,
            declarations: _,
            uris: _,
            line: _,
        } => writer.node(alloc, c, row, attributes.as_slice(), known),
        Event::Shut => {
            writer.shut(c);
            Ok(())
        }
    }
}
