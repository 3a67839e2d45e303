// Type numbers that are recalled of the names of an element before these are judged.
ghost use Rattle.std.specs.Prelude.{◌≡◌, ◌+◌, ◌≤◌, ◌∷◌, ℕ, List, Some, IfOk, length, slice_get};
ghost use Rattle.node_writer.specs.Known.{AreFound, AreKnown, IsFound, names_in};
ghost use Rattle.pyx_events.specs.Numbered.{AreNumbered};
ghost use Rattle.dtm_builder.specs.Judging.{element_rows};
ghost use Rattle.dtm_builder.specs.Recalled.{Recalls, IsNumbered, first_rows};

use crate::judging::is_element;
use doc_model::Row;
use lists::List;
use name_pool::TypeIndex;
use node_writer::NodeWriter;
use pyx_events::{Event, Events};
use std::alloc::{AllocError, Global};

/// What the table has of the names of the element that stands first among these events, if one does: the
/// row's first, then those of its attributes. A name that was found before is found again by the number of
/// its URI, whose bytes aren't read. Fails only for want of memory.
pub(crate) fn recall(
    alloc: Global,
    index: &mut TypeIndex,
    writer: &NodeWriter,
    events: &Events,
) -> Result<List<Option<u32>>, AllocError>
    requires { (uris : List (List ℕ)) × IsNumbered uris events.now }
    ensures found { (uris : List (List ℕ)) → Recalls index.old uris (names_in writer.now) → IsNumbered uris events.now → IfOk result (λ found. AreFound (names_in writer.now) (element_rows events.now) found) }
    ensures known { (uris : List (List ℕ)) → Recalls index.old uris (names_in writer.now) → IsNumbered uris events.now → IfOk result (λ found. AreKnown 0 (names_in writer.now) (first_rows events.now) found) }
    ensures recalled { (uris : List (List ℕ)) → Recalls index.old uris (names_in writer.now) → IsNumbered uris events.now → Recalls index.new uris (names_in writer.now) }
{
    match events.get(0) {
        Some(
            Event::Node {
                row,
                attributes,
                declarations: _,
                uris,
                line: _,
            },
        ) => {
            if !is_element(row.kind) {
                return Ok(List::new(alloc));
            }
            recall_rows(
                alloc,
                index,
                writer,
                row,
                attributes.as_slice(),
                uris.as_slice(),
            )
        }
        Some(Event::Shut) | None => Ok(List::new(alloc)),
    }
}

// What the table has of the names of these rows, whose URIs have these numbers.
fn recall_rows(
    alloc: Global,
    index: &mut TypeIndex,
    writer: &NodeWriter,
    row: &Row,
    attributes: &[Row],
    numbers: &[u32],
) -> Result<List<Option<u32>>, AllocError>
    requires { length numbers.now ≡ length attributes.now + 1 }
    ensures found { (uris : List (List ℕ)) → Recalls index.old uris (names_in writer.now) → AreNumbered uris (row.now ∷ attributes.now) numbers.now → IfOk result (λ found. AreFound (names_in writer.now) (row.now ∷ attributes.now) found) }
    ensures recalled { (uris : List (List ℕ)) → Recalls index.old uris (names_in writer.now) → AreNumbered uris (row.now ∷ attributes.now) numbers.now → Recalls index.new uris (names_in writer.now) }
{
    let mut found = List::from_vec(Vec::with_capacity(alloc, numbers.len())?);
    for at in 0..numbers.len() {
        let one = recall_name(
            alloc,
            index,
            writer,
            row_at(row, attributes, at),
            numbers[at],
        )?;
        found.push(one)?;
    }
    Ok(found)
}

// The row, or an attribute behind it.
fn row_at<'a>(row: &'a Row, attributes: &'a [Row], at: usize) -> &'a Row
    requires { at ≤ length attributes.now }
    ensures { slice_get (row.now ∷ attributes.now) at ≡ Some result.now }
{
    if at == 0 { row } else { &attributes[at - 1] }
}

// What the table has of a row's name, whose URI has this number; what is found anew is kept.
fn recall_name(
    alloc: Global,
    index: &mut TypeIndex,
    writer: &NodeWriter,
    row: &Row,
    number: u32,
) -> Result<Option<u32>, AllocError>
    ensures found { (uris : List (List ℕ)) → Recalls index.old uris (names_in writer.now) → slice_get uris number ≡ Some row.now.uri → IfOk result (λ found. IsFound (names_in writer.now) row.now found) }
    ensures recalled { (uris : List (List ℕ)) → Recalls index.old uris (names_in writer.now) → slice_get uris number ≡ Some row.now.uri → Recalls index.new uris (names_in writer.now) }
{
    match index.find(row.kind, number, row.local.as_slice()) {
        Some(known) => Ok(Some(known)),
        None => {
            let found = writer.type_number(row);
            match found {
                Some(known) => {
                    index.keep(alloc, row.kind, number, row.local.as_slice(), known)?;
                    Ok(Some(known))
                }
                None => Ok(None),
            }
        }
    }
}
