// The nodes of texts, instructions and comments.
ghost use Rattle.std.specs.Prelude.{◌≡◌, ◌++◌, ◌∷◌, [], IfOk};
ghost use Rattle.pyx_events.specs.Nodes.{text_node, instruction_row, comment_row, plain_node};

use crate::event::{Event, Events};
use doc_model::{Kind, Row};
use lists::List;
use shared_texts::Shared;
use std::alloc::{AllocError, Global};

/// Adds the node of a text; an empty text makes none.
pub fn with_text(
    alloc: Global,
    events: Events,
    depth: u32,
    text: List<u8>,
    line: u64,
) -> Result<Events, AllocError>
    ensures { IfOk result (λ all. all ≡ events ++ text_node depth text line) }
{
    let mut all = events;
    if text.is_empty() {
        return Ok(all);
    }
    all.push(Event::Node {
        row: Row {
            kind: Kind::Text,
            prefix: List::new(alloc),
            uri: Shared::empty(),
            local: List::new(alloc),
            value: text,
            depth,
        },
        attributes: List::new(alloc),
        declarations: List::new(alloc),
        uris: List::new(alloc),
        line,
    })?;
    Ok(all)
}

/// Adds the node of an instruction.
pub fn with_instruction(
    alloc: Global,
    events: Events,
    depth: u32,
    target: List<u8>,
    value: List<u8>,
    line: u64,
) -> Result<Events, AllocError>
    ensures { IfOk result (λ all. all ≡ events ++ plain_node (instruction_row depth target value) line ∷ []) }
{
    let mut all = events;
    all.push(Event::Node {
        row: Row {
            kind: Kind::Instruction,
            prefix: List::new(alloc),
            uri: Shared::empty(),
            local: target,
            value,
            depth,
        },
        attributes: List::new(alloc),
        declarations: List::new(alloc),
        uris: List::new(alloc),
        line,
    })?;
    Ok(all)
}

/// Adds the node of a comment.
pub fn with_comment(
    alloc: Global,
    events: Events,
    depth: u32,
    text: List<u8>,
    line: u64,
) -> Result<Events, AllocError>
    ensures { IfOk result (λ all. all ≡ events ++ plain_node (comment_row depth text) line ∷ []) }
{
    let mut all = events;
    all.push(Event::Node {
        row: Row {
            kind: Kind::Comment,
            prefix: List::new(alloc),
            uri: Shared::empty(),
            local: List::new(alloc),
            value: text,
            depth,
        },
        attributes: List::new(alloc),
        declarations: List::new(alloc),
        uris: List::new(alloc),
        line,
    })?;
    Ok(all)
}
