// The flaws of names, and what a line is judged by beside what the checker counts.
ghost use Rattle.std.specs.Prelude.{◌≡◌, ◌++◌, ◌<◌, ◌^◌, ℕ, None, Some, OnOk, IfOk, IfErr, if◌then◌else◌, nat_lt};
ghost use Rattle.doc_model.specs.declared.limits.Limits.{Limits};
ghost use Rattle.doc_model.specs.Cells.{Cells};
ghost use Rattle.doc_model.specs.Rows.{rows_of};
ghost use Rattle.node_writer.specs.Stands as writing;
ghost use Rattle.node_writer.specs.Known.{AreApart, AreFound, names_in};
ghost use Rattle.node_writer.specs.New.{AddsNames};
ghost use Rattle.dtm_builder.specs.Judging.{table_names, IsCount, own_rows, is_element, element_rows, started_flaw, flaw_with, kind_with};
ghost use Rattle.dtm_builder.specs.Lines.{data_length};

use crate::names::NameCount;
use doc_model::{Flaw, FlawKind, Kind, Limits};
use node_writer::{NewNames, NodeWriter};
use pyx_events::{Event, Events};
use pyx_lines::Line;

/// What the line's own node adds to the names: an instruction its target, if that is new.
pub(crate) fn own_names(writer: &NodeWriter, line: &Line) -> NewNames
    ensures { (limits : Limits) (cells : Cells) → writing.Stands writer.now limits cells → AddsNames (rows_of cells.steps) (own_rows line.now) result }
{
    let none = NewNames { count: 0, bytes: 0 };
    match line {
        Line::Instruction { target, value: _ } => {
            if writer.is_new_name(Kind::Instruction, &[], target.as_slice()) {
                NewNames {
                    count: 1,
                    bytes: target.len() as u64,
                }
            } else {
                none
            }
        }
        Line::Start(_) | Line::End(_) | Line::Text(_) => none,
        Line::Attr { .. } | Line::Comment(_) | Line::Passed => none,
    }
}

/// The names after the element that stands first among these events, if one does, or the flaw of its new
/// names, where the values have this many bytes. `found` is what the table has of its names.
pub(crate) fn judge_element(
    writer: &NodeWriter,
    names: NameCount,
    limits: &Limits,
    events: &Events,
    found: &[Option<u32>],
    values: u64,
) -> Result<NameCount, Flaw>
    requires small { limits.now.text < 2 ^ 32 }
    requires found { AreFound (names_in writer.now) (element_rows events.now) found.now }
    requires apart { AreApart (element_rows events.now) }
    ensures good { (given : Limits) (cells : Cells) → writing.Stands writer.now given cells → IsCount names (table_names (rows_of cells.steps)) → OnOk result (started_flaw limits.now (rows_of cells.steps) events.now values ≡ None) }
    ensures names { (given : Limits) (cells : Cells) → writing.Stands writer.now given cells → IsCount names (table_names (rows_of cells.steps)) → IfOk result (λ all. IsCount all (table_names (rows_of cells.steps ++ element_rows events.now))) }
    ensures flaw { (given : Limits) (cells : Cells) → writing.Stands writer.now given cells → IsCount names (table_names (rows_of cells.steps)) → IfErr result (λ flaw. started_flaw limits.now (rows_of cells.steps) events.now values ≡ Some flaw) }
{
    match events.get(0) {
        Some(
            Event::Node {
                row,
                attributes,
                declarations: _,
                uris: _,
                line,
            },
        ) => {
            if !is_element(row.kind) {
                return Ok(names);
            }
            let all = names.with(writer.new_names(row, attributes.as_slice(), found));
            match all.flaw(limits, values) {
                Some(kind) => Err(Flaw { line: *line, kind }),
                None => Ok(all),
            }
        }
        Some(Event::Shut) | None => Ok(names),
    }
}

pub(crate) fn is_element(kind: Kind) -> bool
    ensures { result ≡ is_element kind }
{
    kind == Kind::Element
}

/// The flaw of a line's own event with the names counted: too many come before too much text.
pub(crate) fn with_names(flaw: Flaw, many: bool) -> Flaw
    ensures { result ≡ flaw_with many flaw }
{
    let kind = match flaw.kind {
        FlawKind::TooMuchText => {
            if many {
                FlawKind::TooManyNames
            } else {
                FlawKind::TooMuchText
            }
        }
        kind => kind,
    };
    Flaw {
        line: flaw.line,
        kind,
    }
}

/// The bytes of a text line's data: those outside the root element are judged too.
pub(crate) fn data_length(line: &Line) -> u64
    ensures { result ≡ data_length line.now }
{
    match line {
        Line::Text(text) => text.len() as u64,
        Line::Start(_) | Line::End(_) | Line::Passed => 0,
        Line::Attr { .. } | Line::Instruction { .. } | Line::Comment(_) => 0,
    }
}

pub(crate) fn larger(one: u64, other: u64) -> u64
    ensures { result ≡ (if nat_lt one other then other else one) }
{
    if one < other { other } else { one }
}
