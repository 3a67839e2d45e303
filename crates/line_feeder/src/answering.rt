// What is built of one line, and how the table ends.
ghost use Rattle.std.specs.Prelude.{◌≡◌, ◌≤◌, ◌<◌, ◌^◌, IfOk, ◌++◌, ◌∷◌, [], List, length};
ghost use Rattle.doc_model.specs.Cells.{empty_cells};
ghost use Rattle.doc_model.specs.Lawful.{Grows};
ghost use Rattle.doc_model.specs.declared.step.Step.TheVariants.{End};
ghost use Rattle.pyx_lines.specs.declared.line.Line.{Line};
ghost use Rattle.dtm_builder.specs.Lines.{IsReadable};
ghost use Rattle.dtm_builder.specs.Standing as building;
ghost use Rattle.line_feeder.specs.Answering.{LineIs, EndIs, answer_for, answer_to, verdict_for, flawed};

use crate::fed::Fed;
use doc_model::{Flaw, FlawKind, GrowCells, Limits, Verdict};
use dtm_builder::{BuildError, Builder};
use edge::Memory;
use pyx_lines::{Line, LineError};
use pyx_source::ReadError;
use std::alloc::Global;

/// Has the next line built.
pub fn build_line<C: GrowCells>(
    builder: &mut Builder,
    table: &mut C,
    alloc: Global,
    line: Line,
) -> Fed
    requires readable { IsReadable line }
    requires stands { (before : List Line) × building.Stands builder.old (C.limits table.old) (C.cells table.old) before × (length before < 4294967295) }
    ensures built { (before : List Line) → building.Stands builder.old (C.limits table.old) (C.cells table.old) before → result ≡ Fed.Line → building.Stands builder.new (C.limits table.new) (C.cells table.new) (line ∷ before) }
    ensures answer { (before : List Line) → building.Stands builder.old (C.limits table.old) (C.cells table.old) before → LineIs (C.limits table.old) before line (C.cells table.old).steps (C.cells table.new).steps result }
    ensures grows { Grows (C.cells table.old).steps (C.cells table.new).steps }
    ensures limits { C.limits table.new ≡ C.limits table.old }
    ensures mark { C.mark table.new ≡ C.mark table.old }
{
    match builder.line(alloc, table, line) {
        Ok(()) => Fed::Line,
        Err(error) => answer_for(error),
    }
}

/// Has the source's end built.
pub fn build_end<C: GrowCells>(builder: &mut Builder, table: &mut C, alloc: Global) -> Fed
    requires { (before : List Line) × building.Stands builder.old (C.limits table.old) (C.cells table.old) before × (length before < 4294967296) }
    ensures never { result ≡ Fed.Line → ⊥ }
    ensures answer { (before : List Line) → building.Stands builder.old (C.limits table.old) (C.cells table.old) before → EndIs (C.limits table.old) before (C.cells table.old).steps (C.cells table.new).steps result }
    ensures grows { Grows (C.cells table.old).steps (C.cells table.new).steps }
    ensures limits { C.limits table.new ≡ C.limits table.old }
    ensures mark { C.mark table.new ≡ C.mark table.old }
{
    match builder.close(alloc, table) {
        Ok(()) => Fed::Ended,
        Err(error) => answer_for(error),
    }
}

/// Ends the table where the reader gives no line.
pub fn stop<C: GrowCells>(builder: &mut Builder, table: &mut C, error: ReadError, line: u64) -> Fed
    requires stands { (before : List Line) × building.Stands builder.old (C.limits table.old) (C.cells table.old) before }
    requires bound { line ≤ 4294967296 }
    ensures never { result ≡ Fed.Line → ⊥ }
    ensures answer { result ≡ answer_to error line }
    ensures steps { (C.cells table.new).steps ≡ (C.cells table.old).steps ++ End (verdict_for result) ∷ [] }
    ensures limits { C.limits table.new ≡ C.limits table.old }
    ensures mark { C.mark table.new ≡ C.mark table.old }
{
    match error {
        ReadError::Failed => {
            builder.stop(table, Verdict::Failed);
            Fed::Failed
        }
        ReadError::LongLine => flaw(builder, table, line, FlawKind::LongLine),
        ReadError::TooManyLines => flaw(builder, table, line, FlawKind::TooManyLines),
        ReadError::Line(LineError::NotUtf8) => flaw(builder, table, line, FlawKind::NotUtf8),
        ReadError::Line(LineError::UnknownLine) => {
            flaw(builder, table, line, FlawKind::UnknownLine)
        }
        ReadError::Line(LineError::NoSpace) => flaw(builder, table, line, FlawKind::NoSpace),
        ReadError::Line(LineError::BadName) => flaw(builder, table, line, FlawKind::BadName),
        ReadError::Line(LineError::Memory) | ReadError::Memory => {
            builder.stop(table, Verdict::Starved);
            Fed::Memory
        }
    }
}

// Ends the table with a flaw of this line.
fn flaw<C: GrowCells>(builder: &mut Builder, table: &mut C, line: u64, kind: FlawKind) -> Fed
    requires stands { (before : List Line) × building.Stands builder.old (C.limits table.old) (C.cells table.old) before }
    requires bound { line ≤ 4294967296 }
    ensures answer { result ≡ flawed line kind }
    ensures steps { (C.cells table.new).steps ≡ (C.cells table.old).steps ++ End (verdict_for result) ∷ [] }
    ensures limits { C.limits table.new ≡ C.limits table.old }
    ensures mark { C.mark table.new ≡ C.mark table.old }
{
    let flaw = Flaw { line, kind };
    builder.stop(table, Verdict::Bad(flaw));
    Fed::Flawed(flaw)
}

// The answer to a refusal of the builder.
fn answer_for(error: BuildError) -> Fed
    ensures { result ≡ answer_for error }
{
    match error {
        BuildError::Refused(flaw) => Fed::Flawed(flaw),
        BuildError::Memory => Fed::Memory,
    }
}

/// A builder for an empty table.
pub fn start_builder(alloc: Global, limits: Limits) -> Result<Builder, Memory>
    requires rows { 1 ≤ limits.rows }
    requires names { limits.names ≤ 65536 }
    requires text { limits.text < 2 ^ 32 }
    ensures { IfOk result (λ builder. building.Stands builder limits empty_cells []) }
{
    match Builder::start(alloc, limits) {
        Ok(builder) => Ok(builder),
        Err(_) => Err(Memory),
    }
}
