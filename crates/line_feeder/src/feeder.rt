ghost use Rattle.std.specs.Prelude.{◌≡◌, ◌+◌, ◌<◌, ◌≤◌, ◌^◌, ℕ, List, [], ◌∷◌, Option, Some, None, IsTrue, IfOk, IfSome, length};
ghost use Rattle.doc_model.specs.declared.flaw.Flaw.{Flaw};
ghost use Rattle.doc_model.specs.Cells.{empty_cells};
ghost use Rattle.doc_model.specs.Lawful.{Grows};
ghost use Rattle.edge.specs.Causes.{Rose};
ghost use Rattle.pyx_lines.specs.declared.line.Line.{Line};
ghost use Rattle.pyx_source.specs.Moving.{ReadsOnlyForALine};
ghost use Rattle.line_feeder.specs.declared.fed.Fed.TheVariants as variant;

use crate::answering::{build_end, build_line, start_builder, stop};
use crate::fed::Fed;
use doc_model::{GrowCells, Limits};
use dtm_builder::{Builder, flawless_lines_begin_a_source, what_is_read_is_readable};
use edge::{Memory, Source};
use pyx_source::LineReader;
use std::alloc::Global;

/// Feeds the lines of one source into one table. Every call is to be given the same source, and the same
/// table, made with the same limits and grown by nothing else.
#[derive(Drop)]
pub struct Feeder {
    reader: LineReader,
    builder: Builder,
    // the answer that is given for good
    answer: Option<Fed>,
    ghost lasting: { answer ≡ Some variant.Line → ⊥ },
}

impl Feeder {
    ghost use Rattle.line_feeder.specs.Standing.{HasFilled, HasBeenFed, CanFeed, answer_of, lines_read, held_by, met_end};
    ghost use Rattle.line_feeder.specs.Feeding.{for_good, FindsEnd, FindsFlaw, Fails, Starves};
    ghost use Rattle.line_feeder.specs.Answering.{FeedIs};
    ghost use Rattle.line_feeder.specs.Reads.{HasReadFor};

    /// A feeder that has read nothing yet, for an empty table with these limits. Fails only for want of
    /// memory.
    pub fn start(alloc: Global, limits: Limits) -> Result<Feeder, Memory>
        requires rows { 1 ≤ limits.rows }
        requires names { limits.names ≤ 65536 }
        requires text { limits.text < 2 ^ 32 }
        ensures fed { IfOk result (λ feeder. (told : Option (List ℕ)) → HasBeenFed feeder limits empty_cells told told []) }
        ensures fills { IfOk result (λ feeder. CanFeed feeder limits empty_cells) }
    {
        let reader = LineReader::start(alloc)?;
        let builder = start_builder(alloc, limits)?;
        Ok(Feeder {
            reader,
            builder,
            answer: None,
        })
    }

    /// Reads one line and appends the steps that it gives; the end of the source is found by the feed after
    /// the last line. Each answer but Line is given for good, with nothing read and nothing appended. Costs
    /// in the order of the line's bytes, and where the line completes a start, of that element's attribute
    /// lines.
    ///
    /// Flawed comes exactly at the first flaw, Failed only where the source failed: then every line that
    /// ends in the bytes read was fed. The table then ends as Bad or Failed, and for want of memory as
    /// Starved. It reads only while what is held has no line feed, and nothing after the source's end, a
    /// flaw or a failed read.
    pub fn feed<S: Source, C: GrowCells>(
        &mut self,
        alloc: Global,
        source: &mut S,
        table: &mut C,
    ) -> Fed
        requires { CanFeed self.old (C.limits table.old) (C.cells table.old) }

        // What is fed, and what is found.
        ensures line { (told : Option (List ℕ)) (lines : List Line) → HasBeenFed self.old (C.limits table.old) (C.cells table.old) told (S.left source.old) lines →
            result ≡ Fed.Line → (line : Line) × HasBeenFed self.new (C.limits table.new) (C.cells table.new) told (S.left source.new) (line ∷ lines) }
        ensures ended { (told : Option (List ℕ)) (lines : List Line) → HasBeenFed self.old (C.limits table.old) (C.cells table.old) told (S.left source.old) lines →
            result ≡ Fed.Ended → FindsEnd (C.limits table.old) told (S.left source.new) lines (C.cells table.old).steps (C.cells table.new).steps }
        ensures flawed { (told : Option (List ℕ)) (lines : List Line) (flaw : Flaw) → HasBeenFed self.old (C.limits table.old) (C.cells table.old) told (S.left source.old) lines →
            result ≡ Fed.Flawed flaw → FindsFlaw (C.limits table.old) told lines flaw (C.cells table.old).steps (C.cells table.new).steps }
        ensures failed { (told : Option (List ℕ)) (lines : List Line) → HasBeenFed self.old (C.limits table.old) (C.cells table.old) told (S.left source.old) lines →
            result ≡ Fed.Failed → Fails (C.limits table.old) told (S.left source.new) lines (C.cells table.old).steps (C.cells table.new).steps }
        ensures rose { answer_of self.old ≡ None → result ≡ Fed.Failed → Rose (S.faults source.old) (S.faults source.new) }
        ensures starved { (told : Option (List ℕ)) (lines : List Line) → HasBeenFed self.old (C.limits table.old) (C.cells table.old) told (S.left source.old) lines →
            result ≡ Fed.Memory → Starves (C.limits table.old) told (C.cells table.old).steps (C.cells table.new).steps }

        // Each answer but Line is given for good.
        ensures kept { answer_of self.new ≡ for_good result }
        ensures for_good { IfSome (answer_of self.old) (λ fed. (result ≡ fed) × (self.new ≡ self.old) × (source.new ≡ source.old) × (table.new ≡ table.old)) }

        // What it reads.
        ensures reads { ReadsOnlyForALine (lines_read self.old) (held_by self.old) (S.left source.old) (S.left source.new) }
        ensures asked { (told : Option (List ℕ)) (lines : List Line) → HasBeenFed self.old (C.limits table.old) (C.cells table.old) told (S.left source.old) lines →
            HasReadFor told (S.left source.new) (length lines + 1) }
        ensures over { IsTrue (met_end self.old) → source.new ≡ source.old }
        ensures counted { result ≡ Fed.Line → (lines_read self.new ≡ lines_read self.old + 1) × (lines_read self.new ≤ 4294967295) }

        // The next feed, the table and the source.
        ensures fills { CanFeed self.new (C.limits table.new) (C.cells table.new) }
        ensures grows { Grows (C.cells table.old).steps (C.cells table.new).steps }
        ensures limits { C.limits table.new ≡ C.limits table.old }
        ensures mark { C.mark table.new ≡ C.mark table.old }
        ensures later { S.faults source.old ≤ S.faults source.new }
    {
        if let Some(fed) = self.answer {
            return fed;
        }
        let fed = self.advance(alloc, source, table);
        self.answer = fed.for_good();
        fed
    }

    // Reads the next line and has it built, or ends the table.
    fn advance<S: Source, C: GrowCells>(
        &mut self,
        alloc: Global,
        source: &mut S,
        table: &mut C,
    ) -> Fed
        requires going { answer_of self.old ≡ None }
        requires fills { CanFeed self.old (C.limits table.old) (C.cells table.old) }
        ensures line { (told : Option (List ℕ)) (lines : List Line) → HasBeenFed self.old (C.limits table.old) (C.cells table.old) told (S.left source.old) lines →
            result ≡ Fed.Line → (line : Line) × HasBeenFed self.new (C.limits table.new) (C.cells table.new) told (S.left source.new) (line ∷ lines) }
        ensures filled { result ≡ Fed.Line → (lines : List Line) × HasFilled self.new (C.limits table.new) (C.cells table.new) lines }
        ensures answer { (told : Option (List ℕ)) (lines : List Line) → HasBeenFed self.old (C.limits table.old) (C.cells table.old) told (S.left source.old) lines →
            FeedIs (C.limits table.old) told (S.left source.new) lines (C.cells table.old).steps (C.cells table.new).steps result }
        ensures rose { result ≡ Fed.Failed → Rose (S.faults source.old) (S.faults source.new) }
        ensures reads { ReadsOnlyForALine (lines_read self.old) (held_by self.old) (S.left source.old) (S.left source.new) }
        ensures asked { (told : Option (List ℕ)) (lines : List Line) → HasBeenFed self.old (C.limits table.old) (C.cells table.old) told (S.left source.old) lines →
            HasReadFor told (S.left source.new) (length lines + 1) }
        ensures over { IsTrue (met_end self.old) → source.new ≡ source.old }
        ensures counted { result ≡ Fed.Line → (lines_read self.new ≡ lines_read self.old + 1) × (lines_read self.new ≤ 4294967295) }
        ensures grows { Grows (C.cells table.old).steps (C.cells table.new).steps }
        ensures limits { C.limits table.new ≡ C.limits table.old }
        ensures mark { C.mark table.new ≡ C.mark table.old }
        ensures later { S.faults source.old ≤ S.faults source.new }
    {
        flawless_lines_begin_a_source();
        what_is_read_is_readable();
        match self.reader.next(alloc, source) {
            Ok(Some(line)) => build_line(&mut self.builder, table, alloc, line),
            Ok(None) => build_end(&mut self.builder, table, alloc),
            Err(error) => stop(&mut self.builder, table, error, self.reader.line()),
        }
    }

    /// Gives up for want of memory elsewhere: Memory is answered from then on, with nothing read and nothing
    /// appended. The table stays as it is.
    pub fn starve(&mut self)
        ensures kept { answer_of self.new ≡ Some Fed.Memory }
    {
        self.answer = Some(Fed::Memory);
    }

    /// Whether Memory is answered from now on.
    pub fn has_starved(&self) -> bool
        ensures yes { IsTrue result → answer_of self.now ≡ Some Fed.Memory }
        ensures no { answer_of self.now ≡ Some Fed.Memory → IsTrue result }
    {
        matches!(self.answer, Some(Fed::Memory))
    }
}
