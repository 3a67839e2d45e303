ghost use Rattle.std.specs.Prelude.{false, ◌≡◌, ◌+◌, ◌<◌, ◌≤◌, ◌^◌, ◌++◌, ◌∷◌, [], List, length, nat_lt, None, Some, Err, IfOk, OnOk, IfErr, OnErr};
ghost use Rattle.doc_model.specs.declared.limits.Limits.{Limits};
ghost use Rattle.doc_model.specs.declared.step.Step.{Step};
ghost use Rattle.doc_model.specs.declared.step.Step.TheVariants.{End};
ghost use Rattle.doc_model.specs.declared.step.Verdict.TheVariants.{Good};
ghost use Rattle.doc_model.specs.Cells.{Cells, empty_cells};
ghost use Rattle.doc_model.specs.Document.{document_of};
ghost use Rattle.pyx_lines.specs.declared.line.Line.{Line};
ghost use Rattle.doc_model.specs.Rows.{rows_of};
ghost use Rattle.node_writer.specs.Stands as writing;
ghost use Rattle.pyx_events.specs.Checking as checking;
ghost use Rattle.pyx_events.specs.Counted.{Names, names_of};
ghost use Rattle.pyx_events.specs.Flaw.{at_line, or_flaw, names_flaw, line_flaw, end_flaw};
ghost use Rattle.pyx_events.specs.Nodes.{line_events, events_to};
ghost use Rattle.pyx_events.specs.Steps.{steps_of_events};
ghost use Rattle.node_writer.specs.Known.{AreApart, AreFound, AreKnown, names_in};
ghost use Rattle.pyx_events.specs.Before.{uris_to};
ghost use Rattle.dtm_builder.specs.Recalled.{Recalls, first_rows};
ghost use Rattle.dtm_builder.specs.Judging.{table_names, IsCount, Adds, element_rows, started_flaw, flaw_with, verdict_of};
ghost use Rattle.dtm_builder.specs.Lines.{IsReadable, line_steps};
ghost use Rattle.dtm_builder.specs.Standing.{CanFollow, Stands, Counts, HasTaken, IsSameBut, IsRefused, CanTake, CanEnd, HasAppended, IsFlawOf, Refuses, CanStop};
ghost use Rattle.dtm_builder.specs.declared.build_error.BuildError.{BuildError};

use crate::build_error::BuildError;
use crate::judging::{data_length, judge_element, larger, own_names, with_names};
use crate::names::NameCount;
use crate::recall::recall;
use crate::steps::write_events;
use doc_model::{Flaw, GrowCells, Limits, Verdict};
use lists::List;
use name_pool::{Memory, TypeIndex};
use node_writer::{NewNames, NodeWriter};
use pyx_events::{Checker, EventError, Events};
use pyx_lines::Line;
use std::alloc::Global;

// A line's events, the names after them, and what the table has of the names of the first.
#[derive(Drop)]
struct Judged {
    events: Events,
    names: NameCount,
    found: List<Option<u32>>,
}

/// Builds a table from the lines of a source, one after the other: judges each, its names and their bytes
/// counted, and writes what it gives. The table is the same at each call, made with the same limits, and
/// grown by nothing else.
#[derive(Drop)]
pub struct Builder {
    checker: Checker,
    writer: NodeWriter,
    // names of the table by the numbers of their URIs
    index: TypeIndex,
    limits: Limits,
    // the names of the table
    names: NameCount,
    // how many lines have been taken
    lines: u64,
    refusal: Option<BuildError>,
}

impl Builder {
    /// A builder for an empty table with these limits. Fails only for want of memory.
    pub fn start(alloc: Global, limits: Limits) -> Result<Builder, Memory>
        requires rows { 1 ≤ limits.rows }
        requires names { limits.names ≤ 65536 }
        requires text { limits.text < 2 ^ 32 }
        ensures { IfOk result (λ builder. Stands builder limits empty_cells []) }
    {
        let checker = match Checker::start(alloc, limits) {
            Ok(checker) => checker,
            Err(_) => return Err(Memory),
        };
        let writer = NodeWriter::start(alloc, limits)?;
        Ok(Builder {
            checker,
            writer,
            index: TypeIndex::new(alloc),
            limits,
            names: NameCount { count: 0, bytes: 0 },
            lines: 0,
            refusal: None,
        })
    }

    /// Takes the next line: appends the steps that it gives. At the first flaw the table ends as Bad with
    /// it, and for want of memory as Starved; what was appended before stays. A refusal is given for good.
    /// Costs in the order of the line's bytes, where the line completes a start also of that element's
    /// attribute lines, each times a logarithm, however long the URIs in scope are: a URI's bytes are read
    /// where it is declared, and where a name is new to the table, which counts and keeps them, or is seen
    /// for the second time.
    pub fn line<C: GrowCells>(
        &mut self,
        alloc: Global,
        c: &mut C,
        line: Line,
    ) -> Result<(), BuildError>
        requires readable { IsReadable line }
        requires room { CanTake 4294967295 self.old (C.limits c.old) (C.cells c.old) }
        ensures good { (before : List Line) → Stands self.old (C.limits c.old) (C.cells c.old) before → OnOk result (line_flaw (C.limits c.old) false before line ≡ None) }
        ensures taken { (before : List Line) → Stands self.old (C.limits c.old) (C.cells c.old) before → OnOk result (Stands self.new (C.limits c.new) (C.cells c.new) (line ∷ before)) }
        ensures steps { (before : List Line) → Stands self.old (C.limits c.old) (C.cells c.old) before → OnOk result ((C.cells c.new).steps ≡ (C.cells c.old).steps ++ steps_of_events (line_events before line)) }
        ensures flaw { (before : List Line) → Stands self.old (C.limits c.old) (C.cells c.old) before → IfErr result (λ error. IsFlawOf (line_flaw (C.limits c.old) false before line) error) }
        ensures ended { (before : List Line) → Stands self.old (C.limits c.old) (C.cells c.old) before → IfErr result (λ error. Refuses (C.cells c.old).steps (line_steps (C.limits c.old) before line) (C.cells c.new).steps error) }
        ensures refused { IfErr result (λ error. IsRefused self.new error) }
        ensures repeated { (error : BuildError) → IsRefused self.old error → result ≡ Err error }
        ensures still { (error : BuildError) → IsRefused self.old error → C.cells c.new ≡ C.cells c.old }
        ensures limits { C.limits c.new ≡ C.limits c.old }
        ensures mark { C.mark c.new ≡ C.mark c.old }
    {
        if let Some(error) = self.refusal {
            return Err(error);
        }
        match self.take(alloc, c, line) {
            Ok(_) => Ok(()),
            Err(error) => {
                self.refuse(c, error);
                Err(error)
            }
        }
    }

    /// Takes the input's end: the table ends as Good where the source has no flaw, else as Bad with the
    /// first, or for want of memory as Starved. A refusal is given for good. Nothing is called after an Ok.
    pub fn close<C: GrowCells>(&mut self, alloc: Global, c: &mut C) -> Result<(), BuildError>
        requires { CanTake 4294967296 self.old (C.limits c.old) (C.cells c.old) }
        ensures good { (before : List Line) → Stands self.old (C.limits c.old) (C.cells c.old) before → OnOk result (end_flaw (C.limits c.old) false before ≡ None) }
        ensures whole { (before : List Line) → Stands self.old (C.limits c.old) (C.cells c.old) before → OnOk result ((C.cells c.new).steps ≡ (C.cells c.old).steps ++ End Good ∷ []) }
        ensures flaw { (before : List Line) → Stands self.old (C.limits c.old) (C.cells c.old) before → IfErr result (λ error. IsFlawOf (end_flaw (C.limits c.old) false before) error) }
        ensures ended { (before : List Line) → Stands self.old (C.limits c.old) (C.cells c.old) before → IfErr result (λ error. Refuses (C.cells c.old).steps [] (C.cells c.new).steps error) }
        ensures refused { IfErr result (λ error. IsRefused self.new error) }
        ensures repeated { (error : BuildError) → IsRefused self.old error → result ≡ Err error }
        ensures still { (error : BuildError) → IsRefused self.old error → C.cells c.new ≡ C.cells c.old }
        ensures limits { C.limits c.new ≡ C.limits c.old }
        ensures mark { C.mark c.new ≡ C.mark c.old }
    {
        if let Some(error) = self.refusal {
            return Err(error);
        }
        match self.judge_end(alloc) {
            Ok(_) => {
                self.writer.finish(c, Verdict::Good);
                Ok(())
            }
            Err(error) => {
                self.refuse(c, error);
                Err(error)
            }
        }
    }

    /// Ends the table with what its caller found, any verdict but Good. Comes at most once, and not after a
    /// refusal or an Ok of `close`; nothing is called after it. Takes no memory.
    pub fn stop<C: GrowCells>(&mut self, c: &mut C, verdict: Verdict)
        requires stands { (before : List Line) × Stands self.old (C.limits c.old) (C.cells c.old) before }
        requires may { CanStop verdict }
        ensures steps { (C.cells c.new).steps ≡ (C.cells c.old).steps ++ End verdict ∷ [] }
        ensures limits { C.limits c.new ≡ C.limits c.old }
        ensures mark { C.mark c.new ≡ C.mark c.old }
    {
        self.writer.finish(c, verdict);
    }

    // Ends the table for this reason, which is given from then on.
    fn refuse<C: GrowCells>(&mut self, c: &mut C, error: BuildError)
        requires { CanEnd (C.cells c.old).steps error }
        ensures steps { (C.cells c.new).steps ≡ (C.cells c.old).steps ++ End (verdict_of error) ∷ [] }
        ensures refused { IsRefused self.new error }
        ensures limits { C.limits c.new ≡ C.limits c.old }
        ensures mark { C.mark c.new ≡ C.mark c.old }
    {
        self.refusal = Some(error);
        self.writer.finish(c, error.verdict());
    }

    // Judges the line, and appends its steps where it has no flaw.
    fn take<C: GrowCells>(&mut self, alloc: Global, c: &mut C, line: Line) -> Result<(), BuildError>
        requires readable { IsReadable line }
        requires stands { (before : List Line) × Stands self.old (C.limits c.old) (C.cells c.old) before × (length before < 4294967295) }
        ensures good { (before : List Line) → Stands self.old (C.limits c.old) (C.cells c.old) before → OnOk result (line_flaw (C.limits c.old) false before line ≡ None) }
        ensures taken { (before : List Line) → Stands self.old (C.limits c.old) (C.cells c.old) before → OnOk result (Stands self.new (C.limits c.new) (C.cells c.new) (line ∷ before)) }
        ensures steps { (before : List Line) → Stands self.old (C.limits c.old) (C.cells c.old) before → OnOk result ((C.cells c.new).steps ≡ (C.cells c.old).steps ++ steps_of_events (line_events before line)) }
        ensures flaw { (before : List Line) → Stands self.old (C.limits c.old) (C.cells c.old) before → IfErr result (λ error. IsFlawOf (line_flaw (C.limits c.old) false before line) error) }
        ensures appended { (before : List Line) → Stands self.old (C.limits c.old) (C.cells c.old) before → IfErr result (λ error. HasAppended (C.cells c.old).steps (line_steps (C.limits c.old) before line) (C.cells c.new).steps error) }
        ensures may { IfErr result (λ error. CanEnd (C.cells c.new).steps error) }
        ensures limits { C.limits c.new ≡ C.limits c.old }
        ensures mark { C.mark c.new ≡ C.mark c.old }
    {
        match self.judge(alloc, line) {
            Ok(judged) => match self.write(alloc, c, judged) {
                Ok(_) => Ok(()),
                Err(_) => Err(BuildError::Memory),
            },
            Err(error) => Err(error),
        }
    }

    // Appends the steps of a line that has no flaw.
    fn write<C: GrowCells>(
        &mut self,
        alloc: Global,
        c: &mut C,
        judged: Judged,
    ) -> Result<(), Memory>
        requires few { self.old.lines < 4294967295 }
        requires stands { writing.Stands self.old.writer (C.limits c.old) (C.cells c.old) }
        requires follows { CanFollow (C.limits c.old) (C.cells c.old).steps (steps_of_events judged.events) }
        requires known { AreKnown 0 (names_in self.old.writer) (first_rows judged.events) judged.found }
        ensures written { OnOk result (writing.Stands self.new.writer (C.limits c.new) (C.cells c.new)) }
        ensures steps { OnOk result ((C.cells c.new).steps ≡ (C.cells c.old).steps ++ steps_of_events judged.events) }
        ensures taken { OnOk result (HasTaken judged self.old self.new) }
        ensures made { OnErr result ((made left : List Step) × (made ++ left ≡ steps_of_events judged.events) × ((C.cells c.new).steps ≡ (C.cells c.old).steps ++ made)) }
        ensures going { OnErr result ((document_of (C.cells c.new).steps).ended ≡ None) }
        ensures limits { C.limits c.new ≡ C.limits c.old }
        ensures mark { C.mark c.new ≡ C.mark c.old }
    {
        let Judged {
            events,
            names,
            found,
        } = judged;
        match write_events(
            &mut self.writer,
            alloc,
            c,
            events.as_slice(),
            found.as_slice(),
        ) {
            Ok(_) => {
                self.names = names;
                self.lines += 1;
                Ok(())
            }
            Err(_) => Err(Memory),
        }
    }

    // Judges the line, and gives its events. What is kept of the table stays as it was.
    fn judge(&mut self, alloc: Global, line: Line) -> Result<Judged, BuildError>
        requires { (limits : Limits) × (cells : Cells) × (before : List Line) × Stands self.old limits cells before × (length before < 4294967295) }
        ensures good { (limits : Limits) (cells : Cells) (before : List Line) → Stands self.old limits cells before → OnOk result (line_flaw limits false before line ≡ None) }
        ensures events { (limits : Limits) (cells : Cells) (before : List Line) → Stands self.old limits cells before → IfOk result (λ judged. judged.events ≡ line_events before line) }
        ensures names { (limits : Limits) (cells : Cells) (before : List Line) → Stands self.old limits cells before → IfOk result (λ judged. IsCount judged.names (names_of false (events_to (line ∷ before)))) }
        ensures checked { (limits : Limits) (cells : Cells) (before : List Line) → Stands self.old limits cells before → OnOk result (checking.Stands limits self.new.checker (line ∷ before)) }
        ensures flaw { (limits : Limits) (cells : Cells) (before : List Line) → Stands self.old limits cells before → IfErr result (λ error. IsFlawOf (line_flaw limits false before line) error) }
        ensures known { (limits : Limits) (cells : Cells) (before : List Line) → Stands self.old limits cells before → IfOk result (λ judged. AreKnown 0 (names_in self.old.writer) (first_rows judged.events) judged.found) }
        ensures recalled { (limits : Limits) (cells : Cells) (before : List Line) → Stands self.old limits cells before → OnOk result (Recalls self.new.index (uris_to before) (names_in self.old.writer)) }
        ensures same { IsSameBut self.old self.new }
    {
        let own = own_names(&self.writer, &line);
        let text = self.checker.text();
        let data = text.saturating_add(data_length(&line));
        match self.checker.line(alloc, line) {
            Ok(events) => {
                let values = larger(self.checker.text(), data);
                let found = recall(alloc, &mut self.index, &self.writer, &events)?;
                match self.judge_names(&events, found.as_slice(), own, text, values) {
                    Ok(names) => Ok(Judged {
                        events,
                        names,
                        found,
                    }),
                    Err(error) => Err(error),
                }
            }
            Err(EventError::Refused { flaw, completed }) => {
                let found = recall(alloc, &mut self.index, &self.writer, &completed)?;
                Err(self.judge_refused(flaw, &completed, found.as_slice(), own, text))
            }
            Err(EventError::Memory) => Err(BuildError::Memory),
        }
    }

    // The names after these events, or the first flaw of names: that of an element's, where the values have
    // `text` bytes before the line, or that of the line's own, where they have `values` bytes with it.
    fn judge_names(
        &self,
        events: &Events,
        found: &[Option<u32>],
        own: NewNames,
        text: u64,
        values: u64,
    ) -> Result<NameCount, BuildError>
        requires few { self.now.lines < 4294967295 }
        requires small { self.now.limits.text < 2 ^ 32 }
        requires found { AreFound (names_in self.now.writer) (element_rows events.now) found.now }
        requires apart { AreApart (element_rows events.now) }
        ensures element { (limits : Limits) (cells : Cells) → Counts self.now limits cells → OnOk result (started_flaw limits (rows_of cells.steps) events.now text ≡ None) }
        ensures good { (limits : Limits) (cells : Cells) (all : Names) → Counts self.now limits cells → Adds (table_names (rows_of cells.steps ++ element_rows events.now)) own all → OnOk result (names_flaw limits all values ≡ None) }
        ensures names { (limits : Limits) (cells : Cells) (all : Names) → Counts self.now limits cells → Adds (table_names (rows_of cells.steps ++ element_rows events.now)) own all → IfOk result (λ names. IsCount names all) }
        ensures flaw { (limits : Limits) (cells : Cells) (all : Names) → Counts self.now limits cells → Adds (table_names (rows_of cells.steps ++ element_rows events.now)) own all → IfErr result (λ error. IsFlawOf (or_flaw (started_flaw limits (rows_of cells.steps) events.now text) (at_line (self.now.lines + 1) (names_flaw limits all values) None)) error) }
    {
        let started = match judge_element(
            &self.writer,
            self.names,
            &self.limits,
            events,
            found,
            text,
        ) {
            Ok(started) => started,
            Err(flaw) => return Err(BuildError::Refused(flaw)),
        };
        let all = started.with(own);
        match all.flaw(&self.limits, values) {
            Some(kind) => Err(BuildError::Refused(Flaw {
                line: self.lines + 1,
                kind,
            })),
            None => Ok(all),
        }
    }

    // The flaw that comes first: that of the names of a start which was completed without another flaw, or
    // that of the line, with its names counted.
    fn judge_refused(
        &self,
        flaw: Flaw,
        completed: &Events,
        found: &[Option<u32>],
        own: NewNames,
        text: u64,
    ) -> BuildError
        requires small { self.now.limits.text < 2 ^ 32 }
        requires found { AreFound (names_in self.now.writer) (element_rows completed.now) found.now }
        requires apart { AreApart (element_rows completed.now) }
        ensures { (limits : Limits) (cells : Cells) (all : Names) → Counts self.now limits cells → Adds (table_names (rows_of cells.steps ++ element_rows completed.now)) own all → IsFlawOf (or_flaw (started_flaw limits (rows_of cells.steps) completed.now text) (Some (flaw_with (nat_lt limits.names all.count) flaw))) result }
    {
        match judge_element(
            &self.writer,
            self.names,
            &self.limits,
            completed,
            found,
            text,
        ) {
            Ok(started) => {
                let many = started.with(own).is_over(&self.limits);
                BuildError::Refused(with_names(flaw, many))
            }
            Err(first) => BuildError::Refused(first),
        }
    }

    // The flaw of the input's end, or want of memory. What is kept of the table stays as it was.
    fn judge_end(&mut self, alloc: Global) -> Result<(), BuildError>
        requires { (limits : Limits) × (cells : Cells) × (before : List Line) × Stands self.old limits cells before × (length before < 4294967296) }
        ensures good { (limits : Limits) (cells : Cells) (before : List Line) → Stands self.old limits cells before → OnOk result (end_flaw limits false before ≡ None) }
        ensures flaw { (limits : Limits) (cells : Cells) (before : List Line) → Stands self.old limits cells before → IfErr result (λ error. IsFlawOf (end_flaw limits false before) error) }
        ensures same { IsSameBut self.old self.new }
    {
        let text = self.checker.text();
        match self.checker.close(alloc) {
            Ok(_) => Ok(()),
            Err(EventError::Refused { flaw, completed }) => {
                let found = recall(alloc, &mut self.index, &self.writer, &completed)?;
                match judge_element(
                    &self.writer,
                    self.names,
                    &self.limits,
                    &completed,
                    found.as_slice(),
                    text,
                ) {
                    Ok(_) => Err(BuildError::Refused(flaw)),
                    Err(first) => Err(BuildError::Refused(first)),
                }
            }
            Err(EventError::Memory) => Err(BuildError::Memory),
        }
    }
}
