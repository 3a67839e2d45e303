ghost use Rattle.std.specs.Prelude.{◌≡◌, ℕ, [], ◌++◌, false, List, Result, Ok};
ghost use Rattle.doc_model.specs.declared.limits.Limits.{Limits};
ghost use Rattle.pyx_lines.specs.declared.line.Line.{Line};
ghost use Rattle.pyx_lines.specs.Lines.{Refusal};
ghost use Rattle.pyx_lines.specs.Spelling.{line_of};
ghost use Rattle.pyx_events.specs.Flaw.{flaw_from};
ghost use Rattle.pyx_events.specs.Nodes.{events_to};
ghost use Rattle.pyx_events.specs.Steps.{steps_of_events, steps_through, steps_from};
ghost use Rattle.pyx_events.specs.Judged.{in_source};
ghost use Rattle.dtm_builder.specs.Lines.{IsReadable, AreFlawless};

/// What a source begins with, if these lines are its first and none of them has a flaw: its first flaw
/// and the rest of its steps are judged of the lines after them.
pub fn flawless_lines_begin_a_source()
    ensures flaw { (limits : Limits) (before : List Line) (later : List (Result Line Refusal)) → AreFlawless limits before →
        flaw_from limits false [] (in_source before ++ later) ≡ flaw_from limits false before later }
    ensures steps { (limits : Limits) (before : List Line) (later : List (Result Line Refusal)) → AreFlawless limits before →
        steps_from limits [] (in_source before ++ later) ≡ steps_of_events (events_to before) ++ steps_from limits before later }
    ensures through { (limits : Limits) (before : List Line) (later : List (Result Line Refusal)) → AreFlawless limits before →
        steps_through limits [] (in_source before ++ later) ≡ steps_of_events (events_to before) ++ steps_through limits before later }
{}

/// What is read of a line's bytes can be taken: its condition holds of it.
pub fn what_is_read_is_readable()
    ensures { (bytes : List ℕ) (line : Line) → line_of bytes ≡ Ok line → IsReadable line }
{}
