ghost use Rattle.std.specs.Prelude.{◌≡◌, List, None, drop, map, true, false};
ghost use Rattle.doc_model.specs.declared.limits.Limits.{Limits};
ghost use Rattle.doc_model.specs.Rows.{rows_of};
ghost use Rattle.pyx_events.specs.Flaw.{flaw_of};
ghost use Rattle.pyx_events.specs.Steps.{steps_of};
ghost use Rattle.result_events.specs.declared.event.ResultEvent.{ResultEvent};
ghost use Rattle.result_events.specs.Tidy.{tidy_of};
ghost use Rattle.pyx_output.specs.Bytes.{bytes_of};
ghost use Rattle.read_back.specs.Legible.{IsLegible};
ghost use Rattle.read_back.specs.Flaws.{flaw_may_come};
ghost use Rattle.read_back.specs.Contents.{content_of, contents};

/// The law of reading back, of events whose starts and ends balance, with names and targets of the notation, no
/// attribute that would be a declaration, URIs, values and texts in UTF-8, and no empty text. The flaw of their bytes
/// is none, NoRoot, SecondRoot, TextOutside, or that of a limit. Where there is none, the rows of these bytes are,
/// after the root, the nodes of the tidy events in their order, each with its kind, URI, local name and value, without
/// the texts outside elements.
pub fn delivered_lines_read_back()
    ensures flaw { (limits : Limits) (events : List ResultEvent) → IsLegible events → flaw_may_come (flaw_of limits (bytes_of false (tidy_of events))) ≡ true }
    ensures rows { (limits : Limits) (events : List ResultEvent) → IsLegible events → flaw_of limits (bytes_of false (tidy_of events)) ≡ None →
        map content_of (drop 1 (rows_of (steps_of limits (bytes_of false (tidy_of events))))) ≡ contents 0 (tidy_of events) }
{}
