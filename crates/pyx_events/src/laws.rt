ghost use Rattle.std.specs.Prelude.{◌≡◌, ◌++◌, ◌∷◌, [], List, Bool, Option, None, Result};
ghost use Rattle.shared_texts.specs.Numbers.{Keeps};
ghost use Rattle.doc_model.specs.declared.limits.Limits.{Limits};
ghost use Rattle.pyx_lines.specs.declared.line.Line.{Line};
ghost use Rattle.pyx_lines.specs.Lines.{Refusal};
ghost use Rattle.pyx_events.specs.declared.pending_start.PendingStart.{PendingStart};
ghost use Rattle.pyx_events.specs.Before.{uris_to};
ghost use Rattle.pyx_events.specs.Flaw.{flaw_from};
ghost use Rattle.pyx_events.specs.Judged.{AreFlawless, IsFirst, IsFlawless, in_source};
ghost use Rattle.pyx_events.specs.Nodes.{completed};
ghost use Rattle.pyx_events.specs.Numbered.{AreNodesNumbered};

/// The law of the first flaw: it is the flaw at the least line at which one is judged, each line by
/// itself; the input's end counts as a line after the last. Without a flaw none is judged at any.
pub fn first_flaw_is_judged_at_the_least_line()
    ensures { (limits : Limits) (free : Bool) (lines : List (Result Line Refusal)) → IsFirst limits free lines (flaw_from limits free [] lines) }
{}

/// What a source begins with, if these lines are its first and none of them has a flaw: its first flaw is
/// judged of the lines after them. Where a checker has taken lines, `free` is true, and these are they.
pub fn flawless_lines_begin_a_source()
    ensures { (limits : Limits) (free : Bool) (before : List Line) (later : List (Result Line Refusal)) → AreFlawless limits free before →
        flaw_from limits free [] (in_source before ++ later) ≡ flaw_from limits free before later }
{}

/// A source without a flaw has only lines that are events, of which none has a flaw after those before it,
/// and neither has the input's end.
pub fn a_source_without_a_flaw_has_flawless_lines()
    ensures { (limits : Limits) (free : Bool) (lines : List (Result Line Refusal)) → flaw_from limits free [] lines ≡ None → IsFlawless limits free lines }
{}

/// The numbers in the node of an element are those of its URIs among all that were bound so far, and these
/// keep their numbers from line to line: so what is known of a number stays known.
pub fn numbers_stand_for_uris()
    ensures node { (before : List Line) (start : Option PendingStart) → AreNodesNumbered (uris_to before) (completed before start) }
    ensures kept { (before : List Line) (line : Line) → Keeps (uris_to before) (uris_to (line ∷ before)) }
{}
