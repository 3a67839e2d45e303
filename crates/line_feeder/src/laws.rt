// Laws of feeds, each a function that does nothing.
ghost use Rattle.std.specs.Prelude.{◌≡◌, ◌<◌, ℕ, List, Option, Some, length};
ghost use Rattle.doc_model.specs.declared.limits.Limits.{Limits};
ghost use Rattle.doc_model.specs.Cells.{Cells};
ghost use Rattle.pyx_lines.specs.declared.line.Line.{Line};
ghost use Rattle.pyx_lines.specs.Lines.{judged_lines};
ghost use Rattle.pyx_events.specs.Steps.{steps_to};
ghost use Rattle.line_feeder.specs.declared.feeder.Feeder.{Feeder};
ghost use Rattle.line_feeder.specs.Feeds.{feeds_of, IsLastFeed};
ghost use Rattle.line_feeder.specs.Reads.{HasReadFor};
ghost use Rattle.line_feeder.specs.Standing.{HasBeenFed};

use dtm_builder::flawless_lines_begin_a_source;

/// The last feed of a source finds its end, or the flaw at the least line at which one is judged.
pub fn last_feed_finds_the_end_or_the_first_flaw()
    ensures { (limits : Limits) (bytes : List ℕ) → IsLastFeed limits (judged_lines bytes) (feeds_of limits bytes) }
{}

/// While feeds answer Line, the steps are those of the first lines of the source, as many as were fed,
/// and the last feed is still to come.
pub fn fed_lines_are_a_beginning()
    ensures steps { (feeder : Feeder) (limits : Limits) (cells : Cells) (bytes : List ℕ) (left : Option (List ℕ)) (lines : List Line) → HasBeenFed feeder limits cells (Some bytes) left lines →
        cells.steps ≡ steps_to limits bytes (length lines) }
    ensures going { (feeder : Feeder) (limits : Limits) (cells : Cells) (bytes : List ℕ) (left : Option (List ℕ)) (lines : List Line) → HasBeenFed feeder limits cells (Some bytes) left lines →
        length lines < feeds_of limits bytes }
{
    flawless_lines_begin_a_source();
}

/// What was read for some feeds was read for any more.
pub fn what_was_asked_stays_asked()
    ensures { (told left : Option (List ℕ)) (feeds more : ℕ) → feeds < more → HasReadFor told left feeds → HasReadFor told left more }
{}
