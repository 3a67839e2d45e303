// The turns of the readers among the feeds of a source.
ghost use Rattle.std.specs.Prelude.{◌≡◌, ◌≢◌, ◌++◌, ◌∷◌, [], ℕ, List, Some, None, All, length, string_bytes};
ghost use Rattle.std.specs.List.{list_any};
ghost use Rattle.doc_model.specs.declared.limits.Limits.{Limits};
ghost use Rattle.cmd_words.specs.Items.{IsItem};
ghost use Rattle.line_feeder.specs.Feeds.{feeds_of};
ghost use Rattle.sessions.specs.Standing.{Holds, answer_of, counts_of};
ghost use Rattle.turn_play.specs.Playing.{IsAt, Leaves, TellsAll};
ghost use Rattle.turn_play.specs.Progress.{made_after, progress_text};
ghost use Rattle.turn_play.specs.Turns as turns;
ghost use Rattle.turn_play.specs.Turns.{runs, passes, total};

use crate::turn::run_one;
use cmd_words::Item;
use edge::Source;
use line_feeder::{fed_lines_are_a_beginning, what_was_asked_stays_asked};
use sessions::{Fed, Session};
use std::alloc::Global;

// Reads one line.
fn feed_one<S: Source>(alloc: Global, session: &mut Session, source: &mut S) -> Fed
    requires going { answer_of session.old ≡ None }
    requires holds { Holds session.old }
    ensures { Leaves session.old session.new (S.left source.old) (S.left source.new) (S.faults source.old) (S.faults source.new) 1 result }
{
    fed_lines_are_a_beginning();
    what_was_asked_stays_asked();
    session.feed(alloc, source)
}

// Feeds up to so many lines, and gives the answer of the last feed.
fn feed_up_to<S: Source>(alloc: Global, session: &mut Session, source: &mut S, count: u32) -> Fed
    requires going { answer_of session.old ≡ None }
    requires holds { Holds session.old }
    ensures { Leaves session.old session.new (S.left source.old) (S.left source.new) (S.faults source.old) (S.faults source.new) count result }
{
    fed_lines_are_a_beginning();
    what_was_asked_stays_asked();
    for _ in 0..count {
        match feed_one(alloc, session, source) {
            Fed::Line => {}
            found => return found,
        }
    }
    Fed::Line
}

// Goes through one item: feeds, or gives a reader its turn. Line says that the source goes on.
fn play_item<S: Source>(
    alloc: Global,
    session: &mut Session,
    source: &mut S,
    item: Item,
    said: &mut String,
) -> Fed
    requires going { answer_of session.old ≡ None }
    requires holds { Holds session.old }
    requires item { IsItem (length (counts_of session.old)) item }
    ensures leaves { Leaves session.old session.new (S.left source.old) (S.left source.new) (S.faults source.old) (S.faults source.new) (total (item ∷ [])) result }
    ensures said { (limits : Limits) (bytes : List ℕ) (count : ℕ) → IsAt session.old limits (Some bytes) (S.left source.old) count → TellsAll result →
        string_bytes said.new ≡ string_bytes said.old ++ progress_text (runs (made_after limits bytes) (feeds_of limits bytes) count (item ∷ [])) }
{
    fed_lines_are_a_beginning();
    what_was_asked_stays_asked();
    match item {
        Item::Lines(count) => feed_up_to(alloc, session, source, count),
        Item::Reader(reader) => match run_one(alloc, session, reader, said) {
            Ok(()) => Fed::Line,
            Err(_) => Fed::Memory,
        },
    }
}

// Goes through the items, up to the first feed that isn't answered by Line.
fn play_items<S: Source>(
    alloc: Global,
    session: &mut Session,
    source: &mut S,
    items: &[Item],
    said: &mut String,
) -> Fed
    requires going { answer_of session.old ≡ None }
    requires holds { Holds session.old }
    requires items { All (IsItem (length (counts_of session.old))) items.now }
    ensures leaves { Leaves session.old session.new (S.left source.old) (S.left source.new) (S.faults source.old) (S.faults source.new) (total items.now) result }
    ensures said { (limits : Limits) (bytes : List ℕ) (count : ℕ) → IsAt session.old limits (Some bytes) (S.left source.old) count → TellsAll result →
        string_bytes said.new ≡ string_bytes said.old ++ progress_text (runs (made_after limits bytes) (feeds_of limits bytes) count items.now) }
{
    fed_lines_are_a_beginning();
    what_was_asked_stays_asked();
    for item in items {
        match play_item(alloc, session, source, *item, said) {
            Fed::Line => {}
            found => return found,
        }
    }
    Fed::Line
}

// Feeds what is left.
fn feed_rest<S: Source>(alloc: Global, session: &mut Session, source: &mut S) -> Fed
    requires going { answer_of session.old ≡ None }
    requires holds { Holds session.old }
    ensures leaves { (most : ℕ) × Leaves session.old session.new (S.left source.old) (S.left source.new) (S.faults source.old) (S.faults source.new) most result }
    ensures over { result ≢ Fed.Line }
{
    fed_lines_are_a_beginning();
    what_was_asked_stays_asked();
    'lines: loop {
        match feed_one(alloc, session, source) {
            Fed::Line => {}
            found => return found,
        }
    }
}

// Whether an item feeds lines.
fn feeds(item: &Item) -> bool
    ensures { result ≡ turns.feeds item.now }
{
    match item {
        Item::Lines(_) => true,
        Item::Reader(_) => false,
    }
}

// Whether any of the items feeds lines.
fn any_feeds(items: &[Item]) -> bool
    ensures { result ≡ list_any turns.feeds items.now }
{
    items.iter().any(|item| feeds(item))
}

/// Goes through the items again and again where they feed, else once, and then feeds what is left; appends
/// the progress of each turn. Gives the answer of the last feed, or Memory. A line is read only where a feed
/// asks for it.
pub fn play_turns<S: Source>(
    alloc: Global,
    session: &mut Session,
    source: &mut S,
    items: &[Item],
    said: &mut String,
) -> Fed
    requires going { answer_of session.old ≡ None }
    requires holds { Holds session.old }
    requires items { All (IsItem (length (counts_of session.old))) items.now }
    ensures leaves { (most : ℕ) × Leaves session.old session.new (S.left source.old) (S.left source.new) (S.faults source.old) (S.faults source.new) most result }
    ensures said { (limits : Limits) (bytes : List ℕ) → IsAt session.old limits (Some bytes) (S.left source.old) 0 → TellsAll result →
        string_bytes said.new ≡ string_bytes said.old ++ progress_text (runs (made_after limits bytes) (feeds_of limits bytes) 0 (passes (feeds_of limits bytes) items.now)) }
    ensures over { result ≢ Fed.Line }
{
    fed_lines_are_a_beginning();
    what_was_asked_stays_asked();
    let feeding = any_feeds(items);
    'passes: loop {
        match play_items(alloc, session, source, items, said) {
            Fed::Line => {}
            found => return found,
        }
        if !feeding {
            return feed_rest(alloc, session, source);
        }
    }
}
