ghost use Rattle.std.specs.Prelude.{◌≡◌, ◌≤◌, ◌<◌, ◌^◌};
ghost use Rattle.line_feeder.specs.Feeding.{for_good};
ghost use Rattle.sessions.specs.Standing.{Holds, answer_of, counts_of};

use doc_model::{Flaw, FlawKind, Limits};
use edge::{Memory, MemorySource};
use lists::List;
use sessions::{Fed, Outcome, Session, Turn};
use std::alloc::Global;
use std::test::Fail;

// What a table has room for.
#[derive(Clone, Copy)]
enum Room {
    Ample,
    LittleText,
    FewRows,
}

fn limits(room: Room) -> Limits
    ensures rows { 1 ≤ result.rows }
    ensures names { result.names ≤ 65536 }
    ensures text { result.text < 2 ^ 32 }
{
    let (rows, text) = match room {
        Room::Ample => (100, 1_000),
        Room::LittleText => (100, 3),
        Room::FewRows => (7, 1_000),
    };
    Limits {
        rows,
        text,
        names: 20,
    }
}

// The last answer of so many feeds.
fn feed(alloc: Global, session: &mut Session, source: &mut MemorySource, count: u32) -> Fed
    requires { Holds session.old }
    ensures holds { Holds session.new }
    ensures counts { counts_of session.new ≡ counts_of session.old }
    ensures kept { answer_of session.new ≡ for_good result }
{
    let mut fed = session.feed(alloc, source);
    for _ in 1..count {
        fed = session.feed(alloc, source);
    }
    fed
}

const TWO_ITEMS: &[u8] = b"(list\n(item\n-one\n)item\n(item\n-two\n)item\n)list\n";

const NUMBERED_ITEMS: &[u8] = b"(list\n(item\nAk 1\n-one\n)item\n(item\nAk 2\n-two\n)item\n)list\n";

// The answer of feed number `count` of a new session, whose source fails at these reads.
fn answer(
    alloc: Global,
    room: Room,
    bytes: &[u8],
    failing: &[u64],
    count: u32,
) -> Result<Fed, Memory> {
    let mut source = MemorySource::make(alloc, bytes, 3, failing)?;
    let mut session = Session::start(alloc, 1, limits(room))?;
    Ok(feed(alloc, &mut session, &mut source, count))
}

// Whether this feed is the first that doesn't answer Line, and its answer is given from then on.
fn ends(
    alloc: Global,
    room: Room,
    bytes: &[u8],
    failing: &[u64],
    first: u32,
    last: Fed,
) -> Result<bool, Memory>
    requires some { 2 ≤ first }
    requires few { first < 100 }
{
    let before = answer(alloc, room, bytes, failing, first - 1)?;
    let then = answer(alloc, room, bytes, failing, first)?;
    let later = answer(alloc, room, bytes, failing, first + 2)?;
    Ok(before == Fed::Line && then == last && later == last)
}

fn flawed(line: u64, kind: FlawKind) -> Fed {
    Fed::Flawed(Flaw { line, kind })
}

// Whether each source ends so.
fn all_end(alloc: Global) -> Result<bool, Memory> {
    let none: &[u64] = &[];
    let unclosed = flawed(2, FlawKind::Unclosed);
    let text = flawed(1, FlawKind::TooMuchText);
    let prefix = flawed(1, FlawKind::UnboundPrefix);
    let utf8 = flawed(2, FlawKind::NotUtf8);
    let nodes = flawed(8, FlawKind::TooManyNodes);
    Ok(
        ends(alloc, Room::Ample, TWO_ITEMS, none, 9, Fed::Ended)?
            && ends(alloc, Room::Ample, b"(a", none, 2, unclosed)?
            && ends(alloc, Room::LittleText, b"(list", none, 2, text)?
            && ends(alloc, Room::Ample, b"(p:a\n)p:a", none, 2, prefix)?
            && ends(alloc, Room::Ample, b"(a\n-\xc3\n)a", none, 2, utf8)?
            && ends(alloc, Room::FewRows, NUMBERED_ITEMS, none, 8, nodes)?
            && ends(alloc, Room::Ample, TWO_ITEMS, &[3], 2, Fed::Failed)?,
    )
}

#[test]
fn answers_but_line_are_given_for_good(rt: HostRuntime) -> Result<(), Fail> {
    assert!(rt; all_end(rt.alloc())?);
    Ok(())
}

// What the first of two readers answers after the third line and so many more, and what both have made.
fn progress(alloc: Global, more: u32) -> Result<(Turn, Turn, u64, u64), Memory> {
    let mut source = MemorySource::make(alloc, TWO_ITEMS, 1, &[])?;
    let mut session = Session::start(alloc, 2, limits(Room::Ample))?;
    feed(alloc, &mut session, &mut source, 3);
    let first = session.run(alloc, 0)?;
    feed(alloc, &mut session, &mut source, more);
    let last = session.run(alloc, 0)?;
    Ok((first, last, session.made(0), session.made(1)))
}

// What two readers come to.
fn outcomes(alloc: Global) -> Result<List<Outcome>, Memory> {
    let mut source = MemorySource::make(alloc, TWO_ITEMS, 1, &[])?;
    let mut session = Session::start(alloc, 2, limits(Room::Ample))?;
    match feed(alloc, &mut session, &mut source, 9) {
        Fed::Ended => session.finish(alloc),
        _ => Err(Memory),
    }
}

// Whether the outcome is this text in so many events.
fn comes_to(outcome: Option<&Outcome>, text: &[u8], made: u64) -> bool {
    match outcome {
        Some(outcome) => {
            outcome.fault == None
                && outcome.bytes.as_slice() == text
                && outcome.messages.is_empty()
                && outcome.made == made
        }
        None => false,
    }
}

#[test]
fn readers_follow_the_lines_fed_by_then(rt: HostRuntime) -> Result<(), Fail> {
    let fourth = progress(rt.alloc(), 1)?;
    assert!(rt; fourth == (Turn::NotYet(2), Turn::NotYet(1), 1, 0));
    let ninth = progress(rt.alloc(), 6)?;
    assert!(rt; ninth == (Turn::NotYet(2), Turn::Done, 2, 0));
    Ok(())
}

#[test]
fn each_reader_comes_to_the_whole_text(rt: HostRuntime) -> Result<(), Fail> {
    let outcomes = outcomes(rt.alloc())?;
    assert!(rt; outcomes.len() == 2);
    assert!(rt; comes_to(outcomes.get(0), b"onetwo", 2));
    assert!(rt; comes_to(outcomes.get(1), b"onetwo", 2));
    Ok(())
}
