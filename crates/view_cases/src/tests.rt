ghost use Rattle.std.specs.Prelude.{◌≡◌, ◌≤◌, IfSome, IfOk, length, vec_len};
ghost use Rattle.axis_walkers.specs.Streams.{IsStream};
ghost use Rattle.doc_model.specs.Lawful.{IsJoined};
ghost use Rattle.doc_model.specs.Rows.{rows_of};
ghost use Rattle.plain_columns.specs.Seen.{seen_of};
ghost use Rattle.case_tables.specs.Building.{StandsAfter};

use crate::counting::Counting;
use axis_walkers::{Ask, Axis, ChildStream, Test, streams_stay, walk};
use case_tables::{begin, begun, feed, whole};
use doc_model::{Kind, Look, NodeView, Row, axis_by_filter};
use dtm_builder::Builder;
use lists::List;
use name_pool::Memory;
use plain_columns::Plain;
use shared_texts::Shared;
use std::alloc::{AllocError, Global};
use std::test::Fail;

const AXES: [Axis; 12] = [
    Axis::Itself,
    Axis::Child,
    Axis::Parent,
    Axis::Descendant,
    Axis::DescendantOrSelf,
    Axis::Ancestor,
    Axis::AncestorOrSelf,
    Axis::Following,
    Axis::Preceding,
    Axis::FollowingSibling,
    Axis::PrecedingSibling,
    Axis::Attribute,
];

// How many rows a whole table has.
pub fn row_count(table: &Plain) -> u32
    ensures { result ≤ length (rows_of table.now.cells.steps) }
{
    match table.view().extent(0) {
        Some(end) => end,
        None => 0,
    }
}

fn first_child(table: &Plain, n: u32) -> Option<u32>
    requires { IsJoined table.now.cells.steps n }
    ensures { IfSome result (λ k. IsJoined table.now.cells.steps k) }
{
    match table.view().first(n) {
        Look::Node(k) => Some(k),
        Look::Nothing | Look::NotYet => None,
    }
}

// The first child of the first child, and so on so many times; the last of them that there is.
pub fn first_below(table: &Plain, times: u32) -> u32
    ensures { IsJoined table.now.cells.steps result }
{
    let mut at = 0;
    for _ in 0..times {
        if let Some(k) = first_child(table, at) {
            at = k;
        }
    }
    at
}

fn nodes(alloc: Global, table: &Plain, n: u32, axis: Axis) -> Result<List<u32>, Ask>
    requires { IsJoined table.now.cells.steps n }
{
    walk(alloc, &mut table.view(), n, axis, &Test::Any)
}

// How many calls on the view a walk makes, and how many of these ask for a name.
fn calls(alloc: Global, table: &Plain, n: u32, axis: Axis, test: &Test) -> Result<(u64, u64), Ask>
    requires { IsJoined table.now.cells.steps n }
{
    let mut view = Counting {
        below: table.view(),
        calls: 0,
        names: 0,
    };
    walk(alloc, &mut view, n, axis, test)?;
    Ok((view.calls, view.names))
}

// Rows of these kinds and depths.
fn rows_of_shapes(alloc: Global, shapes: &[(Kind, u32)]) -> Result<Vec<Row>, AllocError>
    ensures { IfOk result (λ rows. vec_len rows ≡ length shapes.now) }
{
    let mut rows = Vec::new(alloc);
    for shape in shapes {
        rows.push(Row {
            kind: shape.0,
            prefix: List::new(alloc),
            uri: Shared::empty(),
            local: List::new(alloc),
            value: List::new(alloc),
            depth: shape.1,
        })?;
    }
    Ok(rows)
}

// Whether the table has these rows, and every axis of every row is what the filter gives.
fn are_by_filter(alloc: Global, table: &Plain, rows: &[Row]) -> Result<bool, Ask> {
    let count = row_count(table);
    if count as usize != rows.len() {
        return Ok(false);
    }
    for n in 0..count {
        for axis in &AXES {
            let found = nodes(alloc, table, n, *axis)?;
            if found != axis_by_filter(alloc, rows, n, *axis)? {
                return Ok(false);
            }
        }
    }
    Ok(true)
}

const ITEMS: &[u8] = b"(list\n(item\nAk 1\n-one\n)item\n(item\nAk 2\n-two\n)item\n)list";

const ITEM_SHAPES: &[(Kind, u32)] = &[
    (Kind::Root, 0),
    (Kind::Element, 1),
    (Kind::Element, 2),
    (Kind::Attribute, 3),
    (Kind::Text, 3),
    (Kind::Element, 2),
    (Kind::Attribute, 3),
    (Kind::Text, 3),
];

const MIXED: &[u8] = b"?s d\nCbefore\n(a\n?t d\n-x\n(b\nAk 1\n)b\n-y\nXnote\n-z\nCin\n)a\n?u d";

const MIXED_SHAPES: &[(Kind, u32)] = &[
    (Kind::Root, 0),
    (Kind::Instruction, 1),
    (Kind::Comment, 1),
    (Kind::Element, 1),
    (Kind::Instruction, 2),
    (Kind::Text, 2),
    (Kind::Element, 2),
    (Kind::Attribute, 3),
    (Kind::Text, 2),
    (Kind::Comment, 2),
    (Kind::Instruction, 1),
];

const CATALOGUE: &[u8] =
    b"(c:catalogue\nAxmlns:c urn:c\nAxmlns urn:d\n(part\nAc:id 1\nAn 2\n(c:name\n-bolt\n)c:name\n)part\n(part\nAxmlns \n(size\n)size\n)part\n)c:catalogue";

const CATALOGUE_SHAPES: &[(Kind, u32)] = &[
    (Kind::Root, 0),
    (Kind::Element, 1),
    (Kind::Element, 2),
    (Kind::Attribute, 3),
    (Kind::Attribute, 3),
    (Kind::Element, 3),
    (Kind::Text, 4),
    (Kind::Element, 2),
    (Kind::Element, 3),
];

#[test]
fn every_axis_of_every_row_is_the_filter(rt: HostRuntime) -> Result<(), Fail> {
    let alloc = rt.alloc();
    let documents: [(&[u8], &[(Kind, u32)]); 3] = [
        (ITEMS, ITEM_SHAPES),
        (MIXED, MIXED_SHAPES),
        (CATALOGUE, CATALOGUE_SHAPES),
    ];
    for (text, shapes) in documents {
        let table = whole(alloc, text)?;
        let rows = rows_of_shapes(alloc, shapes)?;
        assert!(rt; are_by_filter(alloc, &table, rows.as_slice())?);
    }
    Ok(())
}

#[test]
fn following_waits_for_the_root(rt: HostRuntime) -> Result<(), Fail> {
    let alloc = rt.alloc();
    let nine = b"(list\n(item\nAk 1\n-one\n)item\n(item\nAk 2\n-two\n)item";
    let table = begun(alloc, nine)?;
    let text = first_below(&table, 3);
    assert_eq!(rt; text, 4);
    assert_eq!(rt;
        nodes(alloc, &table, text, Axis::Following),
        Err(Ask::NotYet(0))
    );
    Ok(())
}

#[test]
fn children_wait_for_their_element(rt: HostRuntime) -> Result<(), Fail> {
    let alloc = rt.alloc();
    let (mut builder, mut table) = begin(alloc)?;
    let four = b"(list\n(item\nAk 1\n-one";
    let taken = feed(alloc, &mut builder, &mut table, 0, four)?;
    let item = first_below(&table, 2);
    assert_eq!(rt; item, 2);
    assert_eq!(rt;
        nodes(alloc, &table, item, Axis::Child),
        Err(Ask::NotYet(2))
    );
    feed(alloc, &mut builder, &mut table, taken, b")item")?;
    let item = first_below(&table, 2);
    assert_eq!(rt; item, 2);
    assert_eq!(rt;
        nodes(alloc, &table, item, Axis::Child)?.as_slice(),
        [4].as_slice()
    );
    Ok(())
}

// The lines of a list of so many empty elements.
fn wide_list(alloc: Global, count: u32) -> Result<Vec<u8>, AllocError> {
    let mut text = b"(l".to_vec(alloc)?;
    for _ in 0..count {
        text.extend_from_slice(b"\n(a\n)a")?;
    }
    text.extend_from_slice(b"\n)l")?;
    Ok(text)
}

#[test]
fn calls_are_few_a_row(rt: HostRuntime) -> Result<(), Fail> {
    let alloc = rt.alloc();
    let text = wide_list(alloc, 3_000)?;
    let table = whole(alloc, text.as_slice())?;
    let list = first_below(&table, 1);
    assert_eq!(rt; list, 1);
    assert_eq!(rt; nodes(alloc, &table, list, Axis::Child)?.len(), 3_000);
    let any = &Test::Any;
    assert_eq!(rt; calls(alloc, &table, list, Axis::Child, any)?.0, 3_001);
    assert!(rt; calls(alloc, &table, list, Axis::Descendant, any)?.0 <= 6_001);
    for local in [b"a".as_slice(), b"l".as_slice()] {
        let test = name_test(alloc, b"", local)?;
        let (_, names) = calls(alloc, &table, list, Axis::Descendant, &test)?;
        assert!(rt; names <= 2);
    }
    Ok(())
}

// Each kind of node, in the namespace `u` and in none.
const KINDS: &[u8] =
    b"?s d\n(c:a\nAxmlns:c u\n?t d\nCnote\n-x\n(b\nAc:k 1\nAk 2\n)b\nCend\n)c:a\nCafter";

// A node test, told without memory.
#[derive(Clone, Copy)]
enum Asked {
    Any,
    Kind(Kind),
    AnyName,
    InUri(&'static str),
    Name(&'static str, &'static str),
    Target(&'static str),
}

fn test_of(alloc: Global, asked: Asked) -> Result<Test, AllocError> {
    match asked {
        Asked::Any => Ok(Test::Any),
        Asked::Kind(kind) => Ok(Test::Kind(kind)),
        Asked::AnyName => Ok(Test::AnyName),
        Asked::InUri(uri) => Ok(Test::InUri(List::from_slice(alloc, uri.as_bytes())?)),
        Asked::Name(uri, local) => name_test(alloc, uri.as_bytes(), local.as_bytes()),
        Asked::Target(target) => Ok(Test::Target(List::from_slice(alloc, target.as_bytes())?)),
    }
}

// Where memory is wanting, the text comes out shorter, and so differs from what is wanted.
fn put_rows(out: &mut String, rows: &List<u32>) {
    for n in rows.as_slice() {
        let _short = write!(out, "{n} ");
    }
}

// The rows below the root that meet the test, then the attributes of the last element that do.
fn met(alloc: Global, table: &Plain, test: &Test) -> Result<String, Ask> {
    let mut out = String::new(alloc);
    let below = walk(alloc, &mut table.view(), 0, Axis::Descendant, test)?;
    put_rows(&mut out, &below);
    if 6 < row_count(table) {
        let attributes = walk(alloc, &mut table.view(), 6, Axis::Attribute, test)?;
        let _short = out.push_str("@ ");
        put_rows(&mut out, &attributes);
    }
    Ok(out)
}

fn met_by(alloc: Global, table: &Plain, asked: Asked) -> Result<String, Ask> {
    let test = test_of(alloc, asked)?;
    met(alloc, table, &test)
}

#[test]
fn every_kind_of_test_is_met_by_these_rows(rt: HostRuntime) -> Result<(), Fail> {
    let table = whole(rt.alloc(), KINDS)?;
    for (asked, rows) in [
        (Asked::Any, "1 2 3 4 5 6 9 10 @ 7 8 "),
        (Asked::Kind(Kind::Text), "5 @ "),
        (Asked::Kind(Kind::Comment), "4 9 10 @ "),
        (Asked::Kind(Kind::Instruction), "1 3 @ "),
        (Asked::AnyName, "2 6 @ 7 8 "),
        (Asked::InUri("u"), "2 @ 7 "),
        (Asked::InUri(""), "6 @ 8 "),
        (Asked::Name("u", "a"), "2 @ "),
        (Asked::Name("", "a"), "@ "),
        (Asked::Name("u", "k"), "@ 7 "),
        (Asked::Target("t"), "3 @ "),
    ] {
        assert_eq!(rt; met_by(rt.alloc(), &table, asked)?.as_str(), rows);
    }
    Ok(())
}

fn name_test(alloc: Global, uri: &[u8], local: &[u8]) -> Result<Test, AllocError> {
    Ok(Test::Name {
        uri: List::from_slice(alloc, uri)?,
        local: List::from_slice(alloc, local)?,
    })
}

fn look(stream: &mut ChildStream, table: &Plain) -> Look
    requires { IsStream (seen_of table.now.cells) stream.old }
    ensures { IsStream (seen_of table.now.cells) stream.new }
{
    stream.next(&mut table.view())
}

// The looks of a stream of the first element's children: two before some more lines are built, and two after.
fn looks_across(
    alloc: Global,
    builder: &mut Builder,
    table: &mut Plain,
    taken: u32,
    text: &[u8],
) -> Result<[Look; 4], Memory>
    requires { StandsAfter builder.old table.old taken }
{
    let mut stream = ChildStream::start(first_below(table, 1));
    let first = look(&mut stream, table);
    let second = look(&mut stream, table);
    feed(alloc, builder, table, taken, text)?;
    streams_stay();
    let third = look(&mut stream, table);
    let fourth = look(&mut stream, table);
    Ok([first, second, third, fourth])
}

#[test]
fn a_stream_goes_on_as_the_table_grows(rt: HostRuntime) -> Result<(), Fail> {
    let alloc = rt.alloc();
    let (mut builder, mut table) = begin(alloc)?;
    let taken = feed(alloc, &mut builder, &mut table, 0, b"(list\n(item\n)item")?;
    let looks = looks_across(
        alloc,
        &mut builder,
        &mut table,
        taken,
        b"(item\n-two\n)item\n)list",
    )?;
    let wanted = [Look::Node(2), Look::NotYet, Look::Node(3), Look::Nothing];
    assert_eq!(rt; looks, wanted);
    Ok(())
}
