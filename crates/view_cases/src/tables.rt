// The rows, links, names and values of tables that are built from lines.
ghost use Rattle.doc_model.specs.Lawful.{IsJoined};

use crate::tests::{first_below, row_count};
use case_tables::{begun, whole};
use doc_model::{Kind, Look, NameText, NodeView, Verdict};
use lists::List;
use plain_columns::Plain;
use std::alloc::{AllocError, Global};
use std::test::Fail;

// Where memory is wanting, the text comes out shorter, and so differs from what is wanted.
fn put(out: &mut String, part: &str) {
    let _short = out.push_str(part);
}

fn put_bytes(out: &mut String, bytes: &[u8]) {
    if let Ok(part) = str::from_utf8(bytes) {
        put(out, part);
    }
}

fn put_number(out: &mut String, number: Option<u32>) {
    match number {
        Some(number) => {
            let _short = write!(out, " {number}");
        }
        None => put(out, " -"),
    }
}

fn put_look(out: &mut String, look: Look) {
    match look {
        Look::Node(n) => put_number(out, Some(n)),
        Look::Nothing => put_number(out, None),
        Look::NotYet => put(out, " ?"),
    }
}

fn kind(kind: Kind) -> &'static str {
    match kind {
        Kind::Root => "root",
        Kind::Element => "element",
        Kind::Attribute => "attribute",
        Kind::Text => "text",
        Kind::Comment => "comment",
        Kind::Instruction => "instruction",
    }
}

// A row's kind, parent, sibling before, first child, next sibling and extent: `-` for none, `?` for not yet.
fn put_links(out: &mut String, table: &Plain, n: u32)
    requires { IsJoined table.now.cells.steps n }
{
    put(out, kind(table.view().kind(n)));
    put_number(out, table.view().parent(n));
    put_number(out, table.view().prev(n));
    put_look(out, table.view().first(n));
    put_look(out, table.view().next(n));
    put_number(out, table.view().extent(n));
}

// Whether the calls that compare a row with bytes say what its name and value are.
fn agrees(table: &Plain, n: u32, name: &NameText, text: &[u8]) -> bool
    requires { IsJoined table.now.cells.steps n }
{
    table.view().value_is(n, text)
        && table
            .view()
            .name_is(n, name.uri.as_slice(), Some(name.local.as_slice()))
        && !table.view().name_is(n, b"other", None)
        && table.view().shown(n)
        && !table.view().blank(n)
}

// A row's type number, number of attributes, local name and value.
fn put_content(out: &mut String, alloc: Global, table: &Plain, n: u32) -> Result<(), AllocError>
    requires { IsJoined table.now.cells.steps n }
{
    let mut name = NameText {
        prefix: List::new(alloc),
        uri: List::new(alloc),
        local: List::new(alloc),
    };
    table.view().name(alloc, n, &mut name)?;
    let mut text = Vec::new(alloc);
    table.view().text(alloc, n, &mut text)?;
    let type_id = table.view().type_id(n);
    let attributes = table.view().attr_count(n);
    let _short = write!(out, ", {type_id} {attributes} ");
    put_bytes(out, name.local.as_slice());
    put(out, "=");
    put_bytes(out, text.as_slice());
    if !agrees(table, n, &name, text.as_slice()) {
        put(out, " not so");
    }
    Ok(())
}

// All rows of a table, a line each.
fn rows(alloc: Global, table: &Plain) -> Result<String, AllocError> {
    let mut out = String::new(alloc);
    for n in 0..row_count(table) {
        put_links(&mut out, table, n);
        put_content(&mut out, alloc, table, n)?;
        put(&mut out, "\n");
    }
    Ok(out)
}

// The two items, with a comment outside the list.
const ITEMS: &[u8] = b"(list\n(item\nAk 1\n-one\n)item\n(item\nAk 2\n-two\n)item\n)list\nCend";

#[test]
fn two_items_have_these_rows(rt: HostRuntime) -> Result<(), Fail> {
    let table = whole(rt.alloc(), ITEMS)?;
    assert_eq!(rt;
        rows(rt.alloc(), &table)?.as_str(),
        "root - - 1 - 9, 0 0 =\nelement 0 - 2 8 8, 3 0 list=\nelement 1 - 4 5 5, 4 1 item=\nattribute 2 - - - 4, 5 0 k=1\ntext 2 - - - 5, 1 0 =one\nelement 1 2 7 - 8, 4 1 item=\nattribute 5 - - - 7, 5 0 k=2\ntext 5 - - - 8, 1 0 =two\ncomment 0 1 - - 9, 2 0 =end\n"
    );
    assert_eq!(rt; table.view().ended(), Some(Verdict::Good));
    Ok(())
}

#[test]
fn an_open_item_has_no_link_yet(rt: HostRuntime) -> Result<(), Fail> {
    let table = begun(rt.alloc(), b"(list\n(item\nAk 1\n-one")?;
    let mut out = String::new(rt.alloc());
    put_links(&mut out, &table, first_below(&table, 2));
    assert_eq!(rt; out.as_str(), "element 1 - ? ? -");
    assert_eq!(rt; table.view().ended(), None);
    Ok(())
}
