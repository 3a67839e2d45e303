// Copies of rows of documents from lines, through views that strip and that don't, written as lines again.
ghost use Rattle.std.specs.Prelude.{◌≡◌, true};
ghost use Rattle.doc_model.specs.Lawful.{IsJoined};
ghost use Rattle.doc_model.specs.Strip.{all_spelled};

use crate::tests::first_below;
use crate::values::{Stripped, rules};
use case_tables::{begun, whole};
use doc_model::{Ask, StripRules};
use engine_content::copy_node;
use lists::List;
use plain_columns::Plain;
use pyx_output::bytes_of;
use result_events::{Buffer, ResultEvent};
use std::alloc::Global;
use std::test::Fail;
use strip_rules::StripView;

fn append(
    alloc: Global,
    table: &Plain,
    rules: &StripRules,
    n: u32,
    out: &mut Buffer,
) -> Result<(), Ask>
    requires joined { IsJoined table.now.cells.steps n }
    requires spelled { all_spelled rules.now.rules ≡ true }
{
    let mut below = table.view();
    let mut view = StripView::on(&mut below, rules);
    copy_node(alloc, &mut view, n, out)
}

// The copy of the first child of the first child, and so on so many times, as lines.
fn written(alloc: Global, table: &Plain, stripped: Stripped, times: u32) -> Result<List<u8>, Ask> {
    let rules = rules(alloc, stripped)?;
    let mut out = Buffer::start(alloc)?;
    append(alloc, table, &rules, first_below(table, times), &mut out)?;
    Ok(bytes_of(alloc, false, out.events())?)
}

const WHOLE: &[u8] =
    b"C c\n(list\nAid 1\n(p:item\nAxmlns:p u\nAp:k 2\nAk \n?t d\n-x\n)p:item\n-y\n(b\n)b\n)list\n?t \n";

#[test]
fn copies_are_the_lines_that_they_come_from(rt: HostRuntime) -> Result<(), Fail> {
    let alloc = rt.alloc();
    let spaced = b"(list\n-\\n \n(item\n-x\n)item\n-\\n\n)list";
    let cases: [(&[u8], Stripped, u32, &[u8]); 4] = [
        (WHOLE, Stripped::None, 0, WHOLE),
        (
            spaced,
            Stripped::All,
            0,
            b"(list\n(item\n-x\n)item\n)list\n",
        ),
        (
            b"(list\n(item\nAk 1\n-x\n)item\n-y\n)list",
            Stripped::None,
            2,
            b"(item\nAk 1\n-x\n)item\n",
        ),
        (b"(list\n-y\n)list", Stripped::None, 2, b"-y\n"),
    ];
    for (text, stripped, times, want) in cases {
        let table = whole(alloc, text)?;
        let lines = written(alloc, &table, stripped, times)?;
        assert_eq!(rt; lines.as_slice(), want);
    }
    Ok(())
}

// A copy is whole or nothing.
#[test]
fn copies_wait_for_their_element(rt: HostRuntime) -> Result<(), Fail> {
    let alloc = rt.alloc();
    let rules = rules(alloc, Stripped::None)?;
    let table = begun(alloc, b"(list\n(item\nAk 1\n-one\n(b")?;
    let mut out = Buffer::start(alloc)?;
    out.push(alloc, ResultEvent::End)?;
    let item = first_below(&table, 2);
    assert_eq!(rt;
        append(alloc, &table, &rules, item, &mut out),
        Err(Ask::NotYet(2))
    );
    assert_eq!(rt; out.events().len(), 1);
    Ok(())
}
