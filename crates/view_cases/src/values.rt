// String-values of documents from lines, through views that strip and that don't.
ghost use Rattle.std.specs.Prelude.{◌≡◌, true, IfOk};
ghost use Rattle.doc_model.specs.Lawful.{IsJoined};
ghost use Rattle.doc_model.specs.Strip.{all_spelled};

use crate::tests::{first_below, row_count};
use case_tables::{begin, feed, whole};
use doc_model::{Kind, NodeView, Row, value_by_filter};
use lists::List;
use plain_columns::Plain;
use shared_texts::Shared;
use std::alloc::{AllocError, Global};
use std::test::Fail;
use string_values::{Ask, value_of};
use strip_rules::{StripRule, StripRules, StripView};

// Texts of whitespace are stripped in all elements, or in all but those named `list`, or in all by a rule of
// higher precedence than that for `list`, or in none.
#[derive(Clone, Copy)]
pub enum Stripped {
    All,
    AllButLists,
    AllByPrecedence,
    None,
}

pub fn rules(alloc: Global, stripped: Stripped) -> Result<StripRules, AllocError>
    ensures { IfOk result (λ rules. all_spelled rules.rules ≡ true) }
{
    let mut rules = List::new(alloc);
    match stripped {
        Stripped::All => rules.push(StripRule {
            strip: true,
            uri: None,
            local: None,
            precedence: 0,
        })?,
        Stripped::AllButLists | Stripped::AllByPrecedence => {
            let list = List::from_slice(alloc, b"list")?;
            let precedence = match stripped {
                Stripped::AllByPrecedence => 1,
                _ => 0,
            };
            rules.push(StripRule {
                strip: false,
                uri: Some(List::new(alloc)),
                local: Some(list),
                precedence: 0,
            })?;
            rules.push(StripRule {
                strip: true,
                uri: None,
                local: None,
                precedence,
            })?;
        }
        Stripped::None => {}
    }
    Ok(StripRules { rules })
}

fn is_shown(table: &Plain, rules: &StripRules, n: u32) -> bool
    requires joined { IsJoined table.now.cells.steps n }
    requires spelled { all_spelled rules.now.rules ≡ true }
{
    let mut below = table.view();
    let mut view = StripView::on(&mut below, rules);
    view.shown(n)
}

fn value(alloc: Global, table: &Plain, rules: &StripRules, n: u32) -> Result<List<u8>, Ask>
    requires joined { IsJoined table.now.cells.steps n }
    requires spelled { all_spelled rules.now.rules ≡ true }
{
    let mut below = table.view();
    let mut view = StripView::on(&mut below, rules);
    let mut into = Vec::new(alloc);
    value_of(alloc, &mut view, n, &mut into)?;
    Ok(List::from_vec(into))
}

// A visible row: its number, kind, depth and value.
type Shape = (u32, Kind, u32, &'static [u8]);

fn rows_of_shapes(alloc: Global, shapes: &[Shape]) -> Result<Vec<Row>, AllocError> {
    let mut rows = Vec::new(alloc);
    for shape in shapes {
        rows.push(Row {
            kind: shape.1,
            prefix: List::new(alloc),
            uri: Shared::empty(),
            local: List::new(alloc),
            value: List::from_slice(alloc, shape.3)?,
            depth: shape.2,
        })?;
    }
    Ok(rows)
}

// The place of row n among the visible ones.
fn place_of(shapes: &[Shape], n: u32) -> Option<usize> {
    shapes.iter().position(|shape| shape.0 == n)
}

// The value of the row at this place by the plain program, or nothing past the last.
fn plain_value(alloc: Global, rows: &[Row], place: usize) -> Result<List<u8>, AllocError> {
    if place >= rows.len() || place >= 1_000_000 {
        return Ok(List::new(alloc));
    }
    value_by_filter(alloc, rows, place as u32)
}

// Whether row n is shown exactly where it is among these, and then has the value by the plain program over these.
fn is_as_given(
    alloc: Global,
    table: &Plain,
    rules: &StripRules,
    shapes: &[Shape],
    rows: &[Row],
    n: u32,
) -> Result<bool, Ask>
    requires joined { IsJoined table.now.cells.steps n }
    requires spelled { all_spelled rules.now.rules ≡ true }
{
    match place_of(shapes, n) {
        Some(place) => {
            let found = value(alloc, table, rules, n)?;
            Ok(is_shown(table, rules, n) && found == plain_value(alloc, rows, place)?)
        }
        None => Ok(!is_shown(table, rules, n)),
    }
}

// Whether just these rows of a whole table are visible, with the values that the plain program gives of them.
fn are_as_given(
    alloc: Global,
    table: &Plain,
    rules: &StripRules,
    shapes: &[Shape],
) -> Result<bool, Ask>
    requires { all_spelled rules.now.rules ≡ true }
{
    let rows = rows_of_shapes(alloc, shapes)?;
    let count = row_count(table);
    if count == 0 {
        return Ok(false);
    }
    for n in 0..count {
        if !is_as_given(alloc, table, rules, shapes, rows.as_slice(), n)? {
            return Ok(false);
        }
    }
    Ok(true)
}

const SPACED: &[u8] = b"(list\n-\\n \n(item\n-x\n)item\n-\\n\n)list";

const KEPT_IN_LIST: &[u8] = b"(list\nAxml:space preserve\n-\\n \n(item\n-x\n)item\n-\\n\n)list";

const KEPT_IN_ITEM: &[u8] =
    b"(list\n-\\n \n(item\nAxml:space preserve\n-\\n\n(b\n)b\n-x\n)item\n-\\n\n)list";

const ALL_OF_SPACED: &[Shape] = &[
    (0, Kind::Root, 0, b""),
    (1, Kind::Element, 1, b""),
    (2, Kind::Text, 2, b"\n "),
    (3, Kind::Element, 2, b""),
    (4, Kind::Text, 3, b"x"),
    (5, Kind::Text, 2, b"\n"),
];

const STRIPPED_OF_SPACED: &[Shape] = &[
    (0, Kind::Root, 0, b""),
    (1, Kind::Element, 1, b""),
    (3, Kind::Element, 2, b""),
    (4, Kind::Text, 3, b"x"),
];

#[test]
fn values_are_those_of_the_visible_rows(rt: HostRuntime) -> Result<(), Fail> {
    let alloc = rt.alloc();
    let cases: [(&[u8], Stripped, &[Shape]); 6] = [
        (SPACED, Stripped::None, ALL_OF_SPACED),
        (SPACED, Stripped::AllButLists, ALL_OF_SPACED),
        (SPACED, Stripped::All, STRIPPED_OF_SPACED),
        (SPACED, Stripped::AllByPrecedence, STRIPPED_OF_SPACED),
        (
            KEPT_IN_LIST,
            Stripped::All,
            &[
                (0, Kind::Root, 0, b""),
                (1, Kind::Element, 1, b""),
                (2, Kind::Attribute, 2, b"preserve"),
                (3, Kind::Text, 2, b"\n "),
                (4, Kind::Element, 2, b""),
                (5, Kind::Text, 3, b"x"),
                (6, Kind::Text, 2, b"\n"),
            ],
        ),
        (
            KEPT_IN_ITEM,
            Stripped::All,
            &[
                (0, Kind::Root, 0, b""),
                (1, Kind::Element, 1, b""),
                (3, Kind::Element, 2, b""),
                (4, Kind::Attribute, 3, b"preserve"),
                (5, Kind::Text, 3, b"\n"),
                (6, Kind::Element, 3, b""),
                (7, Kind::Text, 3, b"x"),
            ],
        ),
    ];
    for (text, stripped, shapes) in cases {
        let table = whole(alloc, text)?;
        let rules = rules(alloc, stripped)?;
        assert!(rt; are_as_given(alloc, &table, &rules, shapes)?);
    }
    Ok(())
}

// The value of the first item after some lines.
fn item_value(alloc: Global, table: &Plain) -> Result<List<u8>, Ask> {
    let rules = rules(alloc, Stripped::None)?;
    value(alloc, table, &rules, first_below(table, 2))
}

#[test]
fn values_wait_for_their_element(rt: HostRuntime) -> Result<(), Fail> {
    let alloc = rt.alloc();
    let (mut builder, mut table) = begin(alloc)?;
    let taken = feed(
        alloc,
        &mut builder,
        &mut table,
        0,
        b"(list\n(item\nAk 1\n-one",
    )?;
    assert_eq!(rt; item_value(alloc, &table), Err(Ask::NotYet(2)));
    feed(alloc, &mut builder, &mut table, taken, b")item")?;
    assert_eq!(rt; item_value(alloc, &table)?.as_slice(), b"one".as_slice());
    Ok(())
}
