// The values of expressions over whole documents. Nodes are shown by their rows, a string in quotes.

use crate::table::{
    BOOK, BOOK_VALUES, MIXED, MIXED_VALUES, NUMBERS, NUMBERS_VALUES, TREE, TREE_VALUES,
};
use case_tables::whole;
use doc_model::NodeView;
use key_sources::NoKeys;
use lists::List;
use plain_columns::Plain;
use std::alloc::{AllocError, Global};
use std::test::Fail;
use whole_num::Num;
use xml_names::Scopes;
use xpath_binding::{bind, mark};
use xpath_core::{Context, Env, EvalStop, Size, eval, holds, text, truth};
use xpath_parse::expression;
use xpath_syntax::Expr;
use xpath_values::{Atom, Value};

/// The root, as the only node of a list.
pub const ROOT: Context = Context {
    node: 0,
    position: 1,
    size: Size::Known(1),
    current: 0,
};

// Where memory is wanting, the text comes out shorter, and so differs from what is wanted.
pub fn put(out: &mut String, part: &str) {
    let _short = out.push_str(part);
}

fn put_text(out: &mut String, bytes: &[u8]) {
    put(out, "'");
    if let Ok(part) = str::from_utf8(bytes) {
        put(out, part);
    }
    put(out, "'");
}

pub fn put_node(out: &mut String, n: u32) {
    let _short = write!(out, "[{n}]");
}

fn put_nodes(out: &mut String, nodes: &[u32]) {
    if nodes.is_empty() {
        put(out, "none");
    }
    for n in nodes {
        put_node(out, *n);
    }
}

fn put_truth(out: &mut String, truth: bool) {
    put(out, if truth { "true" } else { "false" });
}

fn put_value(out: &mut String, value: &Value) {
    match value {
        Value::Nodes(nodes) => put_nodes(out, nodes.as_slice()),
        Value::Atom(Atom::Number(Num::NaN)) => put(out, "NaN"),
        Value::Atom(Atom::Number(Num::Whole(n))) => {
            let _short = write!(out, "{n}");
        }
        Value::Atom(Atom::Truth(truth)) => put_truth(out, *truth),
        Value::Atom(Atom::Text(bytes)) => put_text(out, bytes.as_slice()),
        Value::Fragment(_) => put(out, "fragment"),
    }
}

pub fn put_stop(out: &mut String, stop: EvalStop) {
    match stop {
        EvalStop::NotYet(n) => {
            let _short = write!(out, "not yet {n}");
        }
        EvalStop::Fault(kind) => put(out, kind.name()),
        EvalStop::Memory => put(out, "memory"),
    }
}

/// An expression whose names have no prefix. Where streams are allowed, its paths are marked.
pub fn bound(alloc: Global, source: &str, streams: bool) -> Result<Expr, Fail> {
    let scopes = Scopes::start(alloc)?;
    let mut e = bind(alloc, expression(alloc, source)?, &scopes, None)?;
    mark(&mut e, streams);
    Ok(e)
}

/// The value at the root.
pub fn shown(alloc: Global, table: &Plain, e: &Expr) -> Result<String, AllocError> {
    let none = List::new(alloc);
    let env = Env {
        globals: &none,
        locals: &none,
    };
    let mut view = table.view();
    view.told();
    let mut out = String::new(alloc);
    match eval(alloc, &mut view, &mut NoKeys, e, &ROOT, &env) {
        Ok(value) => put_value(&mut out, &value),
        Err(stop) => put_stop(&mut out, stop),
    }
    Ok(out)
}

// The rows of a table of expressions over a document whose value is another one, with it.
fn others(alloc: Global, document: &str, values: &str, streams: bool) -> Result<String, Fail> {
    let table = whole(alloc, document.as_bytes())?;
    let mut out = String::new(alloc);
    for row in values.lines() {
        let (source, want) = row.split_once(" => ").unwrap_or((row, "no row"));
        let given = shown(alloc, &table, &bound(alloc, source, streams)?)?;
        if given.as_str() != want {
            put(&mut out, row);
            put(&mut out, ", not ");
            put(&mut out, given.as_str());
            put(&mut out, "\n");
        }
    }
    Ok(out)
}

#[test]
fn values_are_those_of_another_processor(rt: HostRuntime) -> Result<(), Fail> {
    let alloc = rt.alloc();
    for (document, values) in [
        (TREE, TREE_VALUES),
        (NUMBERS, NUMBERS_VALUES),
        (MIXED, MIXED_VALUES),
        (BOOK, BOOK_VALUES),
    ] {
        assert_eq!(rt; others(alloc, document, values, false)?.as_str(), "");
        assert_eq!(rt; others(alloc, document, values, true)?.as_str(), "");
    }
    Ok(())
}

// What other processors compute with fractions, leave open or don't say as the standard does.
const BY_DEFINITION: &str = "\
string(12345678901 * 10) => '123456789010'
count(.//.) = count(//node()) + 1 => true
1 div 2 => Fraction
6 div 3 => 2
1 div 0 => NumberRange
number('1.5') => Fraction
number('1.0') => 1
9007199254740991 + 1 => NumberRange
0 - 9007199254740991 - 1 => NumberRange
1 = 1 or 1 div 0 => true
1 = 2 and 1 div 0 => false
1 div 0 = 1 div 2 => NumberRange
count(1) => NotNodeSet
count(1 div 0) => NumberRange
1 | //b => NotNodeSet
//b | 1 => NotNodeSet
'x'[1] => NotNodeSet
(1)/b => NotNodeSet
//b[1 div 0] => NumberRange
//none[1 div 0] => none
//b[2][1 div 2] => Fraction
//b = //c[1 div 0] => NumberRange
//none = //c[1 div 0] => NumberRange
sum(//b) => NaN
substring('12345', 2, 1 div 2) => Fraction
generate-id(//b) => 'n3'
generate-id(//none) => ''
generate-id() => 'n0'
id('x') => none
current() => [0]
//b[current()/a] => [3][7][15][18]
-(0) => 0
0 * -1 => 0";

#[test]
fn values_are_those_of_the_whole_number_profile(rt: HostRuntime) -> Result<(), Fail> {
    assert_eq!(rt;
        others(rt.alloc(), TREE, BY_DEFINITION, false)?.as_str(),
        ""
    );
    Ok(())
}

// As a boolean, as a string, and as a predicate.
fn judged(alloc: Global, table: &Plain, e: &Expr) -> Result<String, AllocError> {
    let none = List::new(alloc);
    let env = Env {
        globals: &none,
        locals: &none,
    };
    let mut view = table.view();
    view.told();
    let mut keys = NoKeys;
    let mut out = String::new(alloc);
    match truth(alloc, &mut view, &mut keys, e, &ROOT, &env) {
        Ok(truth) => put_truth(&mut out, truth),
        Err(stop) => put_stop(&mut out, stop),
    }
    put(&mut out, " ");
    match text(alloc, &mut view, &mut keys, e, &ROOT, &env) {
        Ok(bytes) => put_text(&mut out, bytes.as_slice()),
        Err(stop) => put_stop(&mut out, stop),
    }
    put(&mut out, " ");
    match holds(alloc, &mut view, &mut keys, e, &ROOT, &env) {
        Ok(truth) => put_truth(&mut out, truth),
        Err(stop) => put_stop(&mut out, stop),
    }
    Ok(out)
}

const JUDGED: &str = "\
//none => false '' false
/a/b => true 'xy' true
//b => true 'xy' true
0 => false '0' false
1 => true '1' true
2 => true '2' false
'' => false '' false
'0' => true '0' true
1 = 1 => true 'true' true
1 = 2 => false 'false' false
1 div 2 => Fraction Fraction Fraction
/a/b[1 div 2] => Fraction Fraction Fraction
/a/b[@n = 2 or 1 div 2] => true 'xy' true";

#[test]
fn expressions_are_judged_by_their_first_item(rt: HostRuntime) -> Result<(), Fail> {
    let alloc = rt.alloc();
    let table = whole(alloc, TREE.as_bytes())?;
    for row in JUDGED.lines() {
        let (source, want) = row.split_once(" => ").unwrap_or((row, "no row"));
        let given = judged(alloc, &table, &bound(alloc, source, true)?)?;
        assert_eq!(rt; given.as_str(), want, "{source:?}");
    }
    Ok(())
}
