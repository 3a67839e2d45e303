//! Worked texts, from outside. A tree is shown by its constructors, a name or a literal in `<>`, a refusal by its text.

use std::alloc::{AllocError, Global};
use std::test::Fail;
use xpath_parse::{expression, pattern, value_template};
use xpath_syntax::{
    AxisName, Expr, NameRef, Part, Path, PatternPath, PatternStart, StepExpr, TestExpr,
};

// Where memory is wanting, the text comes out shorter, and so differs from what is wanted.
fn put(out: &mut String, part: &str) {
    let _short = out.push_str(part);
}

fn separator(later: bool, mark: &'static str) -> &'static str {
    if later { mark } else { "" }
}

fn put_bytes(out: &mut String, open: &str, bytes: &[u8], close: &str) {
    put(out, open);
    if let Ok(part) = str::from_utf8(bytes) {
        put(out, part);
    }
    put(out, close);
}

fn name(out: &mut String, label: &str, n: &NameRef) {
    put(out, label);
    put_bytes(out, "<", n.prefix.as_slice(), "");
    if !n.prefix.is_empty() && !n.local.is_empty() {
        put(out, ":");
    }
    put_bytes(out, "", n.local.as_slice(), ">");
    if let Some(uri) = &n.uri {
        put_bytes(out, "{", uri.as_slice(), "}");
    }
    if let Some(slot) = n.slot {
        let _short = write!(out, "#{slot}");
    }
}

fn axis(axis: AxisName) -> &'static str {
    match axis {
        AxisName::Itself => "self::",
        AxisName::Child => "child::",
        AxisName::Parent => "parent::",
        AxisName::Descendant => "descendant::",
        AxisName::DescendantOrSelf => "descendant-or-self::",
        AxisName::Ancestor => "ancestor::",
        AxisName::AncestorOrSelf => "ancestor-or-self::",
        AxisName::Following => "following::",
        AxisName::Preceding => "preceding::",
        AxisName::FollowingSibling => "following-sibling::",
        AxisName::PrecedingSibling => "preceding-sibling::",
        AxisName::Attribute => "attribute::",
        AxisName::Namespace => "namespace::",
    }
}

fn node_test(out: &mut String, test: &TestExpr) {
    match test {
        TestExpr::AnyName => put(out, "AnyName"),
        TestExpr::InPrefix(n) => name(out, "InPrefix", n),
        TestExpr::Name(n) => name(out, "Name", n),
        TestExpr::Node => put(out, "Node"),
        TestExpr::Text => put(out, "Text"),
        TestExpr::Comment => put(out, "Comment"),
        TestExpr::Instruction(None) => put(out, "Instruction"),
        TestExpr::Instruction(Some(target)) => {
            put_bytes(out, "Instruction<", target.as_slice(), ">")
        }
    }
}

#[cycle(shows)]
fn step(out: &mut String, s: &StepExpr) {
    put(out, axis(s.axis));
    node_test(out, &s.test);
    for predicate in s.predicates.as_slice() {
        put(out, "[");
        tree(out, predicate);
        put(out, "]");
    }
}

#[cycle(shows)]
fn path(out: &mut String, p: &Path) {
    if p.absolute {
        put(out, "/");
    }
    let mut later = false;
    for s in p.parts.as_slice() {
        put(out, separator(later, ","));
        step(out, s);
        later = true;
    }
}

#[cycle(shows)]
fn trees(out: &mut String, all: &[Expr]) {
    let mut later = false;
    for one in all {
        put(out, separator(later, ","));
        tree(out, one);
        later = true;
    }
}

// The constructors of a tree.
#[cycle(shows)]
pub fn tree(out: &mut String, e: &Expr) {
    match e {
        Expr::Binary { op, left, right } => {
            let _short = write!(out, "{op:?}(");
            tree(out, left.get());
            put(out, ",");
            tree(out, right.get());
            put(out, ")");
        }
        Expr::Minus(inner) => {
            put(out, "Minus(");
            tree(out, inner.get());
            put(out, ")");
        }
        Expr::Literal(text) => put_bytes(out, "Literal<", text.as_slice(), ">"),
        Expr::Number(z) => {
            let _short = write!(out, "Number<{z}>");
        }
        Expr::Variable(n) => name(out, "Variable", n),
        Expr::Call { name: n, args } => {
            name(out, "Call", n);
            put(out, "(");
            trees(out, args.as_slice());
            put(out, ")");
        }
        Expr::Path(p) => {
            put(out, "Path(");
            path(out, p);
            put(out, ")");
        }
        Expr::Filter {
            primary,
            predicates,
            tail,
        } => {
            put(out, "Filter(");
            tree(out, primary.get());
            put(out, ";");
            trees(out, predicates.as_slice());
            put(out, ";");
            match tail {
                None => put(out, "None"),
                Some(p) => path(out, p),
            }
            put(out, ")");
        }
    }
}

fn start(out: &mut String, start: &PatternStart) {
    match start {
        PatternStart::Relative => put(out, "Relative"),
        PatternStart::Root => put(out, "Root"),
        PatternStart::Deep => put(out, "Deep"),
        PatternStart::Id(value) => put_bytes(out, "Id<", value.as_slice(), ">"),
        PatternStart::Key { name: n, value } => {
            name(out, "Key", n);
            put_bytes(out, ",<", value.as_slice(), ">");
        }
    }
}

pub fn pattern_path(out: &mut String, p: &PatternPath) {
    start(out, &p.start);
    put(out, "(");
    let mut later = false;
    for s in p.parts.as_slice() {
        put(out, separator(later, ","));
        put(out, if s.deep { "//" } else { "/" });
        step(out, &s.part);
        later = true;
    }
    put(out, ")");
}

fn shown_expression(alloc: Global, text: &str) -> Result<String, AllocError> {
    let mut out = String::new(alloc);
    match expression(alloc, text) {
        Ok(e) => tree(&mut out, &e),
        Err(error) => return error.to_string(alloc),
    }
    Ok(out)
}

fn shown_pattern(alloc: Global, text: &str) -> Result<String, AllocError> {
    let mut out = String::new(alloc);
    match pattern(alloc, text) {
        Ok(p) => {
            let mut later = false;
            for one in p.alternatives.as_slice() {
                put(&mut out, separator(later, "|"));
                pattern_path(&mut out, one);
                later = true;
            }
        }
        Err(error) => return error.to_string(alloc),
    }
    Ok(out)
}

fn part(out: &mut String, part: &Part) {
    match part {
        Part::Plain(text) => put_bytes(out, "Plain<", text.as_slice(), ">"),
        Part::Value(e) => {
            put(out, "Value(");
            tree(out, e);
            put(out, ")");
        }
    }
}

fn shown_template(alloc: Global, text: &str) -> Result<String, AllocError> {
    let mut out = String::new(alloc);
    match value_template(alloc, text) {
        Ok(parts) => {
            let mut later = false;
            for one in parts.as_slice() {
                put(&mut out, separator(later, ";"));
                part(&mut out, one);
                later = true;
            }
        }
        Err(error) => return error.to_string(alloc),
    }
    Ok(out)
}

// Each line has a text, ` => ` and what it gives.
const EXPRESSIONS: &str = "\
* * * => Multiply(Path(child::AnyName),Path(child::AnyName))
div div div => Div(Path(child::Name<div>),Path(child::Name<div>))
-1 - -1 => Subtract(Minus(Number<1>),Minus(Number<1>))
1 or 2 and 3 = 4 < 5 + 6 * -7|8 => Or(Number<1>,And(Number<2>,Equal(Number<3>,Less(Number<4>,Add(Number<5>,Multiply(Number<6>,Minus(Union(Number<7>,Number<8>))))))))
1|2 * 3 + 4 < 5 = 6 and 7 or 8 => Or(And(Equal(Less(Add(Multiply(Union(Number<1>,Number<2>),Number<3>),Number<4>),Number<5>),Number<6>),Number<7>),Number<8>)
1 or 2 or 3 => Or(Or(Number<1>,Number<2>),Number<3>)
1 and 2 and 3 => And(And(Number<1>,Number<2>),Number<3>)
a = b != c => NotEqual(Equal(Path(child::Name<a>),Path(child::Name<b>)),Path(child::Name<c>))
1 < 2 <= 3 > 4 >= 5 => GreaterEqual(Greater(LessEqual(Less(Number<1>,Number<2>),Number<3>),Number<4>),Number<5>)
1 - 2 + 3 => Add(Subtract(Number<1>,Number<2>),Number<3>)
1 div 2 mod 3 * 4 => Multiply(Mod(Div(Number<1>,Number<2>),Number<3>),Number<4>)
a|b|c => Union(Union(Path(child::Name<a>),Path(child::Name<b>)),Path(child::Name<c>))
self::a/child::a/parent::a/descendant::a/descendant-or-self::a/ancestor::a/ancestor-or-self::a => Path(self::Name<a>,child::Name<a>,parent::Name<a>,descendant::Name<a>,descendant-or-self::Name<a>,ancestor::Name<a>,ancestor-or-self::Name<a>)
following::a/preceding::a/following-sibling::a/preceding-sibling::a/attribute::a/namespace::a => Path(following::Name<a>,preceding::Name<a>,following-sibling::Name<a>,preceding-sibling::Name<a>,attribute::Name<a>,namespace::Name<a>)
*/p:*/p:a/node()/text()/comment()/processing-instruction()/processing-instruction(\"x\") => Path(child::AnyName,child::InPrefix<p>,child::Name<p:a>,child::Node,child::Text,child::Comment,child::Instruction,child::Instruction<x>)
.//.. => Path(self::Node,descendant-or-self::Node,parent::Node)
//a => Path(/descendant-or-self::Node,child::Name<a>)
@a/@* => Path(attribute::Name<a>,attribute::AnyName)
/ => Path(/)
/ + 1 => Add(Path(/),Number<1>)
/* => Path(/child::AnyName)
following::b[//@*]/node()//item[position() = last()][1] => Path(following::Name<b>[Path(/descendant-or-self::Node,attribute::AnyName)],child::Node,descendant-or-self::Node,child::Name<item>[Equal(Call<position>(),Call<last>())][Number<1>])
(a)/b => Filter(Path(child::Name<a>);;child::Name<b>)
(a)[1]//b => Filter(Path(child::Name<a>);Number<1>;descendant-or-self::Node,child::Name<b>)
key(\"k\",1)[2] => Filter(Call<key>(Literal<k>,Number<1>);Number<2>;None)
$p:v => Variable<p:v>
p:f('é𝒳',$v) => Call<p:f>(Literal<é𝒳>,Variable<v>)
f() => Call<f>()
5. => Number<5>
.0 => Number<0>
9007199254740991 => Number<9007199254740991>
9007199254740992 => number out of range at byte 0
3.5 => fraction at byte 0
a[.5] => fraction at byte 2
 => syntax error at byte 0
a[ => syntax error at byte 2
.[1] => syntax error at byte 1
f(,) => syntax error at byte 2
a::b => syntax error at byte 0
// => syntax error at byte 2
a # b => no token at byte 2
a:b:c => no token at byte 3
5 + 'a => no token at byte 4";

#[test]
fn expressions_have_these_trees(rt: HostRuntime) -> Result<(), Fail> {
    for row in EXPRESSIONS.lines() {
        let (text, want) = row.split_once(" => ").unwrap_or((row, "no row"));
        assert_eq!(rt;
            shown_expression(rt.alloc(), text)?.as_str(),
            want,
            "{text:?}"
        );
    }
    Ok(())
}

const PATTERNS: &str = "\
/ => Root()
/a//@b => Root(/child::Name<a>,//attribute::Name<b>)
//a => Deep(/child::Name<a>)
@*|node() => Relative(/attribute::AnyName)|Relative(/child::Node)
id('x') => Id<x>()
key('k','x')//a/b => Key<k>,<x>(//child::Name<a>,/child::Name<b>)
child::item//a | b[true()]/attribute::a[3] => Relative(/child::Name<item>,//child::Name<a>)|Relative(/child::Name<b>[Call<true>()],/attribute::Name<a>[Number<3>])
.. => syntax error at byte 0
parent::a => syntax error at byte 0
a/ => syntax error at byte 2
id(1) => syntax error at byte 3
key('1','x') => syntax error at byte 4
/a| => syntax error at byte 3";

#[test]
fn patterns_have_these_trees(rt: HostRuntime) -> Result<(), Fail> {
    for row in PATTERNS.lines() {
        let (text, want) = row.split_once(" => ").unwrap_or((row, "no row"));
        assert_eq!(rt; shown_pattern(rt.alloc(), text)?.as_str(), want, "{text:?}");
    }
    Ok(())
}

const TEMPLATES: &str = "\
é{b}c => Plain<é>;Value(Path(child::Name<b>));Plain<c>
a{{b}}{c} => Plain<a{b}>;Value(Path(child::Name<c>))
{'}'}{\"}\"} => Value(Literal<}>);Value(Literal<}>)
a{ => syntax error at byte 2
{} => syntax error at byte 1
a} => syntax error at byte 1
{' => syntax error at byte 2
{{a}{a}}- => syntax error at byte 3
{a}{*$} => no token at byte 5
{a}{9007199254740992} => number out of range at byte 4
{a}{-.5} => fraction at byte 5";

#[test]
fn value_templates_have_these_parts(rt: HostRuntime) -> Result<(), Fail> {
    for row in TEMPLATES.lines() {
        let (text, want) = row.split_once(" => ").unwrap_or((row, "no row"));
        assert_eq!(rt;
            shown_template(rt.alloc(), text)?.as_str(),
            want,
            "{text:?}"
        );
    }
    Ok(())
}

pub fn nested(alloc: Global, levels: usize, open: &str, inner: &str, close: &str) -> String {
    let mut text = String::new(alloc);
    for _ in 0..levels {
        put(&mut text, open);
    }
    put(&mut text, inner);
    for _ in 0..levels {
        put(&mut text, close);
    }
    text
}

#[test]
fn a_hundred_levels_have_a_tree(rt: HostRuntime) -> Result<(), Fail> {
    for (open, inner, close, front, middle, back) in [
        ("(", "1", ")", "", "Number<1>", ""),
        ("-", "1", "", "Minus(", "Number<1>", ")"),
        ("f(", "", ")", "Call<f>(", "", ")"),
        ("a[", "1", "]", "Path(child::Name<a>[", "Number<1>", "])"),
    ] {
        let text = nested(rt.alloc(), 100, open, inner, close);
        let tree = nested(rt.alloc(), 100, front, middle, back);
        assert_eq!(rt;
            shown_expression(rt.alloc(), text.as_str())?,
            tree,
            "{text:?}"
        );
    }
    Ok(())
}

#[test]
fn more_levels_are_refused_where_the_next_opens(rt: HostRuntime) -> Result<(), Fail> {
    for (levels, open, inner, close, want) in [
        (101, "(", "1", ")", "nested too deep at byte 100"),
        (101, "-", "1", "", "nested too deep at byte 100"),
        (101, "f(", "", ")", "nested too deep at byte 201"),
        (101, "a[", "1", "]", "nested too deep at byte 201"),
        (100, "-", "f ()", "", "nested too deep at byte 102"),
        (50, "(-", "$v[1]", ")", "nested too deep at byte 102"),
        (101, "(", "3.5 #", ")", "no token at byte 105"),
    ] {
        let text = nested(rt.alloc(), levels, open, inner, close);
        assert_eq!(rt;
            shown_expression(rt.alloc(), text.as_str())?.as_str(),
            want,
            "{text:?}"
        );
    }
    Ok(())
}
