//! Stylesheets from bytes: their first faults over all passes, and what their rules are.
//!
//! A row has the line and the kind of the first fault of a stylesheet, or `a sheet`, and its lines with `~` between them. A
//! line behind a number and `*` stands so many times. `WHOLE` and `LIMITS` have all lines of a stylesheet; in the other tables
//! three lines stand in front of those of a row, so that the first one has the number 4.

use sheet_compile::{CompileStop, compile};
use std::alloc::{AllocError, Global};
use std::test::Fail;

const FRONT: &str =
    "(xsl:stylesheet\nAxmlns:xsl http://www.w3.org/1999/XSL/Transform\nAversion 1.0\n";

const END: &str = ")xsl:stylesheet\n";

// Flaws of lines and faults of root elements: each kind at the first place where it may stand, and at a later one.
const WHOLE: &str = "\
1 UnknownLine <= &x
2 UnknownLine <= (a~[x~)a
2 NoSpace <= (a~Ak
3 NoSpace <= (a~Ak 1~Al~)a
1 BadName <= (1
2 BadName <= (a~?b:c x~)a
1 UnboundPrefix <= (p:a~)p:a
2 UnboundPrefix <= (a~(b~Ap:k 1~)b~)a
1 DuplicateAttr <= (a~Ak 1~Ak 2~)a
2 DuplicateAttr <= (a~(b~Axmlns:p u~Axmlns:q u~Ap:k 1~Aq:k 2~)b~)a
3 SecondRoot <= (a~)a~(b
4 SecondRoot <= (a~)a~?x y~(b
1001 TooDeep <= 1001*(a
2999 TooDeep <= 1000*(a~999*)a~1000*(a
1 AttrPlace <= Ak 1
3 AttrPlace <= (a~-x~Ak 1
258 TooManyAttrs <= (a~257*Ak 1
259 TooManyAttrs <= (a~(b~Axmlns:p u~256*Ak 1
1 TextOutside <= -x
3 TextOutside <= (a~)a~-x
1 WrongEnd <= )a
3 WrongEnd <= (a~(b~)a
2 NoRoot <= C
4 NoRoot <= - ~?x y~C
2 Unclosed <= (a
4 Unclosed <= (a~(b~)b
1 NotStylesheet <= (a~)a
2 NotStylesheet <= ?x y~(xsl:template~Axmlns:xsl http://www.w3.org/1999/XSL/Transform~)xsl:template
1 MissingAttribute <= (xsl:stylesheet~Axmlns:xsl http://www.w3.org/1999/XSL/Transform~)xsl:stylesheet
1 BadVersion <= (xsl:stylesheet~Axmlns:xsl http://www.w3.org/1999/XSL/Transform~Aversion 1.1~)xsl:stylesheet
2 BadVersion <= ?x y~(xsl:transform~Axmlns:xsl http://www.w3.org/1999/XSL/Transform~Aversion 1~)xsl:transform";

// Limits of a whole stylesheet: bytes of text, and rows.
const LIMITS: &str = "\
131074 TooMuchText <= (a~140000*-xxxxxxxxxxxxxxxxxxxxxxxxxxxxxxxxxxxxxxxxxxxxxxxxxxxxxxxxxxxxxxxx
200000 TooManyNodes <= (a~200000*?x y";

// Faults of elements and of their attributes: each kind at the first place, and at a later one.
const ELEMENTS: &str = "\
104 SheetTooDeep <= (xsl:template~Aname t~99*(b~99*)b~)xsl:template
108 SheetTooDeep <= (xsl:template~Aname t~(b~)b~(c~)c~99*(b~99*)b~)xsl:template
a sheet <= (xsl:template~Aname t~98*(b~98*)b~)xsl:template
4 BadElement <= (x~)x
6 BadElement <= (xsl:template~Amatch a~(xsl:wrong~)xsl:wrong~)xsl:template
1 BadElement <= -x
6 BadElement <= (xsl:template~Amatch a~(xsl:choose~(xsl:when~Atest 1~)xsl:when~-x~)xsl:choose~)xsl:template
4 BadElement <= (xsl:variable~Aname v~Aselect 1~-x~)xsl:variable
7 BadElement <= (xsl:template~Aname t~-x~(xsl:param~Aname p~)xsl:param~)xsl:template
4 Unsupported <= (xsl:import~Ahref x~)xsl:import
4 Unsupported <= (xsl:key~Aname k~Amatch a~Ause key('k', 1)~)xsl:key
6 Unsupported <= (xsl:template~Aname t~(xsl:number~)xsl:number~)xsl:template
4 Unsupported <= (xsl:output~Amethod html~)xsl:output
6 Unsupported <= (xsl:template~Amatch a~(b~Axsl:use-attribute-sets s~)b~)xsl:template
1 BadAttribute <= Awrong 1
6 BadAttribute <= (xsl:template~Amatch a~(xsl:value-of~Aselect 1~Awrong 1~)xsl:value-of~)xsl:template
4 BadAttribute <= (xsl:variable~Aname 1~)xsl:variable
7 BadAttribute <= (xsl:output~Amethod xml~)xsl:output~(xsl:output~Amethod wrong~)xsl:output
4 MissingAttribute <= (xsl:template~Amode m~)xsl:template
6 MissingAttribute <= (xsl:template~Amatch /~(xsl:value-of~)xsl:value-of~)xsl:template";

// Faults of values: each kind at the first place, and at a later one.
const VALUES: &str = "\
4 Lex <= (xsl:variable~Aname v~Aselect #~)xsl:variable
6 Lex <= (xsl:template~Amatch a~(b~Ak {1}{#}~)b~)xsl:template
4 Syntax <= (xsl:variable~Aname v~Aselect 1 +~)xsl:variable
4 Syntax <= (xsl:template~Amatch a + b~)xsl:template
6 Syntax <= (xsl:template~Amatch a~(b~Ak {1}}~)b~)xsl:template
4 FractionLiteral <= (xsl:variable~Aname v~Aselect 1.5~)xsl:variable
8 FractionLiteral <= (xsl:variable~Aname v~Aselect 1.0~)xsl:variable~(xsl:variable~Aname w~Aselect .01~)xsl:variable
4 NumberLimit <= (xsl:variable~Aname v~Aselect 9007199254740992~)xsl:variable
8 NumberLimit <= (xsl:variable~Aname v~Aselect 9007199254740991~)xsl:variable~(xsl:variable~Aname w~Aselect 9007199254740992~)xsl:variable
4 ExprTooDeep <= (xsl:variable~Aname v~\
Aselect -----------------------------------------------------------------------------------------------------1~)xsl:variable
8 ExprTooDeep <= (xsl:variable~Aname v~\
Aselect ----------------------------------------------------------------------------------------------------1~\
)xsl:variable~(xsl:variable~Aname w~\
Aselect 1 + -----------------------------------------------------------------------------------------------------1~)xsl:variable
4 UnboundPrefix <= (xsl:variable~Aname v~Aselect p:a~)xsl:variable
9 UnboundPrefix <= (xsl:variable~Axmlns:p u~Aname v~Aselect p:a~)xsl:variable~(xsl:variable~Aname w~Aselect p:a~)xsl:variable
4 UnknownFunction <= (xsl:variable~Aname v~Aselect wrong()~)xsl:variable
6 UnknownFunction <= (xsl:template~Amatch a~(xsl:value-of~Aselect document(1)~)xsl:value-of~)xsl:template
4 WrongArgs <= (xsl:variable~Aname v~Aselect count()~)xsl:variable
6 WrongArgs <= (xsl:template~Amatch a~(xsl:value-of~Aselect concat(1)~)xsl:value-of~)xsl:template
4 Unsupported <= (xsl:variable~Aname v~Aselect namespace::a~)xsl:variable
6 Unsupported <= (xsl:template~Amatch a~(xsl:value-of~Aselect b/namespace::a~)xsl:value-of~)xsl:template
a sheet <= (xsl:template~Amatch a~(xsl:value-of~Aselect comment()~)xsl:value-of~)xsl:template
4 Unsupported <= (xsl:template~Amatch a[current()]~)xsl:template
4 VariableInPattern <= (xsl:template~Amatch a[$x]~)xsl:template
7 VariableInPattern <= (xsl:template~Amatch a~)xsl:template~(xsl:template~Amatch id('1')/a[b | $x]~)xsl:template";

// Faults of names, and circles: each kind at the first place, and at a later one.
const NAMES: &str = "\
7 DuplicateTemplate <= (xsl:template~Aname t~)xsl:template~(xsl:template~Aname t~)xsl:template
10 DuplicateTemplate <= (xsl:template~Aname t~)xsl:template~(xsl:template~Aname u~)xsl:template~(xsl:template~Amatch a~Aname t~)xsl:template
7 DuplicateVariable <= (xsl:variable~Aname a~)xsl:variable~(xsl:param~Aname a~)xsl:param
11 DuplicateVariable <= (xsl:template~Amatch /~(xsl:variable~Aname v~Aselect 1~)xsl:variable~(b~(xsl:variable~Aname v~\
Aselect 2~)xsl:variable~)b~)xsl:template
6 UnknownTemplate <= (xsl:template~Amatch /~(xsl:call-template~Aname t~)xsl:call-template~)xsl:template
9 UnknownTemplate <= (xsl:template~Aname t~(xsl:call-template~Aname t~)xsl:call-template~(xsl:call-template~Aname u~\
)xsl:call-template~)xsl:template
4 UnknownKey <= (xsl:variable~Aname v~Aselect key('k', 1)~)xsl:variable
6 UnknownKey <= (xsl:template~Amatch /~(xsl:value-of~Aselect key('k', 1)~)xsl:value-of~)xsl:template
4 UnknownVariable <= (xsl:variable~Aname a~Aselect $b~)xsl:variable
12 UnknownVariable <= (xsl:template~Amatch /~(b~(xsl:variable~Aname v~Aselect 1~)xsl:variable~)b~(xsl:value-of~\
Aselect $v~)xsl:value-of~)xsl:template
a sheet <= (xsl:variable~Aname a~Aselect $b~)xsl:variable~(xsl:variable~Aname b~Aselect 1~)xsl:variable
4 Circle <= (xsl:variable~Aname a~Aselect $a~)xsl:variable
4 Circle <= (xsl:variable~Aname a~Aselect $b~)xsl:variable~(xsl:variable~Aname b~Aselect $a~)xsl:variable
4 Circle <= (xsl:variable~Aname a~Aselect $b~)xsl:variable~(xsl:variable~Aname b~Aselect $b~)xsl:variable
8 Circle <= (xsl:variable~Aname a~Aselect 1~)xsl:variable~(xsl:variable~Aname b~Aselect $b~)xsl:variable
7 Circle <= (xsl:template~Amatch b~)xsl:template~(xsl:variable~Aname a~Aselect $a~)xsl:variable
4 Circle <= (xsl:variable~Aname a~(xsl:call-template~Aname t~)xsl:call-template~)xsl:variable~(xsl:template~Aname t~\
(xsl:value-of~Aselect $a~)xsl:value-of~)xsl:template
4 Circle <= (xsl:variable~Aname a~(xsl:apply-templates~Amode m~)xsl:apply-templates~)xsl:variable~(xsl:template~\
Amatch b~Amode m~(xsl:value-of~Aselect $a~)xsl:value-of~)xsl:template
a sheet <= (xsl:variable~Aname a~(xsl:apply-templates~Amode n~)xsl:apply-templates~)xsl:variable~(xsl:template~Amatch b~\
Amode m~(xsl:value-of~Aselect $a~)xsl:value-of~)xsl:template";

// Two faults of checks that follow each other: the earlier check decides, wherever its fault stands.
const PASSES: &str = "\
8 WrongEnd <= (xsl:wrong~)xsl:wrong~(xsl:template~Amatch /
104 SheetTooDeep <= (xsl:template~Aname t~98*(b~(xsl:wrong~)xsl:wrong~98*)b~)xsl:template
4 BadElement <= (xsl:output~Amethod html~-x~)xsl:output
8 BadElement <= (xsl:template~Aname t~(xsl:call-template~Aname t~(xsl:number~)xsl:number~)xsl:call-template~)xsl:template
6 BadElement <= (xsl:template~Aname t~(xsl:choose~(xsl:wrong~)xsl:wrong~-x~)xsl:choose~)xsl:template
4 BadElement <= (xsl:variable~Aname 1~Aselect #~-x~)xsl:variable
4 Unsupported <= (xsl:output~Awrong 1~Amethod html~)xsl:output
4 BadAttribute <= (xsl:template~Awrong 1~)xsl:template
1 BadAttribute <= Awrong 1~(xsl:wrong~)xsl:wrong
4 MissingAttribute <= (xsl:template~Amode 1~)xsl:template
4 BadAttribute <= (xsl:variable~Aname 1~Aselect #~)xsl:variable
4 Lex <= (xsl:variable~Aselect #~Aname 1~)xsl:variable
4 Lex <= (xsl:variable~Aname v~Aselect 1 + + #~)xsl:variable
4 Syntax <= (xsl:variable~Aname v~Aselect 1 + + 1.5~)xsl:variable
4 FractionLiteral <= (xsl:variable~Aname v~Aselect 1.5 +~)xsl:variable
4 FractionLiteral <= (xsl:variable~Aname v~Aselect 9007199254740992.5~)xsl:variable
4 NumberLimit <= (xsl:variable~Aname v~\
Aselect 9007199254740992 + -----------------------------------------------------------------------------------------------------1~)xsl:variable
4 ExprTooDeep <= (xsl:variable~Aname v~\
Aselect p:a + -----------------------------------------------------------------------------------------------------1~)xsl:variable
6 Syntax <= (xsl:template~Amatch a~(b~Ak {p:a}{~)b~)xsl:template
4 UnboundPrefix <= (xsl:variable~Aname v~Aselect p:a + wrong()~)xsl:variable
4 UnknownFunction <= (xsl:variable~Aname v~Aselect wrong() + p:a + count()~)xsl:variable
4 WrongArgs <= (xsl:variable~Aname v~Aselect count() + namespace::a~)xsl:variable
4 Unsupported <= (xsl:variable~Aname v~Aselect namespace::a + count()~)xsl:variable
4 UnboundPrefix <= (xsl:template~Amatch a[$x]/p:b~)xsl:template
4 Unsupported <= (xsl:template~Amatch a[$x][current()]~)xsl:template
6 UnboundPrefix <= (xsl:template~Aname t~(b~Ak {p:a}~(xsl:wrong~)xsl:wrong~)b~)xsl:template
10 BadElement <= (xsl:template~Aname t~)xsl:template~(xsl:template~Aname t~)xsl:template~(xsl:wrong~)xsl:wrong
7 DuplicateTemplate <= (xsl:template~Aname t~)xsl:template~(xsl:template~Aname t~Amatch a[key('k', 1)]~)xsl:template
7 DuplicateVariable <= (xsl:variable~Aname a~)xsl:variable~(xsl:variable~Aname a~Aselect key('k', 1)~)xsl:variable
6 UnknownTemplate <= (xsl:template~Aname t~(xsl:call-template~Aname u~(xsl:with-param~Aname p~Aselect key('k', 1)~\
)xsl:with-param~)xsl:call-template~)xsl:template
6 UnknownTemplate <= (xsl:template~Aname t~(xsl:call-template~Aname u~)xsl:call-template~)xsl:template~(xsl:template~Aname t~)xsl:template
4 UnknownKey <= (xsl:variable~Aname a~Aselect $b + key('k', 1)~)xsl:variable
10 UnknownVariable <= (xsl:variable~Aname a~Aselect $a~)xsl:variable~(xsl:template~Amatch /~(xsl:value-of~Aselect $c~\
)xsl:value-of~)xsl:template";

// Stylesheets of the kinds that the other tests run.
const SHEETS: &str = "\
a sheet <= (xsl:output~Amethod text~)xsl:output~(xsl:template~Amatch item~(xsl:value-of~Aselect @k~)xsl:value-of~-;~)xsl:template
a sheet <= (xsl:output~Amethod text~)xsl:output~(xsl:template~Amatch item~(xsl:value-of~Aselect .~)xsl:value-of~-;~)xsl:template
a sheet <= (xsl:output~Amethod text~)xsl:output~(xsl:template~Amatch list~(xsl:for-each~Aselect item~(xsl:value-of~\
Aselect position()~)xsl:value-of~-/~(xsl:value-of~Aselect last()~)xsl:value-of~(xsl:text~- ~)xsl:text~)xsl:for-each~)xsl:template
a sheet <= (xsl:output~Amethod text~)xsl:output~(xsl:template~Amatch item~(xsl:value-of~Aselect count(following::item)~\
)xsl:value-of~-;~)xsl:template
a sheet <= (xsl:output~Amethod text~)xsl:output~(xsl:template~Amatch item~(xsl:value-of~Aselect count(preceding::item)~\
)xsl:value-of~-;~)xsl:template
a sheet <= (xsl:output~Amethod text~)xsl:output~(xsl:template~Amatch /~(xsl:message~Aterminate yes~-halt~)xsl:message~)xsl:template
a sheet <= (xsl:output~Amethod text~)xsl:output~(xsl:strip-space~Aelements *~)xsl:strip-space
7 Unsupported <= (xsl:output~Amethod text~)xsl:output~(xsl:key~Aname k~Amatch item~Ause @k~)xsl:key~(xsl:template~\
Amatch /~(xsl:for-each~Aselect key('k','x')~(xsl:value-of~Aselect .~)xsl:value-of~)xsl:for-each~-|~(xsl:value-of~\
Aselect id('1')~)xsl:value-of~)xsl:template
a sheet <= (xsl:output~Amethod text~)xsl:output~(xsl:template~Amatch l~(xsl:for-each~Aselect i~(xsl:sort~Aselect .~\
Adata-type number~)xsl:sort~(xsl:value-of~Aselect @n~)xsl:value-of~)xsl:for-each~)xsl:template
a sheet <= (xsl:output~Amethod text~)xsl:output~(xsl:template~Amatch l~(xsl:for-each~Aselect i~(xsl:sort~Aselect .~\
Adata-type number~Aorder descending~)xsl:sort~(xsl:value-of~Aselect @n~)xsl:value-of~)xsl:for-each~)xsl:template
a sheet <= (xsl:output~Amethod text~)xsl:output~(xsl:template~Amatch item~(xsl:message~(xsl:value-of~Aselect @k~\
)xsl:value-of~)xsl:message~)xsl:template
a sheet <= Axmlns:c urn:cat~(xsl:template~Amatch @*|node()~(xsl:copy~(xsl:apply-templates~Aselect @*|node()~\
)xsl:apply-templates~)xsl:copy~)xsl:template~(xsl:template~Amatch c:title~(c:name~Aof {../@id}~(xsl:value-of~Aselect .~\
)xsl:value-of~)c:name~)xsl:template
a sheet <= (xsl:template~Amatch /~(e~(xsl:attribute~Aname p:x~Anamespace u1~-1~)xsl:attribute~(xsl:attribute~Aname p:y~\
Anamespace u2~-2~)xsl:attribute~-t~(xsl:attribute~Aname z~-3~)xsl:attribute~)e~)xsl:template
a sheet <= (xsl:template~Amatch /~(p:e~Axmlns:p u1~(f~Ap:x 1~(xsl:attribute~Aname p:y~Anamespace u2~-2~)xsl:attribute~)f~)p:e~)xsl:template
6 MissingAttribute <= (xsl:template~Amatch /~(xsl:value-of~)xsl:value-of~)xsl:template";

// A line, and how many times it stands.
fn repeated(part: &str) -> (u32, &str) {
    if let Some((count, line)) = part.split_once('*')
        && let Ok(count) = count.parse()
    {
        return (count, line);
    }
    (1, part)
}

fn put_lines(out: &mut String, parts: &str) -> Result<(), AllocError> {
    for part in parts.split('~') {
        let (count, line) = repeated(part);
        for _ in 0..count {
            out.push_str(line)?;
            out.push_str("\n")?;
        }
    }
    Ok(())
}

// The first fault of a stylesheet.
fn shown(alloc: Global, bytes: &[u8]) -> Result<String, AllocError> {
    match compile(alloc, bytes) {
        Ok(_) => String::from_str(alloc, "a sheet"),
        Err(CompileStop::Refused(fault)) => {
            format!(in alloc; "{} {}", fault.line, fault.kind.name())
        }
        Err(CompileStop::Memory) => Err(AllocError),
    }
}

// The rows of a table of which another fault is told, with it.
fn others(alloc: Global, front: &str, rows: &str, end: &str) -> Result<String, AllocError> {
    let mut out = String::new(alloc);
    for row in rows.lines() {
        let (want, parts) = row.split_once(" <= ").unwrap_or(("no row", row));
        let mut text = String::new(alloc);
        text.push_str(front)?;
        put_lines(&mut text, parts)?;
        text.push_str(end)?;
        let given = shown(alloc, text.as_bytes())?;
        if given.as_str() != want {
            out.push_str(row)?;
            out.push_str(", not ")?;
            out.push_str(given.as_str())?;
            out.push_str("\n")?;
        }
    }
    Ok(out)
}

#[test]
fn stylesheets_have_their_first_fault(rt: HostRuntime) -> Result<(), Fail> {
    let alloc = rt.alloc();
    for rows in [ELEMENTS, VALUES, NAMES, PASSES, SHEETS] {
        assert_eq!(rt; others(alloc, FRONT, rows, END)?.as_str(), "");
    }
    Ok(())
}

#[test]
fn lines_have_their_first_flaw(rt: HostRuntime) -> Result<(), Fail> {
    let alloc = rt.alloc();
    assert_eq!(rt; others(alloc, "", WHOLE, "")?.as_str(), "");
    assert_eq!(rt; shown(alloc, b"")?.as_str(), "1 NoRoot");
    assert_eq!(rt; shown(alloc, b"\xff\n(a\n")?.as_str(), "1 NotUtf8");
    assert_eq!(rt; shown(alloc, b"(a\n-\xff\n")?.as_str(), "2 NotUtf8");
    Ok(())
}

// 16,384 times 64 bytes, and the one in front of them.
#[test]
fn limits_are_judged(rt: HostRuntime) -> Result<(), Fail> {
    let alloc = rt.alloc();
    assert_eq!(rt; others(alloc, "", LIMITS, "")?.as_str(), "");
    let mut text = String::from_str(alloc, "(a\n-")?;
    for _ in 0..16_384 {
        text.push_str("xxxxxxxxxxxxxxxxxxxxxxxxxxxxxxxxxxxxxxxxxxxxxxxxxxxxxxxxxxxxxxxx")?;
    }
    assert_eq!(rt; shown(alloc, text.as_bytes())?.as_str(), "2 LongLine");
    Ok(())
}

// Each alternative of a pattern is a rule of its own, with the default priority of its node test or 50 hundredths (XSLT 1.0,
// section 5.5).
#[test]
fn alternatives_have_their_priorities(rt: HostRuntime) -> Result<(), Fail> {
    let alloc = rt.alloc();
    let mut text = String::from_str(alloc, FRONT)?;
    put_lines(
        &mut text,
        "(xsl:template~Amatch a | * | xsl:* | a[1] | b/a | / | processing-instruction('t')~Amode m~)xsl:template~(xsl:template~Amatch a~Apriority -1.5~)xsl:template",
    )?;
    text.push_str(END)?;
    let sheet = compile(alloc, text.as_bytes())?;
    let priorities = [0, -50, -25, 50, 50, 50, 0, -150];
    let modes = [1, 1, 1, 1, 1, 1, 1, 0];
    let templates = [0, 0, 0, 0, 0, 0, 0, 1];
    let rules = sheet.rules.as_slice();
    assert_eq!(rt; rules.len(), 8);
    for (at, rule) in rules.iter().enumerate() {
        assert_eq!(rt; rule.priority, priorities[at], "rule {at}");
        assert_eq!(rt; rule.mode, modes[at], "rule {at}");
        assert_eq!(rt; rule.template, templates[at], "rule {at}");
    }
    Ok(())
}
