//! The first fault of stylesheets in the first pass. A row has the lines of what stands in the root element, and the line
//! and the kind of the first fault. The front of each sheet has three lines, so what stands in it begins at line 4.

use doc_model::Flaw;
use sheet_elements::{SheetFault, SheetKind};
use sheet_reading::{ReadStop, read_elements};
use sheet_source::{SourceStop, read_document};
use std::alloc::{AllocError, Global};
use std::test::Fail;

type Row = (&'static str, Option<(u64, SheetKind)>);

fn sheet(alloc: Global, content: &str) -> Result<String, AllocError> {
    format!(in alloc;
        "(xsl:stylesheet\nAxmlns:xsl http://www.w3.org/1999/XSL/Transform\nAversion 1.0\n{content}\n)xsl:stylesheet\n"
    )
}

fn fault_of(alloc: Global, bytes: &[u8]) -> Result<Option<SheetFault>, ReadStop> {
    let document = match read_document(alloc, bytes) {
        Ok(document) => document,
        Err(SourceStop::Flawed(Flaw { line, kind })) => {
            return Ok(Some(SheetFault {
                line,
                kind: SheetKind::of_flaw(kind),
            }));
        }
        Err(SourceStop::Memory) => return Err(ReadStop::Memory),
    };
    match read_elements(alloc, &document) {
        Ok(_) => Ok(None),
        Err(ReadStop::Refused(fault)) => Ok(Some(fault)),
        Err(ReadStop::Memory) => Err(ReadStop::Memory),
    }
}

fn wanted(row: Option<(u64, SheetKind)>) -> Option<SheetFault> {
    match row {
        Some((line, kind)) => Some(SheetFault { line, kind }),
        None => None,
    }
}

// Which elements may stand where, and which attributes each has.
const ELEMENTS: [Row; 26] = [
    ("", None),
    (
        "(xsl:template\nAmatch a\n-x\n(b\nAk {c}\n)b\n)xsl:template",
        None,
    ),
    ("(u:x\nAxmlns:u urn:u\n(xsl:wrong\n)xsl:wrong\n)u:x", None),
    ("(x\n)x", Some((4, SheetKind::BadElement))),
    ("(xsl:wrong\n)xsl:wrong", Some((4, SheetKind::BadElement))),
    (
        "(xsl:if\nAtest 1\n)xsl:if",
        Some((4, SheetKind::BadElement)),
    ),
    ("-x", Some((1, SheetKind::BadElement))),
    (
        "(xsl:variable\nAname v\nAselect 1\n-x\n)xsl:variable",
        Some((4, SheetKind::BadElement)),
    ),
    (
        "(xsl:template\nAname t\n-x\n(xsl:param\nAname p\n)xsl:param\n)xsl:template",
        Some((7, SheetKind::BadElement)),
    ),
    (
        "(xsl:template\nAname t\n(xsl:choose\n(xsl:otherwise\n)xsl:otherwise\n(xsl:when\nAtest 1\n)xsl:when\n)xsl:choose\n)xsl:template",
        Some((9, SheetKind::BadElement)),
    ),
    (
        "(xsl:import\nAhref x\n)xsl:import",
        Some((4, SheetKind::Unsupported)),
    ),
    (
        "(xsl:template\nAname t\n(xsl:number\n)xsl:number\n)xsl:template",
        Some((6, SheetKind::Unsupported)),
    ),
    (
        "(xsl:template\nAname t\n(xsl:call-template\nAname t\n(xsl:number\n)xsl:number\n)xsl:call-template\n)xsl:template",
        Some((8, SheetKind::BadElement)),
    ),
    (
        "(xsl:output\nAmethod html\n)xsl:output",
        Some((4, SheetKind::Unsupported)),
    ),
    (
        "(xsl:output\nAmethod html\n-x\n)xsl:output",
        Some((4, SheetKind::BadElement)),
    ),
    (
        "(xsl:output\nAwrong 1\nAmethod html\n)xsl:output",
        Some((4, SheetKind::Unsupported)),
    ),
    (
        "(xsl:template\nAname t\n(xsl:element\nAname e\nAuse-attribute-sets a\n)xsl:element\n)xsl:template",
        Some((6, SheetKind::Unsupported)),
    ),
    (
        "(xsl:template\nAwrong 1\n)xsl:template",
        Some((4, SheetKind::BadAttribute)),
    ),
    (
        "(xsl:template\nAxmlns:u urn:u\nAname t\nAu:wrong 1\n)xsl:template",
        None,
    ),
    (
        "(xsl:template\nAname t\nAxsl:name t\n)xsl:template",
        Some((4, SheetKind::BadAttribute)),
    ),
    (
        "(xsl:template\nAmode m\n)xsl:template",
        Some((4, SheetKind::MissingAttribute)),
    ),
    (
        "(xsl:template\nAmatch /\n(xsl:value-of\n)xsl:value-of\n)xsl:template",
        Some((6, SheetKind::MissingAttribute)),
    ),
    ("(xsl:strip-space\nAelements * a\n)xsl:strip-space", None),
    (
        "(xsl:template\nAname t\n(b\nAxsl:version 1.0\n)b\n)xsl:template",
        None,
    ),
    (
        "(xsl:template\nAname t\n(b\nAxsl:use-attribute-sets a\n)b\n)xsl:template",
        Some((6, SheetKind::Unsupported)),
    ),
    (
        "(xsl:template\nAname t\n(xsl:text\n- \n(b\n)b\n)xsl:text\n)xsl:template",
        Some((8, SheetKind::BadElement)),
    ),
];

// Values of attributes.
const VALUES: [Row; 27] = [
    (
        "(xsl:variable\nAname v\nAselect #\n)xsl:variable",
        Some((4, SheetKind::Lex)),
    ),
    (
        "(xsl:variable\nAname v\nAselect 1 +\n)xsl:variable",
        Some((4, SheetKind::Syntax)),
    ),
    (
        "(xsl:variable\nAname v\nAselect 1.5\n)xsl:variable",
        Some((4, SheetKind::FractionLiteral)),
    ),
    (
        "(xsl:variable\nAname v\nAselect 9007199254740992\n)xsl:variable",
        Some((4, SheetKind::NumberLimit)),
    ),
    (
        "(xsl:variable\nAname v\nAselect p:a\n)xsl:variable",
        Some((4, SheetKind::UnboundPrefix)),
    ),
    (
        "(xsl:variable\nAname v\nAxmlns:p u\nAselect p:a\n)xsl:variable",
        None,
    ),
    (
        "(xsl:variable\nAname v\nAselect p:a + #\n)xsl:variable",
        Some((4, SheetKind::Lex)),
    ),
    (
        "(xsl:variable\nAname v\nAselect wrong()\n)xsl:variable",
        Some((4, SheetKind::UnknownFunction)),
    ),
    (
        "(xsl:variable\nAname v\nAselect count()\n)xsl:variable",
        Some((4, SheetKind::WrongArgs)),
    ),
    (
        "(xsl:variable\nAname v\nAselect namespace::a\n)xsl:variable",
        Some((4, SheetKind::Unsupported)),
    ),
    ("(xsl:variable\nAname v\nAselect $w\n)xsl:variable", None),
    (
        "(xsl:variable\nAname 1\nAselect #\n)xsl:variable",
        Some((4, SheetKind::BadAttribute)),
    ),
    (
        "(xsl:variable\nAselect #\nAname 1\n)xsl:variable",
        Some((4, SheetKind::Lex)),
    ),
    (
        "(xsl:template\nAmatch a[$x]\n)xsl:template",
        Some((4, SheetKind::VariableInPattern)),
    ),
    (
        "(xsl:template\nAmatch a[$x]/p:b\n)xsl:template",
        Some((4, SheetKind::UnboundPrefix)),
    ),
    ("(xsl:template\nAmatch a['$x']\n)xsl:template", None),
    (
        "(xsl:template\nAmatch a\nApriority -.5\n)xsl:template",
        None,
    ),
    (
        "(xsl:template\nAmatch a\nApriority 1000000.5\n)xsl:template",
        Some((4, SheetKind::BadAttribute)),
    ),
    (
        "(xsl:template\nAmatch a\nApriority 1.234\n)xsl:template",
        Some((4, SheetKind::BadAttribute)),
    ),
    (
        "(xsl:strip-space\nAelements p:* 9\n)xsl:strip-space",
        Some((4, SheetKind::BadAttribute)),
    ),
    (
        "(xsl:strip-space\nAelements p:*\n)xsl:strip-space",
        Some((4, SheetKind::UnboundPrefix)),
    ),
    (
        "(xsl:output\nAmethod xml\n)xsl:output\n(xsl:output\nAmethod wrong\n)xsl:output",
        Some((7, SheetKind::BadAttribute)),
    ),
    (
        "(xsl:template\nAname t\n(b\nAk {\n)b\n)xsl:template",
        Some((6, SheetKind::Syntax)),
    ),
    (
        "(xsl:template\nAname t\n(b\nAk {p:a}{#}\n)b\n)xsl:template",
        Some((6, SheetKind::Lex)),
    ),
    (
        "(xsl:template\nAname t\n(b\nAk {p:a}\n(xsl:wrong\n)xsl:wrong\n)b\n)xsl:template",
        Some((6, SheetKind::UnboundPrefix)),
    ),
    (
        "(xsl:template\nAname t\n(b\nAxmlns:p u\n(c\nAk {p:a}\n)c\n)b\n(c\nAk {p:a}\n)c\n)xsl:template",
        Some((12, SheetKind::UnboundPrefix)),
    ),
    (
        "(xsl:template\nAname t\n(xsl:message\nAterminate maybe\n)xsl:message\n)xsl:template",
        Some((6, SheetKind::BadAttribute)),
    ),
];

// The root element.
const WHOLE: [Row; 5] = [
    ("(a\n)a\n", Some((1, SheetKind::NotStylesheet))),
    (
        "(xsl:template\nAxmlns:xsl http://www.w3.org/1999/XSL/Transform\n)xsl:template\n",
        Some((1, SheetKind::NotStylesheet)),
    ),
    (
        "(x:transform\nAxmlns:x http://www.w3.org/1999/XSL/Transform\n)x:transform\n",
        Some((1, SheetKind::MissingAttribute)),
    ),
    (
        "(x:transform\nAxmlns:x http://www.w3.org/1999/XSL/Transform\nAversion 2.0\nAextension-element-prefixes e\n)x:transform\n",
        Some((1, SheetKind::BadVersion)),
    ),
    (
        "(x:transform\nAxmlns:x http://www.w3.org/1999/XSL/Transform\nAversion 1.0\nAextension-element-prefixes e\n)x:transform\n",
        Some((1, SheetKind::BadAttribute)),
    ),
];

#[test]
fn elements_have_their_first_fault(rt: HostRuntime) -> Result<(), Fail> {
    let alloc = rt.alloc();
    for (content, fault) in ELEMENTS {
        let text = sheet(alloc, content)?;
        assert_eq!(rt;
            fault_of(alloc, text.as_bytes())?,
            wanted(fault),
            "{content:?}"
        );
    }
    Ok(())
}

#[test]
fn values_have_their_first_fault(rt: HostRuntime) -> Result<(), Fail> {
    let alloc = rt.alloc();
    for (content, fault) in VALUES {
        let text = sheet(alloc, content)?;
        assert_eq!(rt;
            fault_of(alloc, text.as_bytes())?,
            wanted(fault),
            "{content:?}"
        );
    }
    Ok(())
}

#[test]
fn root_elements_have_their_first_fault(rt: HostRuntime) -> Result<(), Fail> {
    let alloc = rt.alloc();
    for (text, fault) in WHOLE {
        assert_eq!(rt;
            fault_of(alloc, text.as_bytes())?,
            wanted(fault),
            "{text:?}"
        );
    }
    Ok(())
}

// A template with so many literal elements in each other.
fn nested(alloc: Global, count: u32) -> Result<String, AllocError> {
    let mut content = String::new(alloc);
    content.push_str("(xsl:template\nAname t\n")?;
    for _ in 0..count {
        content.push_str("(b\n")?;
    }
    for _ in 0..count {
        content.push_str(")b\n")?;
    }
    content.push_str(")xsl:template")?;
    sheet(alloc, content.as_str())
}

#[test]
fn hundred_levels_are_the_most(rt: HostRuntime) -> Result<(), Fail> {
    let alloc = rt.alloc();
    let text = nested(alloc, 98)?;
    assert_eq!(rt; fault_of(alloc, text.as_bytes())?, None);
    let text = nested(alloc, 99)?;
    assert_eq!(rt;
        fault_of(alloc, text.as_bytes())?,
        wanted(Some((104, SheetKind::SheetTooDeep)))
    );
    Ok(())
}
