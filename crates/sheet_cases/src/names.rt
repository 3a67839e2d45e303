//! The first fault of stylesheets in the second pass. A row has the lines of what stands in the root element, and the line
//! and the kind of the first fault. The front of each sheet has three lines, so what stands in it begins at line 4.

use sheet_elements::{SheetFault, SheetKind};
use sheet_names::check_names;
use sheet_reading::{Item, ReadStop, read_elements};
use sheet_source::{SourceStop, read_document};
use std::alloc::{AllocError, Global};
use std::test::Fail;

type Row = (&'static str, Option<(u64, SheetKind)>);

fn sheet(alloc: Global, content: &str) -> Result<String, AllocError> {
    format!(in alloc;
        "(xsl:stylesheet\nAxmlns:xsl http://www.w3.org/1999/XSL/Transform\nAversion 1.0\n{content}\n)xsl:stylesheet\n"
    )
}

fn top_level(items: &[Item]) -> &[Item] {
    match items {
        [Item::Element(root), ..] => root.children.as_slice(),
        _ => items,
    }
}

fn fault_of(alloc: Global, bytes: &[u8]) -> Result<Option<SheetFault>, ReadStop> {
    let document = match read_document(alloc, bytes) {
        Ok(document) => document,
        Err(SourceStop::Flawed(_)) => return Ok(None),
        Err(SourceStop::Memory) => return Err(ReadStop::Memory),
    };
    let items = read_elements(alloc, &document)?;
    match check_names(alloc, top_level(items.as_slice())) {
        Ok(_) => Ok(None),
        Err(ReadStop::Refused(fault)) => Ok(Some(fault)),
        Err(ReadStop::Memory) => Err(ReadStop::Memory),
    }
}

fn wanted(row: Option<(u64, SheetKind)>) -> Option<SheetFault> {
    match row {
        Some((line, kind)) => Some(SheetFault { line, kind }),
        None => None,
    }
}

// Templates and keys.
const TEMPLATES: [Row; 9] = [
    (
        "(xsl:template\nAmatch /\n(xsl:call-template\nAname t\n)xsl:call-template\n)xsl:template",
        Some((6, SheetKind::UnknownTemplate)),
    ),
    (
        "(xsl:template\nAmatch /\n(xsl:call-template\nAname t\n)xsl:call-template\n)xsl:template\n(xsl:template\nAname t\n)xsl:template",
        None,
    ),
    (
        "(xsl:template\nAname t\n)xsl:template\n(xsl:template\nAname t\n)xsl:template",
        Some((7, SheetKind::DuplicateTemplate)),
    ),
    (
        "(xsl:template\nAmatch a\n)xsl:template\n(xsl:template\nAmatch a\n)xsl:template",
        None,
    ),
    (
        "(xsl:template\nAxmlns:p u\nAname p:t\n)xsl:template\n(xsl:template\nAname t\n)xsl:template",
        None,
    ),
    (
        "(xsl:template\nAxmlns:p u\nAname p:t\n)xsl:template\n(xsl:template\nAxmlns:q u\nAname q:t\n)xsl:template",
        Some((8, SheetKind::DuplicateTemplate)),
    ),
    (
        "(xsl:variable\nAname t\nAselect 1\n)xsl:variable\n(xsl:template\nAname t\n)xsl:template",
        None,
    ),
    (
        "(xsl:template\nAmatch a[key('k', 1)]\n)xsl:template",
        Some((4, SheetKind::UnknownKey)),
    ),
    (
        "(xsl:template\nAmatch /\n(b\nAx {1}{key('k', $v)}\n)b\n)xsl:template",
        Some((6, SheetKind::UnknownKey)),
    ),
];

// Variables and parameters.
const VARIABLES: [Row; 17] = [
    (
        "(xsl:variable\nAname a\nAselect $b\n)xsl:variable\n(xsl:variable\nAname b\nAselect 1\n)xsl:variable",
        None,
    ),
    (
        "(xsl:variable\nAname a\nAselect 1\n)xsl:variable\n(xsl:param\nAname a\n)xsl:param",
        Some((8, SheetKind::DuplicateVariable)),
    ),
    (
        "(xsl:variable\nAname a\nAselect $b\n)xsl:variable\n(xsl:param\nAname a\n)xsl:param",
        Some((4, SheetKind::UnknownVariable)),
    ),
    (
        "(xsl:template\nAmatch /\n(xsl:value-of\nAselect a[1 + $v]\n)xsl:value-of\n)xsl:template",
        Some((6, SheetKind::UnknownVariable)),
    ),
    (
        "(xsl:template\nAmatch /\n(b\nAx {1}{$v}\n)b\n)xsl:template",
        Some((6, SheetKind::UnknownVariable)),
    ),
    (
        "(xsl:variable\nAname v\nAselect 1\n)xsl:variable\n(xsl:template\nAmatch /\n(xsl:variable\nAname v\nAselect $v\n)xsl:variable\n)xsl:template",
        None,
    ),
    (
        "(xsl:template\nAmatch /\n(xsl:variable\nAname v\nAselect $v\n)xsl:variable\n)xsl:template",
        Some((6, SheetKind::UnknownVariable)),
    ),
    (
        "(xsl:template\nAmatch /\n(xsl:variable\nAname v\nAselect 1\n)xsl:variable\n(b\n(xsl:variable\nAname v\nAselect 2\n)xsl:variable\n)b\n)xsl:template",
        Some((11, SheetKind::DuplicateVariable)),
    ),
    (
        "(xsl:template\nAmatch /\n(b\n(xsl:variable\nAname v\nAselect 2\n)xsl:variable\n)b\n(xsl:variable\nAname v\nAselect 1\n)xsl:variable\n)xsl:template",
        None,
    ),
    (
        "(xsl:template\nAmatch /\n(b\n(xsl:variable\nAname v\nAselect 2\n)xsl:variable\n)b\n(xsl:value-of\nAselect $v\n)xsl:value-of\n)xsl:template",
        Some((12, SheetKind::UnknownVariable)),
    ),
    (
        "(xsl:template\nAname t\n(xsl:param\nAname p\n)xsl:param\n(xsl:if\nAtest $p\n(xsl:copy-of\nAselect $p/a\n)xsl:copy-of\n)xsl:if\n)xsl:template",
        None,
    ),
    (
        "(xsl:template\nAname t\n(xsl:param\nAname p\n)xsl:param\n(xsl:param\nAname p\n)xsl:param\n)xsl:template",
        Some((9, SheetKind::DuplicateVariable)),
    ),
    (
        "(xsl:template\nAname t\n(xsl:call-template\nAname t\n(xsl:with-param\nAname p\n)xsl:with-param\n(xsl:with-param\nAname p\n)xsl:with-param\n)xsl:call-template\n)xsl:template",
        None,
    ),
    (
        "(xsl:template\nAname t\n(xsl:call-template\nAname t\n(xsl:with-param\nAname p\nAselect 1\n)xsl:with-param\n)xsl:call-template\n(xsl:value-of\nAselect $p\n)xsl:value-of\n)xsl:template",
        Some((13, SheetKind::UnknownVariable)),
    ),
    (
        "(xsl:variable\nAname a\n(xsl:variable\nAname b\nAselect 1\n)xsl:variable\n(xsl:value-of\nAselect $b\n)xsl:value-of\n)xsl:variable",
        None,
    ),
    (
        "(xsl:template\nAname t\n(xsl:call-template\nAname u\n(xsl:with-param\nAname p\nAselect $v\n)xsl:with-param\n)xsl:call-template\n)xsl:template",
        Some((6, SheetKind::UnknownTemplate)),
    ),
    (
        "(xsl:template\nAname t\n(xsl:value-of\nAselect $v\n)xsl:value-of\n)xsl:template\n(xsl:template\nAname t\n)xsl:template",
        Some((6, SheetKind::UnknownVariable)),
    ),
];

#[test]
fn templates_and_keys_have_their_first_fault(rt: HostRuntime) -> Result<(), Fail> {
    let alloc = rt.alloc();
    for (content, fault) in TEMPLATES {
        let text = sheet(alloc, content)?;
        assert_eq!(rt;
            fault_of(alloc, text.as_bytes())?,
            wanted(fault),
            "{content:?}"
        );
    }
    Ok(())
}

#[test]
fn variables_have_their_first_fault(rt: HostRuntime) -> Result<(), Fail> {
    let alloc = rt.alloc();
    for (content, fault) in VARIABLES {
        let text = sheet(alloc, content)?;
        assert_eq!(rt;
            fault_of(alloc, text.as_bytes())?,
            wanted(fault),
            "{content:?}"
        );
    }
    Ok(())
}
