//! The elements of stylesheets. An element is shown by its local name, its line and its scope, a text in quotes.

use doc_model::{Flaw, FlawKind};
use sheet_source::{Node, SourceStop, read_document};
use std::alloc::{AllocError, Global};
use std::test::Fail;

fn text_of(bytes: &[u8]) -> &str {
    match str::from_utf8(bytes) {
        Ok(text) => text,
        Err(_) => "?",
    }
}

fn show(out: &mut String, nodes: &[Node]) -> Result<(), AllocError> {
    for node in nodes {
        match node {
            Node::Text(text) => write!(out, "'{}'", text_of(text.as_slice()))?,
            Node::Element(element) => {
                let start = &element.start;
                write!(
                    out,
                    "({}@{}#{}",
                    text_of(start.row.local.as_slice()),
                    start.line,
                    start.scope
                )?;
                for attribute in start.attributes.as_slice() {
                    write!(out, " {}", text_of(attribute.local.as_slice()))?;
                }
                show(out, element.children.as_slice())?;
                out.push_str(")")?;
            }
        }
    }
    Ok(())
}

fn shown(alloc: Global, bytes: &[u8]) -> Result<String, SourceStop> {
    let document = read_document(alloc, bytes)?;
    let mut out = String::new(alloc);
    show(&mut out, document.nodes.as_slice())?;
    Ok(out)
}

const SHEET: &str =
    "(xsl:stylesheet\nAxmlns:xsl http://www.w3.org/1999/XSL/Transform\nAversion 1.0\n-\\n\n(xsl:template\nAxmlns:p u\nAmatch p:a\n-x\n?note y\n-z\nCcomment\n(xsl:text\n- \n)xsl:text\n- \n(p:b\n)p:b\n)xsl:template\n)xsl:stylesheet\n";

#[test]
fn elements_have_their_lines_and_scopes(rt: HostRuntime) -> Result<(), Fail> {
    let alloc = rt.alloc();
    assert_eq!(rt;
        shown(alloc, SHEET.as_bytes())?.as_str(),
        "(stylesheet@1#1 version(template@5#2 match'x''z'(text@12#2' ')(b@16#2)))"
    );
    Ok(())
}

#[test]
fn first_flaw_of_the_lines_is_told(rt: HostRuntime) -> Result<(), Fail> {
    let alloc = rt.alloc();
    for (bytes, line, kind) in [
        ("", 1, FlawKind::NoRoot),
        ("(a\n", 2, FlawKind::Unclosed),
        ("(a\n)b\n", 2, FlawKind::WrongEnd),
        ("(p:a\n\n)p:a\n", 1, FlawKind::UnboundPrefix),
        ("(a\nAk\n", 2, FlawKind::NoSpace),
    ] {
        match read_document(alloc, bytes.as_bytes()) {
            Ok(_) => assert!(rt; false, "{bytes:?}"),
            Err(stop) => {
                assert_eq!(rt; stop, SourceStop::Flawed(Flaw { line, kind }), "{bytes:?}")
            }
        }
    }
    Ok(())
}
