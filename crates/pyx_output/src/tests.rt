use crate::bytes_of;
use lists::List;
use result_events::{Events, Name, ResultEvent};
use std::alloc::{AllocError, Global};
use std::test::Fail;

// An event: its first byte as in a line, a prefix, a URI and a local name, and a value.
#[derive(Clone, Copy)]
struct Row<'a>(u8, &'a str, &'a str, &'a str, &'a str);

fn bytes(alloc: Global, text: &str) -> Result<List<u8>, AllocError> {
    List::from_slice(alloc, text.as_bytes())
}

fn name(alloc: Global, row: &Row<'_>) -> Result<Name, AllocError> {
    Ok(Name {
        prefix: bytes(alloc, row.1)?,
        uri: bytes(alloc, row.2)?,
        local: bytes(alloc, row.3)?,
    })
}

fn event(alloc: Global, row: &Row<'_>) -> Result<ResultEvent, AllocError> {
    match row.0 {
        b'(' => Ok(ResultEvent::Start(name(alloc, row)?)),
        b'A' => Ok(ResultEvent::Attr {
            name: name(alloc, row)?,
            value: bytes(alloc, row.4)?,
        }),
        b'-' => Ok(ResultEvent::Text(bytes(alloc, row.4)?)),
        b'C' => Ok(ResultEvent::Comment(bytes(alloc, row.4)?)),
        b'?' => Ok(ResultEvent::Instruction {
            target: bytes(alloc, row.3)?,
            value: bytes(alloc, row.4)?,
        }),
        _ => Ok(ResultEvent::End),
    }
}

fn events(alloc: Global, rows: &[Row<'_>]) -> Result<Events, AllocError> {
    let mut events = List::new(alloc);
    for row in rows {
        events.push(event(alloc, row)?)?;
    }
    Ok(events)
}

const END: Row<'static> = Row(b')', "", "", "", "");

// A late attribute, and a prefix that two URIs want.
const LATE: [Row<'static>; 6] = [
    Row(b'(', "", "", "e", ""),
    Row(b'A', "p", "u1", "x", "1"),
    Row(b'A', "p", "u2", "y", "2"),
    Row(b'-', "", "", "", "t"),
    Row(b'A', "", "", "z", "3"),
    END,
];

// A prefix that is in use by an earlier attribute, and is bound further out.
const CLASHING: [Row<'static>; 6] = [
    Row(b'(', "p", "u1", "e", ""),
    Row(b'(', "", "", "f", ""),
    Row(b'A', "p", "u1", "x", "1"),
    Row(b'A', "p", "u2", "y", "2"),
    END,
    END,
];

const CATALOGUE: [Row<'static>; 11] = [
    Row(b'(', "c", "urn:cat", "catalogue", ""),
    Row(b'-', "", "", "", "\n  "),
    Row(b'(', "c", "urn:cat", "book", ""),
    Row(b'A', "", "", "id", "b1"),
    Row(b'(', "c", "urn:cat", "name", ""),
    Row(b'A', "", "", "of", "b1"),
    Row(b'-', "", "", "", "Rows & Columns"),
    END,
    END,
    END,
    END,
];

// A default namespace that ends, the prefix `xml`, a comment and an instruction.
const DEFAULT: [Row<'static>; 8] = [
    Row(b'C', "", "", "", "c"),
    Row(b'(', "xml", "u", "a", ""),
    Row(b'(', "", "", "b", ""),
    Row(
        b'A',
        "q",
        "http://www.w3.org/XML/1998/namespace",
        "lang",
        "en",
    ),
    Row(b'A', "xmlns", "w", "k", "v\r"),
    END,
    Row(b'?', "", "", "pi", ""),
    END,
];

// New prefixes that are free again behind the element that declared them.
const FREED: [Row<'static>; 9] = [
    Row(b'(', "", "", "a", ""),
    Row(b'A', "ns0", "u0", "x", ""),
    Row(b'(', "", "", "b", ""),
    Row(b'A', "", "u1", "x", ""),
    END,
    Row(b'(', "", "", "c", ""),
    Row(b'A', "", "u2", "x", ""),
    END,
    END,
];

#[test]
fn declarations_are_sparing(rt: HostRuntime) -> Result<(), Fail> {
    for (rows, want) in [
        (
            LATE.as_slice(),
            "(e\nAxmlns:p u1\nAxmlns:ns0 u2\nAp:x 1\nAns0:y 2\n-t\n)e\n",
        ),
        (
            CLASHING.as_slice(),
            "(p:e\nAxmlns:p u1\n(f\nAxmlns:ns0 u2\nAp:x 1\nAns0:y 2\n)f\n)p:e\n",
        ),
        (
            CATALOGUE.as_slice(),
            "(c:catalogue\nAxmlns:c urn:cat\n-\\n  \n(c:book\nAid b1\n(c:name\nAof b1\n-Rows & Columns\n)c:name\n)c:book\n)c:catalogue\n",
        ),
        (
            DEFAULT.as_slice(),
            "Cc\n(a\nAxmlns u\n(b\nAxmlns \nAxmlns:ns0 w\nAxml:lang en\nAns0:k v\r\r\n)b\n?pi \n)a\n",
        ),
        (
            FREED.as_slice(),
            "(a\nAxmlns:ns0 u0\nAns0:x \n(b\nAxmlns:ns1 u1\nAns1:x \n)b\n(c\nAxmlns:ns1 u2\nAns1:x \n)c\n)a\n",
        ),
    ] {
        let events = events(rt.alloc(), rows)?;
        let bytes = bytes_of(rt.alloc(), false, &events)?;
        assert_eq!(rt; bytes.as_slice(), want.as_bytes());
    }
    Ok(())
}

#[test]
fn the_text_method_gives_texts_alone(rt: HostRuntime) -> Result<(), Fail> {
    let events = events(rt.alloc(), CATALOGUE.as_slice())?;
    let bytes = bytes_of(rt.alloc(), true, &events)?;
    assert_eq!(rt; bytes.as_slice(), b"\n  Rows & Columns".as_slice());
    Ok(())
}
