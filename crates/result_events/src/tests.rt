// What a buffer keeps, and what each rule of tidying does, with answers from outside where memory is ample.
use crate::{Buffer, Events, Name, ResultEvent, tidy};
use lists::List;
use std::alloc::{AllocError, Global};
use std::test::Fail;

fn bytes(alloc: Global, text: &str) -> Result<List<u8>, AllocError> {
    List::from_slice(alloc, text.as_bytes())
}

fn name(alloc: Global, prefix: &str, uri: &str, local: &str) -> Result<Name, AllocError> {
    Ok(Name {
        prefix: bytes(alloc, prefix)?,
        uri: bytes(alloc, uri)?,
        local: bytes(alloc, local)?,
    })
}

fn attribute(
    alloc: Global,
    prefix: &str,
    uri: &str,
    local: &str,
    value: &str,
) -> Result<ResultEvent, AllocError> {
    Ok(ResultEvent::Attr {
        name: name(alloc, prefix, uri, local)?,
        value: bytes(alloc, value)?,
    })
}

// The event that a letter stands for; `x` and `o` have one expanded name, `p` another.
fn event(alloc: Global, letter: u8) -> Result<ResultEvent, AllocError> {
    match letter {
        b'(' => Ok(ResultEvent::Start(name(alloc, "", "", "a")?)),
        b')' => Ok(ResultEvent::End),
        b'x' => attribute(alloc, "", "", "x", "1"),
        b'o' => attribute(alloc, "q", "", "x", "2"),
        b'p' => attribute(alloc, "p", "u", "x", "3"),
        b'0' => Ok(ResultEvent::Text(bytes(alloc, "")?)),
        b't' => Ok(ResultEvent::Text(bytes(alloc, "t")?)),
        b'u' => Ok(ResultEvent::Text(bytes(alloc, "u")?)),
        b'T' => Ok(ResultEvent::Text(bytes(alloc, "tu")?)),
        b'c' => Ok(ResultEvent::Comment(bytes(alloc, "t")?)),
        _ => Ok(ResultEvent::Instruction {
            target: bytes(alloc, "i")?,
            value: bytes(alloc, "t")?,
        }),
    }
}

fn pushed(alloc: Global, letters: &str) -> Result<Buffer, AllocError> {
    let mut buffer = Buffer::start(alloc)?;
    for letter in letters.as_bytes() {
        buffer.push(alloc, event(alloc, *letter)?)?;
    }
    Ok(buffer)
}

fn tidied(alloc: Global, letters: &str) -> Result<Events, AllocError> {
    tidy(alloc, pushed(alloc, letters)?.events())
}

#[test]
fn each_rule_of_tidying(rt: HostRuntime) -> Result<(), Fail> {
    for (events, want) in [
        ("(x0p)", "(xp)"),
        ("(xpo)", "(op)"),
        ("(tx0u)", "(T)"),
        ("x((x)", "((x)"),
        ("(cx)x", "(c)"),
        ("tcuit", "tcuit"),
        ("tu)tx", "T)t"),
    ] {
        let wanted = pushed(rt.alloc(), want)?.into_events();
        assert_eq!(rt; tidied(rt.alloc(), events)?, wanted, "{events}");
    }
    Ok(())
}

// An element whose attributes have these local names, each with its place as its value.
fn with_attributes(alloc: Global, letters: &str, values: &str) -> Result<Buffer, AllocError> {
    let mut buffer = pushed(alloc, "(")?;
    for (letter, value) in letters.as_bytes().iter().zip(values.as_bytes()) {
        let name = Name {
            prefix: List::new(alloc),
            uri: bytes(alloc, "u")?,
            local: List::from_slice(alloc, &[*letter])?,
        };
        let value = List::from_slice(alloc, &[*value])?;
        buffer.push(alloc, ResultEvent::Attr { name, value })?;
    }
    Ok(buffer)
}

// Past eight attributes their names are found by an index.
#[test]
fn twelve_attributes_stand_once_each(rt: HostRuntime) -> Result<(), Fail> {
    let alloc = rt.alloc();
    let events = with_attributes(alloc, "abcdefghijbkikla", "1111111111212212")?;
    let wanted = with_attributes(alloc, "abcdefghijkl", "221111112121")?.into_events();
    assert_eq!(rt; tidy(alloc, events.events())?, wanted);
    Ok(())
}

#[test]
fn a_list_is_added_behind(rt: HostRuntime) -> Result<(), Fail> {
    let alloc = rt.alloc();
    let mut buffer = pushed(alloc, "(t")?;
    buffer.append(alloc, pushed(alloc, "u)")?.into_events())?;
    assert_eq!(rt; buffer.into_events(), pushed(alloc, "(tu)")?.into_events());
    Ok(())
}
