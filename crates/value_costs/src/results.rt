use itoa::Buffer as Digits;
use lists::List;
use pyx_output::bytes_of;
use result_events::{Buffer, Name, ResultEvent, tidy};
use sort_keys::{How, KeyPart, KeyRow, order};
use std::alloc::{AllocError, Global};
use whole_num::Num;

// The events in order of one element with so many attributes of different names.
pub fn attributes(alloc: Global, size: u32) -> Result<usize, AllocError> {
    let mut buffer = Buffer::start(alloc)?;
    buffer.push(alloc, ResultEvent::Start(plain(alloc, b"e")?))?;
    for k in 0..size {
        attribute(alloc, &mut buffer, b"", k)?;
    }
    Ok(tidy(alloc, buffer.events())?.len())
}

// The bytes of one element with so many attributes that wish for one prefix, each of a namespace of its own.
pub fn clashes(alloc: Global, size: u32) -> Result<usize, AllocError> {
    let mut buffer = Buffer::start(alloc)?;
    buffer.push(alloc, ResultEvent::Start(plain(alloc, b"e")?))?;
    for k in 0..size {
        clash(alloc, &mut buffer, k)?;
    }
    buffer.push(alloc, ResultEvent::End)?;
    Ok(bytes_of(alloc, false, buffer.events())?.len())
}

// The bytes of an element that binds half as many prefixes `ns1`, `ns2`, .. itself, with half as many children of two
// clashing attributes each.
pub fn children(alloc: Global, size: u32) -> Result<usize, AllocError> {
    let mut buffer = Buffer::start(alloc)?;
    buffer.push(alloc, ResultEvent::Start(plain(alloc, b"e")?))?;
    for k in 0..size / 2 {
        let name = Name {
            prefix: numbered(alloc, b"ns", k)?,
            uri: numbered(alloc, b"outer", k)?,
            local: List::from_slice(alloc, b"a")?,
        };
        let value = List::new(alloc);
        buffer.push(alloc, ResultEvent::Attr { name, value })?;
    }
    for k in 0..size / 2 {
        buffer.push(alloc, ResultEvent::Start(plain(alloc, b"c")?))?;
        clash(alloc, &mut buffer, k)?;
        clash(alloc, &mut buffer, k.wrapping_add(1))?;
        buffer.push(alloc, ResultEvent::End)?;
    }
    buffer.push(alloc, ResultEvent::End)?;
    Ok(bytes_of(alloc, false, buffer.events())?.len())
}

// The events in order of so many texts that stand side by side.
pub fn texts(alloc: Global, size: u32) -> Result<usize, AllocError> {
    let mut buffer = Buffer::start(alloc)?;
    for _ in 0..size {
        buffer.push(alloc, ResultEvent::Text(List::from_slice(alloc, b"text")?))?;
    }
    Ok(tidy(alloc, buffer.events())?.len())
}

// The places of so many rows of a number and a text, sorted.
pub fn ordered(alloc: Global, size: u32) -> Result<usize, AllocError> {
    let mut rows = Vec::new(alloc);
    for k in 0..size {
        let mut row: KeyRow = List::new(alloc);
        row.push(KeyPart::Number(Num::Whole(i64::from(k.wrapping_mul(2_654_435_761) % 97))))?;
        row.push(KeyPart::Text(numbered(alloc, b"key", k.wrapping_mul(2_654_435_761))?))?;
        rows.push(row)?;
    }
    // A size is a u32, and so is the number of rows.
    if rows.len() > u32::MAX as usize {
        return Err(AllocError);
    }
    let how = [
        How {
            number: true,
            descending: false,
        },
        How {
            number: false,
            descending: true,
        },
    ];
    Ok(order(alloc, rows.as_slice(), &how)?.len())
}

fn attribute(alloc: Global, buffer: &mut Buffer, prefix: &[u8], k: u32) -> Result<(), AllocError> {
    let name = Name {
        prefix: List::from_slice(alloc, prefix)?,
        uri: List::new(alloc),
        local: numbered(alloc, b"a", k)?,
    };
    let value = List::new(alloc);
    buffer.push(alloc, ResultEvent::Attr { name, value })
}

fn clash(alloc: Global, buffer: &mut Buffer, k: u32) -> Result<(), AllocError> {
    let name = Name {
        prefix: List::from_slice(alloc, b"p")?,
        uri: numbered(alloc, b"inner", k)?,
        local: List::from_slice(alloc, b"a")?,
    };
    let value = List::new(alloc);
    buffer.push(alloc, ResultEvent::Attr { name, value })
}

fn plain(alloc: Global, local: &[u8]) -> Result<Name, AllocError> {
    Ok(Name {
        prefix: List::new(alloc),
        uri: List::new(alloc),
        local: List::from_slice(alloc, local)?,
    })
}

fn numbered(alloc: Global, front: &[u8], k: u32) -> Result<List<u8>, AllocError> {
    let mut text = List::from_slice(alloc, front)?;
    text.extend_from_slice(Digits::new().format(k).as_bytes())?;
    Ok(text)
}
