use crate::{
    Drawer, Failed, FileDrawer, FileShelf, Listener, MemoryDrawer, MemoryListener, MemoryShelf,
    MemorySink, MemorySource, Reading, Shelf, ShelfError, Sink, Source, Writing,
};
use std::alloc::Global;
use std::io::{self, ErrorKind, Read, Write};
use std::test::Fail;

// Whether the next read of at most 3 bytes gives this text, or fails where there is none.
fn reads<S: Source>(source: &mut S, want: Option<&str>) -> bool {
    let mut into = [0u8; 3];
    match (source.read(&mut into), want) {
        (Ok(count), Some(text)) => &into[..count] == text.as_bytes(),
        (Err(Failed), None) => true,
        _ => false,
    }
}

// Whether a fetch of this name gives these bytes.
fn fetches<F: Shelf>(
    alloc: Global,
    shelf: &mut F,
    name: &str,
    want: Result<Option<&str>, ShelfError>,
) -> bool {
    match (shelf.fetch(alloc, name), want) {
        (Ok(Some(bytes)), Ok(Some(text))) => bytes.as_slice() == text.as_bytes(),
        (Ok(None), Ok(None)) => true,
        (Err(error), Err(wanted)) => error == wanted,
        _ => false,
    }
}

// Whether the drawer takes this put.
fn puts<D: Drawer>(drawer: &mut D, name: &str, text: &str) -> bool {
    drawer.put(name, text.as_bytes()).is_ok()
}

// Whether the sink takes this text.
fn writes<K: Sink>(sink: &mut K, text: &str) -> bool {
    sink.write(text.as_bytes()).is_ok()
}

#[test]
fn source_gives_pieces_and_fails_by_its_numbers(rt: HostRuntime) -> Result<(), Fail> {
    let alloc = rt.alloc();
    let by_three = [Some("abc"), Some("de"), Some(""), Some("")];
    let by_two = [Some("ab"), Some("cd"), Some("e"), Some("")];
    let second_fails = [Some("ab"), None, Some("cd"), Some("e"), Some("")];
    let ends_fail = [None, Some("abc"), Some("de"), None];
    for (piece, failing, answers) in [
        (100, &[][..], &by_three[..]),
        (2, &[][..], &by_two[..]),
        (2, &[2][..], &second_fails[..]),
        (3, &[4, 1][..], &ends_fail[..]),
    ] {
        let mut source = MemorySource::make(alloc, b"abcde", piece, failing)?;
        for answer in answers {
            assert!(rt;
                reads(&mut source, *answer),
                "{answer:?} in pieces of {piece}"
            );
        }
    }
    Ok(())
}

#[test]
fn shelf_gives_the_first_pair_of_a_name(rt: HostRuntime) -> Result<(), Fail> {
    let alloc = rt.alloc();
    let mut shelf = MemoryShelf::make(alloc, &[2])?;
    for (name, text) in [("a", "one"), ("b", ""), ("a", "two")] {
        shelf.add(alloc, name, text.as_bytes())?;
    }
    for (name, want) in [
        ("a", Ok(Some("one"))),
        ("b", Err(ShelfError::Failed)),
        ("b", Ok(Some(""))),
        ("c", Ok(None)),
        ("", Ok(None)),
    ] {
        assert!(rt; fetches(alloc, &mut shelf, name, want), "{name}");
    }
    Ok(())
}

#[test]
fn drawer_keeps_what_fits(rt: HostRuntime) -> Result<(), Fail> {
    let alloc = rt.alloc();
    let mut drawer = MemoryDrawer::make(alloc, &[2], 40)?;
    assert!(rt; drawer.is_empty());
    for (name, text, taken) in [
        ("a", "xyz", true),
        ("b", "", false),
        ("b", "1234", false),
        ("cd", "12", true),
        ("", "", false),
    ] {
        assert_eq!(rt; puts(&mut drawer, name, text), taken, "{name} {text}");
    }
    assert_eq!(rt; drawer.len(), 2);
    assert!(rt; !drawer.is_empty());
    for (index, name, text) in [(0, "a", "xyz"), (1, "cd", "12")] {
        assert_eq!(rt; drawer.name(index), name.as_bytes());
        assert_eq!(rt; drawer.bytes(index), text.as_bytes());
    }
    Ok(())
}

#[test]
fn sink_keeps_what_fits(rt: HostRuntime) -> Result<(), Fail> {
    let alloc = rt.alloc();
    let mut sink = MemorySink::make(alloc, &[1], 5)?;
    for (text, taken) in [
        ("ab", false),
        ("abc", true),
        ("def", false),
        ("de", true),
        ("f", false),
        ("", true),
    ] {
        assert_eq!(rt; writes(&mut sink, text), taken, "{text}");
    }
    assert_eq!(rt; sink.written(), "abcde".as_bytes());
    Ok(())
}

#[test]
fn listener_keeps_what_fits(rt: HostRuntime) -> Result<(), Fail> {
    let mut listener = MemoryListener::make(rt.alloc(), &[2], 40)?;
    assert!(rt; listener.is_empty());
    for (sheet, line, taken) in [
        (0, "abc", true),
        (1, "", false),
        (1, "123456", false),
        (1, "12345", true),
        (0, "", false),
    ] {
        assert_eq!(rt;
            listener.hear(sheet, line.as_bytes()).is_ok(),
            taken,
            "{line}"
        );
    }
    assert_eq!(rt; listener.len(), 2);
    for (index, sheet, line) in [(0, 0, "abc"), (1, 1, "12345")] {
        assert_eq!(rt; listener.sheet(index), sheet);
        assert_eq!(rt; listener.line(index), line.as_bytes());
    }
    Ok(())
}

// A reader and writer that fails at once, or only when it is flushed.
#[derive(Drop)]
struct Broken {
    takes: bool,
}

impl Read for Broken {
    fn read(&mut self, _into: &mut [u8]) -> io::Result<usize> {
        Err(io::Error::from(ErrorKind::Other))
    }
}

impl Write for Broken {
    fn write(&mut self, bytes: &[u8]) -> io::Result<usize> {
        if self.takes {
            return Ok(bytes.len());
        }
        Err(io::Error::from(ErrorKind::Other))
    }

    fn flush(&mut self) -> io::Result<()> {
        Err(io::Error::from(ErrorKind::Other))
    }
}

#[test]
fn readers_and_writers_of_std(rt: HostRuntime) -> Result<(), Fail> {
    let alloc = rt.alloc();
    let mut source = Reading::new("abcd".as_bytes());
    for text in ["abc", "d", ""] {
        assert!(rt; reads(&mut source, Some(text)), "{text}");
    }
    assert!(rt; reads(&mut Reading::new(Broken { takes: true }), None));
    assert!(rt; writes(&mut Writing::new(Vec::<u8>::new(alloc)), "abc"));
    for takes in [true, false] {
        assert!(rt; !writes(&mut Writing::new(Broken { takes }), "abc"));
    }
    Ok(())
}

#[test]
fn files_are_put_and_fetched(rt: HostRuntime) -> Result<(), Fail> {
    let alloc = rt.alloc();
    let mut drawer = FileDrawer::new(&rt);
    let mut shelf = FileShelf::new(&rt);
    for text in ["a first text", "anew", ""] {
        assert!(rt; puts(&mut drawer, "put_and_fetched", text), "{text}");
        assert!(rt;
            fetches(alloc, &mut shelf, "put_and_fetched", Ok(Some(text))),
            "{text}"
        );
    }
    assert!(rt; fetches(alloc, &mut shelf, "put_and_fetched.part", Ok(None)));
    assert!(rt; !puts(&mut drawer, "no/such/folder", "text"));
    assert!(rt; !puts(&mut drawer, "/dev/full", "text"));
    for (name, want) in [
        ("no/such/file", Ok(None)),
        (".", Err(ShelfError::Failed)),
        ("/dev/zero", Err(ShelfError::Failed)),
    ] {
        assert!(rt; fetches(alloc, &mut shelf, name, want), "{name}");
    }
    Ok(())
}
