ghost use Rattle.std.specs.Prelude.{◌≤◌};

use driver::pace;
use edge::{MemoryDrawer, MemoryShelf, MemorySink, MemorySource, Status};
use std::alloc::Global;
use std::test::Fail;

const TWO_ITEMS: &[u8] = b"(list\n(item\n-one\n)item\n(item\n-two\n)item\n)list\n";

const WITHOUT_LAST_LINE: &[u8] = b"(list\n(item\n-one\n)item\n(item\n-two\n)item\n";

const WITH_ATTRIBUTES: &[u8] =
    b"(list\n(item\nAk 1\n-one\n)item\n(item\nAk 2\n-two\n)item\n)list\n";

const CATALOGUE: &[u8] =
    b"(c:catalogue\nAxmlns:c urn:cat\n-\\n  \n(c:book\nAid b1\n-\\n    \n(c:title\n-Rows & Columns\n)c:title\n-\\n  \n)c:book\n-\\n  \n(c:book\nAid b2\n-\\n    \n(c:title\n-Tables\n)c:title\n-\\n  \n)c:book\n-\\n  \n(c:book\nAid b3\n-\\n    \n(c:title\n-Trees\n)c:title\n-\\n  \n)c:book\n-\\n\n)c:catalogue\n";

// Eighteen local names under each of two URIs.
const MANY_ATTRIBUTES: &[u8] =
    b"(a\nAxmlns:p u\nAxmlns:q v\nAp:a 1\nAp:b 1\nAp:c 1\nAp:d 1\nAp:e 1\nAp:f 1\nAp:g 1\nAp:h 1\nAp:i 1\nAp:j 1\nAp:k 1\nAp:l 1\nAp:m 1\nAp:n 1\nAp:o 1\nAp:p 1\nAp:q 1\nAp:r 1\nAq:a 1\nAq:b 1\nAq:c 1\nAq:d 1\nAq:e 1\nAq:f 1\nAq:g 1\nAq:h 1\nAq:i 1\nAq:j 1\nAq:k 1\nAq:l 1\nAq:m 1\nAq:n 1\nAq:o 1\nAq:p 1\nAq:q 1\nAq:r 1\n-x\n)a\n";

// Attributes under one URI, the last of 37 with the name of the first.
const MANY_WITH_A_REPEAT: &[u8] =
    b"(a\nAxmlns:p u\nAxmlns:q u\nAp:a 1\nAp:b 1\nAp:c 1\nAp:d 1\nAp:e 1\nAp:f 1\nAp:g 1\nAp:h 1\nAp:i 1\nAp:j 1\nAp:k 1\nAp:l 1\nAp:m 1\nAp:n 1\nAp:o 1\nAp:p 1\nAp:q 1\nAp:r 1\nAq:aa 1\nAq:bb 1\nAq:cc 1\nAq:dd 1\nAq:ee 1\nAq:ff 1\nAq:gg 1\nAq:hh 1\nAq:ii 1\nAq:jj 1\nAq:kk 1\nAq:ll 1\nAq:mm 1\nAq:nn 1\nAq:oo 1\nAq:pp 1\nAq:qq 1\nAq:rr 1\nAq:a 1\n-x\n)a\n";

const USAGE: &str = "usage: dtmx_pace [--turns=LIST] builtin=OUT ...\n";

// Which calls of the source, the drawer and the console fail.
#[derive(Clone, Copy)]
struct Faults {
    reads: &'static [u64],
    puts: &'static [u64],
    writes: &'static [u64],
}

const NONE: Faults = Faults {
    reads: &[],
    puts: &[],
    writes: &[],
};

// What a call answered and left.
#[derive(Drop)]
struct Told {
    status: Status,
    drawer: MemoryDrawer,
    console: MemorySink,
}

// Calls `pace` with the words of `line`, which single spaces separate.
fn call(alloc: Global, line: &str, text: &[u8], piece: usize, faults: &Faults) -> Result<Told, Fail>
    requires { 1 ≤ piece }
{
    let mut words = Vec::new(alloc);
    for word in line.split(' ').filter(|word| !word.is_empty()) {
        words.push(String::from_str(alloc, word)?)?;
    }
    let mut source = MemorySource::make(alloc, text, piece, faults.reads)?;
    let mut shelf = MemoryShelf::make(alloc, &[])?;
    let mut drawer = MemoryDrawer::make(alloc, faults.puts, 1000)?;
    let mut console = MemorySink::make(alloc, faults.writes, 1000)?;
    let mut listeners = Vec::new(alloc);
    let status = pace(
        alloc,
        &words,
        &mut source,
        &mut shelf,
        &mut drawer,
        &mut console,
        &mut listeners,
    );
    Ok(Told {
        status,
        drawer,
        console,
    })
}

// Whether the drawer holds this text under each of these names, which single spaces separate, and nothing else.
fn holds(drawer: &MemoryDrawer, names: &str, text: &str) -> bool {
    let mut count = 0;
    for name in names.split(' ').filter(|name| !name.is_empty()) {
        if count >= drawer.len()
            || drawer.name(count) != name.as_bytes()
            || drawer.bytes(count) != text.as_bytes()
        {
            return false;
        }
        count += 1;
    }
    drawer.len() == count
}

#[test]
fn answers_in_any_pieces(rt: HostRuntime) -> Result<(), Fail> {
    let alloc = rt.alloc();
    for (words, text, code, names, put, said) in [
        (
            "--turns=b3,r0,b1,r0 builtin=o",
            TWO_ITEMS,
            0,
            "o",
            "onetwo",
            "r0 0\nr0 1\nr0 2\nr0 2\nr0 2\n",
        ),
        (
            "--turns=b7,r0 builtin=o",
            WITHOUT_LAST_LINE,
            4,
            "",
            "",
            "r0 2\nsource: line 8: Unclosed\n",
        ),
        (
            "--turns=r0 builtin=o",
            TWO_ITEMS,
            0,
            "o",
            "onetwo",
            "r0 0\nr0 2\n",
        ),
        (
            "builtin=o builtin=p",
            b"(a\n-x\n)a\n",
            0,
            "o p",
            "x",
            "r0 0\nr1 0\nr0 0\nr1 0\nr0 1\nr1 1\nr0 1\nr1 1\n",
        ),
        (
            "--turns=b1000000 builtin=o",
            WITH_ATTRIBUTES,
            0,
            "o",
            "onetwo",
            "r0 2\n",
        ),
        (
            "--turns=b1000000 builtin=o",
            b"(a\r\n-x\r\n-y\n)a",
            0,
            "o",
            "xy",
            "r0 1\n",
        ),
        (
            "--turns=b1000000 builtin=o",
            b"(a\n-a\nXnote\n-b\n)a\n",
            0,
            "o",
            "ab",
            "r0 1\n",
        ),
        (
            "--turns=b1000000 builtin=o",
            b"(a\n-\xc3\xa9\\tx\n)a\n",
            0,
            "o",
            "é\tx",
            "r0 1\n",
        ),
        (
            "--turns=b1000000 builtin=o",
            CATALOGUE,
            0,
            "o",
            "\n  \n    Rows & Columns\n  \n  \n    Tables\n  \n  \n    Trees\n  \n",
            "r0 13\n",
        ),
        ("builtin=o", b"", 4, "", "", "source: line 1: NoRoot\n"),
        (
            "--turns=b1000000 builtin=o",
            b"(a\n-\xc3\n)a\n",
            4,
            "",
            "",
            "source: line 2: NotUtf8\n",
        ),
        (
            "--turns=b1000000 builtin=o",
            b"(a\nAp:k 1\nAq:k 2\nAxmlns:p u\nAxmlns:q u\n)a\n",
            4,
            "",
            "",
            "source: line 1: DuplicateAttr\n",
        ),
        (
            "--turns=b1000000 builtin=o",
            MANY_ATTRIBUTES,
            0,
            "o",
            "x",
            "r0 1\n",
        ),
        (
            "--turns=b1000000 builtin=o",
            MANY_WITH_A_REPEAT,
            4,
            "",
            "",
            "source: line 1: DuplicateAttr\n",
        ),
        ("", TWO_ITEMS, 2, "", "", USAGE),
        ("builtin=", TWO_ITEMS, 2, "", "", USAGE),
        ("builtin=o builtin=o", TWO_ITEMS, 2, "", "", USAGE),
        ("--turns=b0 builtin=o", TWO_ITEMS, 2, "", "", USAGE),
        ("--turns=r1 builtin=o", TWO_ITEMS, 2, "", "", USAGE),
        (
            "builtin=a builtin=b builtin=c builtin=d builtin=e builtin=f builtin=g builtin=h builtin=i builtin=j builtin=k builtin=l builtin=m builtin=n builtin=o builtin=p builtin=q",
            TWO_ITEMS,
            2,
            "",
            "",
            USAGE,
        ),
    ] {
        for whole in [false, true] {
            let piece = if whole { 1000 } else { 1 };
            let told = call(alloc, words, text, piece, &NONE)?;
            assert_eq!(rt; told.status.code, code, "of {words} in pieces of {piece}");
            assert!(rt;
                holds(&told.drawer, names, put),
                "of {words} in pieces of {piece}"
            );
            assert_eq!(rt; told.console.written(), said.as_bytes());
        }
    }
    Ok(())
}

#[test]
fn takes_no_more_than_1000_items(rt: HostRuntime) -> Result<(), Fail> {
    let alloc = rt.alloc();
    for (count, code) in [(1000, 0), (1001, 2)] {
        let mut line = String::from_str(alloc, "--turns=b9")?;
        for _ in 1..count {
            line.push_str(",b9")?;
        }
        line.push_str(" builtin=o")?;
        let told = call(alloc, line.as_str(), TWO_ITEMS, 100, &NONE)?;
        assert_eq!(rt; told.status.code, code, "of {count} items");
    }
    Ok(())
}

// A source of elements one in the other.
fn nested(alloc: Global, starts: u32, ends: u32) -> Result<Vec<u8>, Fail> {
    let mut text = Vec::new(alloc);
    for _ in 0..starts {
        text.extend_from_slice(b"(a\n")?;
    }
    for _ in 0..ends {
        text.extend_from_slice(b")a\n")?;
    }
    Ok(text)
}

#[test]
fn deep_sources_are_faults_or_flaws(rt: HostRuntime) -> Result<(), Fail> {
    let alloc = rt.alloc();
    for (starts, ends, code, names, said) in [
        (499, 499, 0, "o p", "r0 0\nr1 0\n"),
        (
            500,
            500,
            1,
            "",
            "r0 0\nr1 0\no: fault TooDeep\np: fault TooDeep\n",
        ),
        (1001, 0, 4, "", "source: line 1001: TooDeep\n"),
    ] {
        let text = nested(alloc, starts, ends)?;
        let told = call(
            alloc,
            "--turns=b1000000 builtin=o builtin=p",
            text.as_slice(),
            1000,
            &NONE,
        )?;
        assert_eq!(rt; told.status.code, code, "of {starts} starts");
        assert!(rt; holds(&told.drawer, names, ""), "of {starts} starts");
        assert_eq!(rt; told.console.written(), said.as_bytes());
    }
    Ok(())
}

#[test]
fn failures_are_told(rt: HostRuntime) -> Result<(), Fail> {
    let alloc = rt.alloc();
    for (text, reads, puts, writes, code, names, said) in [
        (
            TWO_ITEMS,
            [2].as_slice(),
            [].as_slice(),
            [].as_slice(),
            5,
            "",
            "read failed\n",
        ),
        (
            b"(a\n)b\n(c\n(d\n",
            &[3],
            &[],
            &[],
            4,
            "",
            "source: line 2: WrongEnd\n",
        ),
        (TWO_ITEMS, &[], &[1], &[], 6, "", "write failed\n"),
        (TWO_ITEMS, &[], &[1], &[1], 6, "", ""),
        (TWO_ITEMS, &[], &[2], &[], 6, "o", "write failed\n"),
        (TWO_ITEMS, &[], &[], &[1], 6, "o p", ""),
        // one write, and each put once
        (TWO_ITEMS, &[], &[], &[2], 0, "o p", "r0 2\nr1 2\n"),
        (TWO_ITEMS, &[], &[3], &[2], 0, "o p", "r0 2\nr1 2\n"),
        (TWO_ITEMS, &[], &[2], &[2], 6, "o", "write failed\n"),
        (b"", &[], &[], &[1], 6, "", ""),
        (b"", &[], &[], &[2], 4, "", "source: line 1: NoRoot\n"),
    ] {
        let faults = Faults {
            reads,
            puts,
            writes,
        };
        let told = call(
            alloc,
            "--turns=b1000000 builtin=o builtin=p",
            text,
            4,
            &faults,
        )?;
        assert_eq!(rt; told.status.code, code, "of {text:?}");
        assert!(rt; holds(&told.drawer, names, "onetwo"), "of {text:?}");
        assert_eq!(rt; told.console.written(), said.as_bytes());
    }
    Ok(())
}
