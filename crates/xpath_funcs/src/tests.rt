// What each function gives, with answers from outside where memory is ample.
use crate::{
    contains, lang_matches, normalize_space, starts_with, string_length, substring,
    substring_after, substring_before, translate,
};
use std::test::Fail;
use whole_num::Num;

#[test]
fn texts_are_searched(rt: HostRuntime) -> Result<(), Fail> {
    let alloc = rt.alloc();
    for (text, part, starts, within, before, behind) in [
        ("1999/04/01", "/", false, true, "1999", "04/01"),
        ("1999/04/01", "19", true, true, "", "99/04/01"),
        ("aaaaab", "aab", false, true, "aaa", ""),
        ("abc", "", true, true, "", "abc"),
        ("", "", true, true, "", ""),
        ("", "a", false, false, "", ""),
        ("ab", "abc", false, false, "", ""),
        ("\u{e9}t\u{e9}", "\u{e9}", true, true, "", "t\u{e9}"),
    ] {
        let (a, b) = (text.as_bytes(), part.as_bytes());
        assert_eq!(rt; starts_with(a, b), starts, "{text} {part}");
        assert_eq!(rt; contains(a, b), within, "{text} {part}");
        assert_eq!(rt;
            substring_before(alloc, a, b)?.as_slice(),
            before.as_bytes(),
            "{text} {part}"
        );
        assert_eq!(rt;
            substring_after(alloc, a, b)?.as_slice(),
            behind.as_bytes(),
            "{text} {part}"
        );
    }
    for (language, asked, matches) in [
        ("en", "en", true),
        ("EN", "en", true),
        ("en-us", "EN", true),
        ("en-us", "en-US", true),
        ("en", "en-us", false),
        ("english", "en", false),
        ("", "", true),
        ("fr", "en", false),
    ] {
        assert_eq!(rt;
            lang_matches(language.as_bytes(), asked.as_bytes()),
            matches,
            "{language} {asked}"
        );
    }
    Ok(())
}

#[test]
fn characters_are_counted_and_replaced(rt: HostRuntime) -> Result<(), Fail> {
    let alloc = rt.alloc();
    let nan = Num::NaN;
    for (text, from, len, want) in [
        ("12345", Num::Whole(2), Some(Num::Whole(3)), "234"),
        ("12345", Num::Whole(2), None, "2345"),
        ("12345", Num::Whole(0), Some(Num::Whole(3)), "12"),
        ("12345", Num::Whole(-42), Some(Num::Whole(45)), "12"),
        ("12345", Num::Whole(-9_007_199_254_740_991), None, "12345"),
        (
            "12345",
            Num::Whole(2),
            Some(Num::Whole(9_007_199_254_740_991)),
            "2345",
        ),
        ("12345", nan, Some(Num::Whole(3)), ""),
        ("12345", Num::Whole(1), Some(nan), ""),
        ("12345", nan, None, ""),
        ("12345", Num::Whole(6), None, ""),
        (
            "\u{e9}\u{20ac}\u{1f600}b",
            Num::Whole(2),
            Some(Num::Whole(2)),
            "\u{20ac}\u{1f600}",
        ),
    ] {
        assert_eq!(rt;
            substring(alloc, text.as_bytes(), from, len)?.as_slice(),
            want.as_bytes(),
            "{text}"
        );
    }
    for (text, from, to, want) in [
        ("bar", "abc", "AB", "BAr"),
        ("--aaa--", "abc-", "ABC", "AAA"),
        ("aba", "aa", "xy", "xbx"),
        ("\u{e9}te\u{20ac}", "\u{e9}\u{20ac}", "e\u{e9}", "ete\u{e9}"),
        ("abc", "", "xyz", "abc"),
    ] {
        assert_eq!(rt;
            translate(alloc, text.as_bytes(), from.as_bytes(), to.as_bytes())?.as_slice(),
            want.as_bytes(),
            "{text}"
        );
    }
    for (text, length, want) in [
        (" a  b ", 6, "a b"),
        ("", 0, ""),
        (" \t\r\n", 4, ""),
        ("\u{e9}\u{a0}\u{1f600}", 3, "\u{e9}\u{a0}\u{1f600}"),
        ("a\n\nb", 4, "a b"),
    ] {
        assert_eq!(rt; string_length(text.as_bytes()), length, "{text}");
        assert_eq!(rt;
            normalize_space(alloc, text.as_bytes())?.as_slice(),
            want.as_bytes(),
            "{text}"
        );
    }
    Ok(())
}
