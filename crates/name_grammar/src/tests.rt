use super::*;

#[test]
fn names_split_at_their_one_colon(rt: HostRuntime) {
    let cases: [(&[u8], Option<(usize, usize)>); 18] = [
        (b"item", Some((0, 4))),
        (b"x:item", Some((1, 4))),
        (b"_a", Some((0, 2))),
        (b"a-b.c9:_9", Some((6, 2))),
        (b"Z", Some((0, 1))),
        ("\u{e9}1:b\u{e9}".as_bytes(), Some((3, 3))),
        (b"", None),
        (b":", None),
        (b":a", None),
        (b"a:", None),
        (b"a:b:c", None),
        (b"a::b", None),
        (b"9a", None),
        (b"-a", None),
        (b"a:.b", None),
        (b"a b", None),
        (b"a[", None),
        (b"a/b", None),
    ];
    for (name, lengths) in cases {
        assert_eq!(rt; split_name(name), lengths);
        assert_eq!(rt; is_name(name), lengths.is_some());
        assert_eq!(rt; is_ncname(name), matches!(lengths, Some((0, _))));
    }
    assert_eq!(rt; prefix(b"x:item"), b"x".as_slice());
    assert_eq!(rt; local(b"x:item"), b"item".as_slice());
    assert_eq!(rt; prefix(b"item"), b"".as_slice());
    assert_eq!(rt; local(b"item"), b"item".as_slice());
}
