// Names and their type numbers.
use crate::tests::row_count;
use case_tables::whole;
use doc_model::{Kind, NodeView};
use lists::List;
use name_pool::TypeIndex;
use std::alloc::{AllocError, Global};
use std::test::Fail;

// One name under two URIs and two prefixes, each more than twice, and as an attribute.
const NAMES: &[u8] =
    b"(r\nAxmlns:q u\n(p:a\nAxmlns:p u\n)p:a\n(p:a\nAxmlns:p v\nAp:a 1\nAq:a 2\n)p:a\n(q:a\n)q:a\n(p:a\nAxmlns:p v\nAp:a 3\nAq:a 4\n)p:a\n(q:a\n)q:a\n)r";

fn types(alloc: Global, text: &[u8]) -> Result<List<u32>, AllocError> {
    let mut types = List::new(alloc);
    if let Ok(table) = whole(alloc, text) {
        for n in 0..row_count(&table) {
            types.push(table.view().type_id(n))?;
        }
    }
    Ok(types)
}

#[test]
fn a_name_has_one_type_number_under_any_prefix(rt: HostRuntime) -> Result<(), Fail> {
    let types = types(rt.alloc(), NAMES)?;
    assert_eq!(rt;
        types.as_slice(),
        [0, 3, 4, 5, 6, 7, 4, 5, 6, 7, 4].as_slice()
    );
    Ok(())
}

const KEPT: [(Kind, u32, &str, u32); 5] = [
    (Kind::Element, 0, "a", 3),
    (Kind::Element, 1, "a", 4),
    (Kind::Attribute, 1, "a", 5),
    (Kind::Element, 1, "b", 6),
    (Kind::Element, 1, "a", 7),
];

const WANTED: [(Kind, u32, &str, Option<u32>); 6] = [
    (Kind::Element, 0, "a", Some(3)),
    (Kind::Element, 1, "a", Some(7)),
    (Kind::Attribute, 1, "a", Some(5)),
    (Kind::Attribute, 0, "a", None),
    (Kind::Element, 2, "a", None),
    (Kind::Element, 0, "b", None),
];

#[test]
fn kept_names_are_found_by_the_numbers_of_their_uris(rt: HostRuntime) -> Result<(), Fail> {
    let alloc = rt.alloc();
    let mut index = TypeIndex::new(alloc);
    for (kind, uri, local, number) in KEPT {
        index.keep(alloc, kind, uri, local.as_bytes(), number)?;
    }
    for (kind, uri, local, want) in WANTED {
        assert_eq!(rt; index.find(kind, uri, local.as_bytes()), want);
    }
    Ok(())
}
