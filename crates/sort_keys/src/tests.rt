use crate::{How, KeyPart, KeyRow, order};
use lists::List;
use std::alloc::{AllocError, Global};
use std::test::Fail;
use whole_num::Num;

fn text(alloc: Global, text: &str) -> Result<KeyPart, AllocError> {
    Ok(KeyPart::Text(List::from_slice(alloc, text.as_bytes())?))
}

const ROWS: [(Num, &str); 5] = [
    (Num::Whole(10), "é"),
    (Num::NaN, "z"),
    (Num::Whole(-9), "a"),
    (Num::Whole(-9), "b"),
    (Num::Whole(10), "z"),
];

// The numbers of the texts 10, x, 9 and 9.
const NUMBERS: [(Num, &str); 4] = [
    (Num::Whole(10), "10"),
    (Num::NaN, "x"),
    (Num::Whole(9), "9"),
    (Num::Whole(9), "9"),
];

// Rows of a number and a text.
fn rows(alloc: Global, parts: &[(Num, &str)]) -> Result<List<KeyRow>, AllocError> {
    let mut rows = List::new(alloc);
    for (number, word) in parts {
        let mut row = List::new(alloc);
        row.push(KeyPart::Number(*number))?;
        row.push(text(alloc, word)?)?;
        rows.push(row)?;
    }
    Ok(rows)
}

fn places(alloc: Global, rows: &[KeyRow], how: &[How]) -> Result<List<u32>, AllocError> {
    if rows.len() > 5 {
        return Ok(List::new(alloc));
    }
    order(alloc, rows, how)
}

fn how(number: bool, descending: bool) -> How {
    How { number, descending }
}

#[test]
fn rows_stand_by_the_first_key_that_differs(rt: HostRuntime) -> Result<(), Fail> {
    let alloc = rt.alloc();
    let rows = rows(alloc, &ROWS)?;
    for (how, want) in [
        (&[][..], [0, 1, 2, 3, 4]),
        (&[how(true, false)][..], [1, 2, 3, 0, 4]),
        (&[how(true, true)][..], [0, 4, 2, 3, 1]),
        (&[how(true, true), how(false, true)][..], [0, 4, 3, 2, 1]),
        (&[how(true, false), how(false, false)][..], [1, 2, 3, 4, 0]),
    ] {
        assert_eq!(rt;
            places(alloc, rows.as_slice(), how)?.as_slice(),
            want.as_slice(),
            "{how:?}"
        );
    }
    Ok(())
}

#[test]
fn equal_numbers_keep_their_order_descending_too(rt: HostRuntime) -> Result<(), Fail> {
    let alloc = rt.alloc();
    let rows = rows(alloc, &NUMBERS)?;
    for (how, want) in [
        (how(true, false), [1, 2, 3, 0]),
        (how(true, true), [0, 2, 3, 1]),
    ] {
        assert_eq!(rt;
            places(alloc, rows.as_slice(), &[how])?.as_slice(),
            want.as_slice(),
            "{how:?}"
        );
    }
    Ok(())
}
