//! Worked values, from outside.

use crate::{GREATEST, Memory, Num, NumFault, add, compare, div, mul, parse, print, rem, sub};
use std::cmp::Ordering;
use std::test::Fail;

const LEAST: i64 = -GREATEST;

fn whole(n: i64) -> Result<Num, NumFault> {
    Ok(Num::Whole(n))
}

#[test]
fn sums_differences_and_products(rt: HostRuntime) {
    let range = Err(NumFault::NumberRange);
    for (a, b, sum, difference, product) in [
        (-7, 3, whole(-4), whole(-10), whole(-21)),
        (94906266, 94906266, whole(189812532), whole(0), range),
        (
            GREATEST,
            1,
            range,
            whole(9_007_199_254_740_990),
            whole(GREATEST),
        ),
        (LEAST, 1, whole(-9_007_199_254_740_990), range, whole(LEAST)),
        (
            LEAST,
            -1,
            range,
            whole(-9_007_199_254_740_990),
            whole(GREATEST),
        ),
        (
            94906265,
            94906265,
            whole(189812530),
            whole(0),
            whole(9_007_199_136_250_225),
        ),
    ] {
        let (a, b) = (Num::Whole(a), Num::Whole(b));
        assert_eq!(rt; add(a, b), sum, "{a:?} + {b:?}");
        assert_eq!(rt; sub(a, b), difference, "{a:?} - {b:?}");
        assert_eq!(rt; mul(a, b), product, "{a:?} * {b:?}");
        assert_eq!(rt; add(a, Num::NaN), Ok(Num::NaN), "{a:?} + NaN");
        assert_eq!(rt; mul(Num::NaN, b), Ok(Num::NaN), "NaN * {b:?}");
    }
}

#[test]
fn quotients_and_remainders(rt: HostRuntime) {
    let fraction = Err(NumFault::Fraction);
    for (a, b, quotient, remainder) in [
        (7, -2, fraction, whole(1)),
        (-7, 2, fraction, whole(-1)),
        (7, 2, fraction, whole(1)),
        (94906266, -7, whole(-13558038), whole(0)),
        (-8, -2, whole(4), whole(0)),
        (0, 0, Ok(Num::NaN), Ok(Num::NaN)),
        (5, 0, Err(NumFault::NumberRange), Ok(Num::NaN)),
        (0, GREATEST, whole(0), whole(0)),
        (GREATEST, -1, whole(LEAST), whole(0)),
        (GREATEST, 94906265, fraction, whole(23584501)),
    ] {
        let (a, b) = (Num::Whole(a), Num::Whole(b));
        assert_eq!(rt; div(a, b), quotient, "{a:?} div {b:?}");
        assert_eq!(rt; rem(a, b), remainder, "{a:?} mod {b:?}");
    }
}

#[test]
fn reads_texts(rt: HostRuntime) -> Result<(), Fail> {
    let nan = Ok(Num::NaN);
    let range = Err(NumFault::NumberRange);
    let fraction = Err(NumFault::Fraction);
    for (text, want) in [
        ("", nan),
        (" ", nan),
        ("-", nan),
        ("5", whole(5)),
        ("5.", whole(5)),
        (".0", whole(0)),
        (".", nan),
        ("-.0", whole(0)),
        ("-5", whole(-5)),
        ("- 5", nan),
        ("+5", nan),
        ("1e3", nan),
        ("12.50", fraction),
        ("12.00", whole(12)),
        ("\t7\n", whole(7)),
        ("007", whole(7)),
        ("9007199254740991", whole(GREATEST)),
        ("-9007199254740992", range),
        ("9007199254740992.5", fraction),
        ("-0", whole(0)),
        ("1 2", nan),
        ("\u{663}", nan),
        ("--5", nan),
        ("-.5", fraction),
    ] {
        assert_eq!(rt; parse(text.as_bytes()), want, "{text:?}");
    }
    let long = vec![in rt.alloc(); b'1'; 1_000_000]?;
    assert_eq!(rt; parse(&long), range);
    Ok(())
}

#[test]
fn compares_and_prints(rt: HostRuntime) -> Result<(), Memory> {
    assert_eq!(rt;
        compare(Num::Whole(-1), Num::Whole(1)),
        Some(Ordering::Less)
    );
    assert_eq!(rt; compare(Num::NaN, Num::NaN), None);
    let mut text = Vec::from_slice(rt.alloc(), b"=")?;
    for n in [Num::Whole(LEAST), Num::NaN, Num::Whole(0)] {
        print(rt.alloc(), n, &mut text)?;
    }
    assert_eq!(rt; text.as_slice(), b"=-9007199254740991NaN0".as_slice());
    Ok(())
}
