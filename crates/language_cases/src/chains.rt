//! Copies of trees, the calls that they have, and long chains of operators.

use crate::trees::{nested, pattern_path, tree};
use std::test::Fail;
use xpath_chains::{
    chain_of, copy, copy_pattern_path, mentions_last, mentions_position,
    uses_last_outside_predicates,
};
use xpath_parse::{expression, pattern};

#[test]
fn trees_are_copied_and_asked(rt: HostRuntime) -> Result<(), Fail> {
    let alloc = rt.alloc();
    for (text, last, position, outside) in [
        ("1 - 2 * 3", false, false, false),
        ("-last()", true, false, true),
        ("concat('a', $v, last())", true, false, true),
        ("a[last()] | b", true, false, false),
        ("/p:a[b[position() = 1]]/@*", false, true, false),
        ("(last())[1]/a[position()]", true, true, true),
        ("($x)[last()]", true, false, false),
        (
            "key('k', 1)[2]//a[last() - position() < 3]",
            true,
            true,
            false,
        ),
        ("p:last(processing-instruction('x'))", false, false, false),
    ] {
        let whole = expression(alloc, text)?;
        let mut shown = String::new(alloc);
        tree(&mut shown, &whole);
        let mut again = String::new(alloc);
        tree(&mut again, &copy(alloc, &whole)?);
        assert_eq!(rt; again, shown, "{text:?}");
        assert_eq!(rt; mentions_last(&whole), last, "{text:?}");
        assert_eq!(rt; mentions_position(&whole), position, "{text:?}");
        assert_eq!(rt; uses_last_outside_predicates(&whole), outside, "{text:?}");
    }
    let paths = pattern(alloc, "key('k','x')//a[1]/@b | id('y')")?;
    for path in paths.alternatives.as_slice() {
        let mut shown = String::new(alloc);
        pattern_path(&mut shown, path);
        let mut again = String::new(alloc);
        pattern_path(&mut again, &copy_pattern_path(alloc, path)?);
        assert_eq!(rt; again, shown);
    }
    Ok(())
}

// The tree of such a chain is as deep as the chain is long.
#[test]
fn long_chains_of_operators_take_no_stack(rt: HostRuntime) -> Result<(), Fail> {
    let alloc = rt.alloc();
    let text = nested(alloc, 100_000, "1+", "last()", "");
    let whole = expression(alloc, text.as_str())?;
    assert_eq!(rt; chain_of(alloc, &whole)?.above.len(), 100_000);
    assert!(rt; mentions_last(&copy(alloc, &whole)?));
    assert!(rt; uses_last_outside_predicates(&whole));
    assert!(rt; !mentions_position(&whole));
    Ok(())
}
