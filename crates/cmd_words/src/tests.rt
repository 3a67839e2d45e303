use crate::{Item, Plan, PlanError, USAGE, plan, usage};
use std::alloc::{AllocError, Global};
use std::test::Fail;

// The words that stand between the spaces of a line.
fn words_of(alloc: Global, line: &str) -> Result<Vec<String>, AllocError> {
    let mut words = Vec::new(alloc);
    for word in line.split(' ') {
        words.push(String::from_str(alloc, word)?)?;
    }
    Ok(words)
}

fn is_no_plan(answer: &Result<Plan, PlanError>) -> bool {
    matches!(answer, Err(PlanError::NoPlan))
}

#[test]
fn other_words_are_no_plan(rt: HostRuntime) -> Result<(), Fail> {
    let alloc = rt.alloc();
    let none = [
        "",
        "-x",
        "--",
        "-- builtin=o",
        "builtin",
        "builtin=",
        "=o",
        "s=o",
        "-builtin=o",
        "builtin=o -x",
        "builtin=o --turns=b1",
        "builtin=o builtin=o",
        "builtin=o builtin=p builtin=o",
        "--turns=b1",
        "--turns b1 builtin=o",
        "--turn=b1 builtin=o",
        "--turns=b1 --turns=b1 builtin=o",
        "--turns= builtin=o",
        "--turns=, builtin=o",
        "--turns=b1, builtin=o",
        "--turns=b1,,r0 builtin=o",
        "--turns=b builtin=o",
        "--turns=b0 builtin=o",
        "--turns=b+1 builtin=o",
        "--turns=b1000001 builtin=o",
        "--turns=b00000001 builtin=o",
        "--turns=B1 builtin=o",
        "--turns=1 builtin=o",
        "--turns=r builtin=o",
        "--turns=r1 builtin=o",
        "--turns=r000 builtin=o",
        "--turns=r2 builtin=o builtin=p",
    ];
    for line in none {
        let words = words_of(alloc, line)?;
        assert!(rt; is_no_plan(&plan(alloc, &words)), "of {line:?}");
    }
    assert!(rt; is_no_plan(&plan(alloc, &[])));
    Ok(())
}

fn outs_are(plan: &Plan, outs: &[&str]) -> bool {
    let pairs = plan.pairs.as_slice();
    pairs.len() == outs.len()
        && pairs.iter().zip(outs).all(|(pair, out)| pair.sheet.as_str() == "builtin"
            && pair.out.as_str() == *out)
}

#[test]
fn words_of_the_form_are_a_plan(rt: HostRuntime) -> Result<(), Fail> {
    let alloc = rt.alloc();
    let cases: [(&str, &[&str], &[Item]); 6] = [
        ("builtin=o", &["o"], &[Item::Lines(1), Item::Reader(0)]),
        (
            "builtin=o builtin=o=p",
            &["o", "o=p"],
            &[Item::Lines(1), Item::Reader(0), Item::Reader(1)],
        ),
        ("builtin==", &["="], &[Item::Lines(1), Item::Reader(0)]),
        (
            "--turns=b3,r0,b1,r0 builtin=o",
            &["o"],
            &[
                Item::Lines(3),
                Item::Reader(0),
                Item::Lines(1),
                Item::Reader(0),
            ],
        ),
        (
            "--turns=r01,b0000001,b1000000 builtin=-x builtin=--",
            &["-x", "--"],
            &[Item::Reader(1), Item::Lines(1), Item::Lines(1_000_000)],
        ),
        ("--turns=r0 builtin=o", &["o"], &[Item::Reader(0)]),
    ];
    for (line, outs, items) in cases {
        let plan = plan(alloc, &words_of(alloc, line)?)?;
        assert!(rt; outs_are(&plan, outs), "of {line:?}");
        assert_eq!(rt; plan.items(alloc)?.as_slice(), items, "of {line:?}");
    }
    Ok(())
}

// A word `--turns=LIST` with so many items.
fn turns(alloc: Global, items: usize) -> Result<String, AllocError> {
    let mut word = String::from_str(alloc, "--turns=r0")?;
    for _ in 1..items {
        word.push_str(",b1")?;
    }
    Ok(word)
}

#[test]
fn at_most_16_pairs_and_1000_items_are_a_plan(rt: HostRuntime) -> Result<(), Fail> {
    let alloc = rt.alloc();
    let mut words = words_of(
        alloc,
        "builtin=1 builtin=2 builtin=3 builtin=4 builtin=5 builtin=6 builtin=7 builtin=8 builtin=9 builtin=a builtin=b builtin=c builtin=d builtin=e builtin=f builtin=g",
    )?;
    assert!(rt; plan(alloc, &words).is_ok());
    words.push(String::from_str(alloc, "builtin=h")?)?;
    assert!(rt; is_no_plan(&plan(alloc, &words)));
    for (items, is_plan) in [(1000, true), (1001, false)] {
        let words = [turns(alloc, items)?, String::from_str(alloc, "builtin=o")?];
        assert_eq!(rt; plan(alloc, &words).is_ok(), is_plan, "of {items} items");
    }
    Ok(())
}

#[test]
fn the_usage_line_is_that_of_the_words(rt: HostRuntime) {
    assert_eq!(rt; usage(), USAGE);
}
