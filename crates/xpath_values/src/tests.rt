// Conversions and comparisons of every kind, with answers from outside where memory is ample.
use crate::{
    Atom, ConversionError, Memory, Value, compare, copy_value, fragment_beside, fragment_number,
    fragment_text, number_of, text_of, truth_of, value_truth,
};
use lists::List;
use result_events::{Events, ResultEvent};
use std::alloc::Global;
use std::test::Fail;
use whole_num::{GREATEST, Num, NumFault};
use xpath_syntax::Op;

fn text(alloc: Global, text: &str) -> Result<Atom, Memory> {
    Ok(Atom::Text(List::from_slice(alloc, text.as_bytes())?))
}

// The atom that is written: `true`, `false`, a number, `NaN`, or a text in quotes.
fn atom(alloc: Global, written: &str) -> Result<Atom, Memory> {
    match written {
        "true" => Ok(Atom::Truth(true)),
        "false" => Ok(Atom::Truth(false)),
        "NaN" => Ok(Atom::Number(Num::NaN)),
        "0" => Ok(Atom::Number(Num::Whole(0))),
        "1" => Ok(Atom::Number(Num::Whole(1))),
        "-2" => Ok(Atom::Number(Num::Whole(-2))),
        "greatest" => Ok(Atom::Number(Num::Whole(GREATEST))),
        _ => text(alloc, written),
    }
}

#[test]
fn conversions_of_every_kind(rt: HostRuntime) -> Result<(), Fail> {
    let alloc = rt.alloc();
    let nan = Ok(Num::NaN);
    for (written, string, number, truth) in [
        ("true", "true", Ok(Num::Whole(1)), true),
        ("false", "false", Ok(Num::Whole(0)), false),
        ("NaN", "NaN", nan, false),
        ("0", "0", Ok(Num::Whole(0)), false),
        ("-2", "-2", Ok(Num::Whole(-2)), true),
        (
            "greatest",
            "9007199254740991",
            Ok(Num::Whole(GREATEST)),
            true,
        ),
        ("", "", nan, false),
        (" 7. ", " 7. ", Ok(Num::Whole(7)), true),
        ("a", "a", nan, true),
        ("12.50", "12.50", Err(NumFault::Fraction), true),
        (
            "9007199254740992",
            "9007199254740992",
            Err(NumFault::NumberRange),
            true,
        ),
    ] {
        let atom = atom(alloc, written)?;
        assert_eq!(rt;
            text_of(alloc, &atom)?.as_slice(),
            string.as_bytes(),
            "{written}"
        );
        assert_eq!(rt; number_of(&atom), number, "{written}");
        assert_eq!(rt; truth_of(&atom), truth, "{written}");
        let value = Value::Atom(atom);
        assert_eq!(rt; value_truth(&value), truth, "{written}");
        assert_eq!(rt; copy_value(alloc, &value)?, value, "{written}");
    }
    Ok(())
}

// What `=`, `!=`, `<`, `<=`, `>` and `>=` say, each a letter: yes, no, Fraction, NumberRange.
fn answers(a: &Atom, b: &Atom) -> [u8; 6] {
    [
        Op::Equal,
        Op::NotEqual,
        Op::Less,
        Op::LessEqual,
        Op::Greater,
        Op::GreaterEqual,
    ]
    .map(|op| {
        match compare(op, a, b) {
            Ok(true) => b'y',
            Ok(false) => b'n',
            Err(NumFault::Fraction) => b'f',
            Err(NumFault::NumberRange) => b'r',
        }
    })
}

#[test]
fn comparisons_of_every_pair(rt: HostRuntime) -> Result<(), Fail> {
    let alloc = rt.alloc();
    for (a, b, want) in [
        ("true", "false", b"nynnyy"),
        ("true", "1", b"ynnyny"),
        ("-2", "true", b"ynyynn"),
        ("NaN", "false", b"ynnnnn"),
        ("", "false", b"ynnnnn"),
        ("0.5", "true", b"ynffff"),
        ("true", "9007199254740992", b"ynrrrr"),
        ("1", "-2", b"nynnyy"),
        ("1", "NaN", b"nynnnn"),
        ("NaN", "NaN", b"nynnnn"),
        ("1", "1.0", b"ynnyny"),
        ("a", "1", b"nynnnn"),
        ("9007199254740992", "0.5", b"nyrrrr"),
        ("0.5", "1", b"ffffff"),
        ("a", "a", b"ynnnnn"),
        ("1", "2.5", b"ffffff"),
        ("3.", "3", b"nynyny"),
        ("03", "3", b"nynyny"),
    ] {
        let (left, right) = (atom(alloc, a)?, atom(alloc, b)?);
        assert_eq!(rt;
            answers(&left, &right).as_slice(),
            want.as_slice(),
            "{a} {b}"
        );
    }
    Ok(())
}

fn fragment(alloc: Global, first: &str, second: &str) -> Result<Events, Memory> {
    let mut events = List::new(alloc);
    events.push(ResultEvent::Text(List::from_slice(alloc, first.as_bytes())?))?;
    events.push(ResultEvent::Comment(List::from_slice(alloc, b"c")?))?;
    events.push(ResultEvent::Text(List::from_slice(alloc, second.as_bytes())?))?;
    events.push(ResultEvent::End)?;
    Ok(events)
}

#[test]
fn fragments(rt: HostRuntime) -> Result<(), Fail> {
    let alloc = rt.alloc();
    for (first, second, joined, number) in [
        ("1", "2", "12", Ok(Num::Whole(12))),
        ("", "", "", Ok(Num::NaN)),
        (
            "1.",
            "5",
            "1.5",
            Err(ConversionError::Fault(NumFault::Fraction)),
        ),
    ] {
        let events = fragment(alloc, first, second)?;
        assert_eq!(rt;
            fragment_text(alloc, &events)?.as_slice(),
            joined.as_bytes()
        );
        assert_eq!(rt; fragment_number(alloc, &events), number);
        assert_eq!(rt;
            fragment_beside(alloc, &events, &Atom::Truth(false))?,
            Atom::Truth(true)
        );
        assert_eq!(rt;
            fragment_beside(alloc, &events, &Atom::Number(Num::NaN))?,
            text(alloc, joined)?
        );
        let value = Value::Fragment(events);
        assert!(rt; value_truth(&value));
        assert_eq!(rt; copy_value(alloc, &value)?, value);
    }
    assert!(rt; !value_truth(&Value::Nodes(List::new(alloc))));
    Ok(())
}
