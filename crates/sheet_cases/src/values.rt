//! Values of attributes, and the first faults of texts that are none.

use sheet_elements::{Kind, SheetKind};
use sheet_values::{Value, ValueStop, value_of};
use std::alloc::{AllocError, Global};
use std::test::Fail;
use xml_names::Scopes;

// Scopes in which the prefix `p` is bound.
fn scopes(alloc: Global) -> Result<Scopes, AllocError> {
    let mut scopes = Scopes::start(alloc)?;
    scopes.push(alloc)?;
    scopes.bind(alloc, b"p", b"u")?;
    Ok(scopes)
}

fn fault_of(
    alloc: Global,
    scopes: &Scopes,
    kind: Kind,
    text: &str,
) -> Result<Option<SheetKind>, ValueStop> {
    match value_of(alloc, scopes, kind, text.as_bytes()) {
        Ok(_) => Ok(None),
        Err(ValueStop::Refused(kind)) => Ok(Some(kind)),
        Err(ValueStop::Memory) => Err(ValueStop::Memory),
    }
}

type Row = (Kind, &'static str, Option<SheetKind>);

const ROWS: [Row; 32] = [
    (Kind::Expression, "p:a[1] + $v", None),
    (Kind::Expression, "#", Some(SheetKind::Lex)),
    (Kind::Expression, "1 +", Some(SheetKind::Syntax)),
    (Kind::Expression, "1.5", Some(SheetKind::FractionLiteral)),
    (
        Kind::Expression,
        "9007199254740992",
        Some(SheetKind::NumberLimit),
    ),
    (
        Kind::Expression,
        "q:a + wrong()",
        Some(SheetKind::UnboundPrefix),
    ),
    (
        Kind::Expression,
        "wrong() + q:a",
        Some(SheetKind::UnknownFunction),
    ),
    (Kind::Expression, "count()", Some(SheetKind::WrongArgs)),
    (
        Kind::Expression,
        "namespace::a",
        Some(SheetKind::Unsupported),
    ),
    (Kind::Pattern, "p:a//b[1] | /", None),
    (Kind::Pattern, "a + b", Some(SheetKind::Syntax)),
    (Kind::Pattern, "a[$x]", Some(SheetKind::VariableInPattern)),
    (Kind::Pattern, "a[$x]/q:b", Some(SheetKind::UnboundPrefix)),
    (Kind::Pattern, "a['$x']", None),
    (Kind::Template, "{{p:a}}{p:a}", None),
    (Kind::Template, "{q:a}{#}", Some(SheetKind::Lex)),
    (Kind::Template, "}", Some(SheetKind::Syntax)),
    (Kind::Name, "p:a", None),
    (Kind::Name, "q:a", Some(SheetKind::UnboundPrefix)),
    (Kind::Name, "p:", Some(SheetKind::BadAttribute)),
    (Kind::NameTests, "* p:* a p:a", None),
    (Kind::NameTests, "", None),
    (Kind::NameTests, "q:* 9", Some(SheetKind::BadAttribute)),
    (Kind::NameTests, "q:*", Some(SheetKind::UnboundPrefix)),
    (Kind::Priority, "1000000.5", Some(SheetKind::BadAttribute)),
    (Kind::Method, "text", None),
    (Kind::Method, "wrong", Some(SheetKind::BadAttribute)),
    (Kind::DataType, "numbers", Some(SheetKind::BadAttribute)),
    (Kind::Order, "descending", None),
    (Kind::YesOrNo, "maybe", Some(SheetKind::BadAttribute)),
    (Kind::Nothing, "x", Some(SheetKind::BadAttribute)),
    (Kind::Unused, "x", None),
];

#[test]
fn values_have_their_first_fault(rt: HostRuntime) -> Result<(), Fail> {
    let alloc = rt.alloc();
    let scopes = scopes(alloc)?;
    for (kind, text, fault) in ROWS {
        assert_eq!(rt; fault_of(alloc, &scopes, kind, text)?, fault, "{text}");
    }
    Ok(())
}

fn priority_of(alloc: Global, scopes: &Scopes, text: &str) -> Option<i32> {
    match value_of(alloc, scopes, Kind::Priority, text.as_bytes()) {
        Ok(Value::Priority(hundredths)) => Some(hundredths),
        _ => None,
    }
}

#[test]
fn priorities_are_hundredths(rt: HostRuntime) -> Result<(), Fail> {
    let alloc = rt.alloc();
    let scopes = scopes(alloc)?;
    for (text, hundredths) in [
        ("0", Some(0)),
        ("-.5", Some(-50)),
        ("1.", Some(100)),
        ("2.05", Some(205)),
        ("-1000000", Some(-100_000_000)),
        ("1.234", None),
        (".", None),
        ("", None),
        ("+1", None),
    ] {
        assert_eq!(rt; priority_of(alloc, &scopes, text), hundredths, "{text}");
    }
    Ok(())
}
