//! Which location paths may be read one by one.

use std::test::Fail;
use xpath_binding::mark;
use xpath_parse::expression;
use xpath_syntax::Expr;

// Whether the last path of an expression is marked.
fn last_is_marked(e: &Expr) -> bool {
    match e {
        Expr::Path(path) => path.streams,
        Expr::Binary {
            op: _,
            left: _,
            right,
        } => match right.get() {
            Expr::Path(path) => path.streams,
            _ => false,
        },
        Expr::Filter {
            primary: _,
            predicates: _,
            tail: Some(path),
        } => path.streams,
        _ => false,
    }
}

#[test]
fn paths_of_child_steps_are_marked(rt: HostRuntime) -> Result<(), Fail> {
    for (text, allowed, want) in [
        ("item", true, true),
        ("/list/item[1]", true, true),
        ("(item)", true, true),
        ("1 + @a + item", true, true),
        ("item", false, false),
        ("/", true, false),
        ("a//item", true, false),
        ("a/@b", true, false),
        ("item[last()]", true, false),
        ("item[a[last()]]", true, false),
        ("item | @a", true, false),
        ("($x)/item", true, false),
    ] {
        let mut e = expression(rt.alloc(), text)?;
        mark(&mut e, allowed);
        assert_eq!(rt; last_is_marked(&e), want, "{text:?}");
    }
    Ok(())
}
