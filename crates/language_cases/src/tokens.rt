//! Worked texts, from outside.

use std::alloc::Global;
use std::test::Fail;
use xpath_syntax::{LexError, tokens};

// The tokens as `KIND@PLACE+LENGTH`, or `At PLACE`.
fn shown(alloc: Global, text: &str) -> Result<String, Fail> {
    match tokens(alloc, text) {
        Ok(tokens) => {
            let mut all = String::new(alloc);
            for token in tokens.as_slice() {
                let kind = token.kind;
                let at = token.at;
                let len = token.len;
                let one = format!(in alloc; "{kind:?}@{at}+{len} ")?;
                all.push_str(one.as_str())?;
            }
            Ok(all)
        }
        Err(LexError::At(place)) => Ok(format!(in alloc; "At {place}")?),
        Err(LexError::Memory) => Err("memory")?,
    }
}

#[test]
fn texts_have_these_tokens(rt: HostRuntime) -> Result<(), Fail> {
    for (text, want) in [
        ("", ""),
        ("* * *", "Star@0+1 Operator@2+1 Star@4+1 "),
        ("div div div", "Name@0+3 Operator@4+3 Name@8+3 "),
        ("a # b", "At 2"),
        ("a-b", "Name@0+3 "),
        ("a -b", "Name@0+1 Operator@2+1 Name@3+1 "),
        ("p:*", "InPrefix@0+3 "),
        ("$p:v", "Variable@0+4 "),
        ("'it''s'", "Literal@0+4 Literal@4+3 "),
        ("text()", "NodeType@0+4 Mark@4+1 Mark@5+1 "),
        ("child::a", "Axis@0+5 Mark@5+2 Name@7+1 "),
        ("a and:*", "Name@0+1 InPrefix@2+5 "),
        ("1.0.", "Number@0+3 Mark@3+1 "),
        (" 5. .0", "Number@1+2 Number@4+2 "),
        ("a:b:c", "At 3"),
        ("'a", "At 0"),
        ("4.0z: a a", "At 3"),
        ("following-sibling ::c", "Axis@0+17 Mark@18+2 Name@20+1 "),
        ("count(/*)\u{2003}", "At 9"),
        (".//..", "Mark@0+1 Operator@1+2 Mark@3+2 "),
        ("co--u(@*,!", "At 9"),
        (
            "1<=2>=3!=4",
            "Number@0+1 Operator@1+2 Number@3+1 Operator@4+2 Number@6+1 Operator@7+2 Number@9+1 ",
        ),
        (
            "a|b[1]",
            "Name@0+1 Operator@1+1 Name@2+1 Mark@3+1 Number@4+1 Mark@5+1 ",
        ),
    ] {
        assert_eq!(rt; shown(rt.alloc(), text)?.as_str(), want, "{text:?}");
    }
    Ok(())
}
