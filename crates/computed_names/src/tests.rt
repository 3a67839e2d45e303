use crate::{computed_name, is_target};
use lists::List;
use sheet_scopes::ScopeEntry;
use std::alloc::{AllocError, Global};
use std::test::Fail;

fn entries(alloc: Global) -> Result<List<ScopeEntry>, AllocError> {
    let mut all = List::new(alloc);
    for (outer, prefix, uri) in [(0, "p", "urn:p"), (1, "", "urn:default")] {
        all.push(ScopeEntry {
            outer,
            prefix: List::from_slice(alloc, prefix.as_bytes())?,
            uri: List::from_slice(alloc, uri.as_bytes())?,
        })?;
    }
    Ok(all)
}

// The namespace and the local name, in a scope that binds `p` and the default namespace.
fn shown(alloc: Global, name: &str, uri: Option<&str>, attribute: bool) -> Result<String, Fail> {
    let entries = entries(alloc)?;
    let uri = uri.map(str::as_bytes);
    match computed_name(
        alloc,
        name.as_bytes(),
        uri,
        entries.as_slice(),
        2,
        attribute,
    ) {
        Ok(name) => {
            let uri = str::from_utf8(name.uri.as_slice()).unwrap_or("?");
            let local = str::from_utf8(name.local.as_slice()).unwrap_or("?");
            Ok(format!(in alloc; "{{{uri}}}{local}")?)
        }
        Err(stop) => Ok(stop.to_string(alloc)?),
    }
}

#[test]
fn names_are_computed_or_refused(rt: HostRuntime) -> Result<(), Fail> {
    for (name, uri, attribute, want) in [
        ("a", None, false, "{urn:default}a"),
        ("a", None, true, "{}a"),
        ("p:a", None, true, "{urn:p}a"),
        ("q:a", None, false, "unbound prefix"),
        ("q:a", Some("urn:x"), false, "{urn:x}a"),
        ("a", Some(""), false, "{}a"),
        ("1", None, false, "bad name"),
        ("a:b:c", Some("urn:x"), true, "bad name"),
        ("xmlns", Some("urn:x"), true, "bad name"),
        ("xmlns", None, false, "{urn:default}xmlns"),
        ("p:xmlns", None, true, "{urn:p}xmlns"),
        ("q:xmlns", None, true, "unbound prefix"),
        ("p:xmlns", Some(""), true, "bad name"),
        ("xmlns:a", None, true, "unbound prefix"),
        (
            "xml:a",
            None,
            true,
            "{http://www.w3.org/XML/1998/namespace}a",
        ),
    ] {
        assert_eq!(rt;
            shown(rt.alloc(), name, uri, attribute)?.as_str(),
            want,
            "{name:?}"
        );
    }
    Ok(())
}

#[test]
fn targets_are_ncnames_but_xml(rt: HostRuntime) -> Result<(), Fail> {
    for (name, want) in [
        ("a", true),
        ("xmlx", true),
        ("XmL", false),
        ("a:b", false),
        ("", false),
    ] {
        assert_eq!(rt; is_target(name.as_bytes()), want, "{name:?}");
    }
    Ok(())
}
