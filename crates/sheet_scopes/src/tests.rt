use crate::{ScopeEntry, resolve};
use lists::List;
use std::alloc::{AllocError, Global};
use std::test::Fail;

fn entry(alloc: Global, outer: u32, prefix: &str, uri: &str) -> Result<ScopeEntry, AllocError> {
    Ok(ScopeEntry {
        outer,
        prefix: List::from_slice(alloc, prefix.as_bytes())?,
        uri: List::from_slice(alloc, uri.as_bytes())?,
    })
}

// Two elements beside each other in one, of which the second ends a binding.
fn entries(alloc: Global) -> Result<List<ScopeEntry>, AllocError> {
    let mut all = List::new(alloc);
    all.push(entry(alloc, 0, "p", "urn:p")?)?;
    all.push(entry(alloc, 1, "", "urn:default")?)?;
    all.push(entry(alloc, 2, "p", "urn:inner")?)?;
    all.push(entry(alloc, 2, "", "")?)?;
    Ok(all)
}

#[test]
fn the_innermost_declaration_counts(rt: HostRuntime) -> Result<(), Fail> {
    let entries = entries(rt.alloc())?;
    for (at, prefix, want) in [
        (0, "p", None),
        (1, "p", Some("urn:p")),
        (1, "", None),
        (2, "", Some("urn:default")),
        (3, "p", Some("urn:inner")),
        (3, "", Some("urn:default")),
        (4, "p", Some("urn:p")),
        (4, "", None),
        (4, "q", None),
        (0, "xml", Some("http://www.w3.org/XML/1998/namespace")),
        (4, "xmlns", None),
        (9, "p", None),
    ] {
        assert_eq!(rt;
            resolve(entries.as_slice(), at, prefix.as_bytes()),
            want.map(str::as_bytes),
            "{prefix:?} in {at}"
        );
    }
    Ok(())
}
