//! Names of expressions and patterns that are bound, and what is refused first. A bound name is shown with its URI in
//! braces and its place behind `#`.

use crate::trees::{nested, pattern_path, tree};
use lists::List;
use std::alloc::{AllocError, Global};
use std::test::Fail;
use xml_names::Scopes;
use xpath_binding::{BindError, VarNames, bind, bind_pattern};
use xpath_parse::{expression, pattern};
use xpath_syntax::NameRef;

fn scopes(alloc: Global) -> Result<Scopes, AllocError> {
    let mut scopes = Scopes::start(alloc)?;
    scopes.bind(alloc, b"p", b"urn:p")?;
    scopes.bind(alloc, b"same", b"urn:p")?;
    Ok(scopes)
}

fn variable(alloc: Global, uri: &[u8], local: &[u8]) -> Result<NameRef, AllocError> {
    Ok(NameRef {
        prefix: List::new(alloc),
        local: List::from_slice(alloc, local)?,
        uri: Some(List::from_slice(alloc, uri)?),
        slot: None,
    })
}

// Two globals and three locals, of which two have the name of a global.
fn variables(alloc: Global) -> Result<VarNames, AllocError> {
    let mut vars = VarNames {
        globals: List::new(alloc),
        locals: List::new(alloc),
    };
    vars.globals.push(variable(alloc, b"", b"g")?)?;
    vars.globals.push(variable(alloc, b"", b"both")?)?;
    vars.locals.push(variable(alloc, b"", b"both")?)?;
    vars.locals.push(variable(alloc, b"urn:p", b"v")?)?;
    vars.locals.push(variable(alloc, b"", b"both")?)?;
    Ok(vars)
}

fn shown(alloc: Global, text: &str, vars: Option<&VarNames>) -> Result<String, Fail> {
    let mut out = String::new(alloc);
    match bind(alloc, expression(alloc, text)?, &scopes(alloc)?, vars) {
        Ok(e) => tree(&mut out, &e),
        Err(error) => return Ok(error.to_string(alloc)?),
    }
    Ok(out)
}

fn shown_pattern(alloc: Global, text: &str) -> Result<String, Fail> {
    let mut out = String::new(alloc);
    match bind_pattern(alloc, pattern(alloc, text)?, &scopes(alloc)?) {
        Ok(p) => {
            for path in p.alternatives.as_slice() {
                pattern_path(&mut out, path);
            }
        }
        Err(error) => return Ok(error.to_string(alloc)?),
    }
    Ok(out)
}

const EXPRESSIONS: &str = "\
$g => Variable<g>{}#0
$both => Variable<both>{}#4
$same:v => Variable<same:v>{urn:p}#3
$v => unknown variable
$n:v => unbound prefix
a => Path(child::Name<a>{})
@p:*[$g] => Path(attribute::InPrefix<p>{urn:p}[Variable<g>{}#0])
comment() => Path(child::Comment)
namespace::n:a => unsupported
n:a[$none] => unbound prefix
a[$none]/n:b => unknown variable
$none + n:a => unknown variable
n:a + $none => unbound prefix
-none() * n:a => unknown function
n:none() => unbound prefix
p:last() => unknown function
none(n:a) => unknown function
not(n:a) => unbound prefix
not(n:a, 1) => wrong arguments
current() => Call<current>{}()
current(1) => wrong arguments
concat('a') => wrong arguments
concat('a', 1) => Call<concat>{}(Literal<a>,Number<1>)
key('p:k', $g) => Call<key>{urn:p}(Literal<p:k>,Variable<g>{}#0)
key(('k'), 1) => Call<key>{}(Literal<k>,Number<1>)
key('n:k', $none) => unbound prefix
key('1', n:a) => wrong arguments
key(k, n:a) => wrong arguments
key('n:k') => wrong arguments
($g)[none()]/n:a => unknown function
id('x')/a => Filter(Call<id>{}(Literal<x>);;child::Name<a>{})";

#[test]
fn names_are_bound_or_refused_in_order(rt: HostRuntime) -> Result<(), Fail> {
    let vars = variables(rt.alloc())?;
    for row in EXPRESSIONS.lines() {
        let (text, want) = row.split_once(" => ").unwrap_or((row, "no row"));
        assert_eq!(rt;
            shown(rt.alloc(), text, Some(&vars))?.as_str(),
            want,
            "{text:?}"
        );
    }
    Ok(())
}

#[test]
fn without_variables_none_is_unknown(rt: HostRuntime) -> Result<(), Fail> {
    assert_eq!(rt;
        shown(rt.alloc(), "$none + $p:none", None)?.as_str(),
        "Add(Variable<none>{},Variable<p:none>{urn:p})"
    );
    Ok(())
}

const PATTERNS: &str = "\
key('p:k','x')//n => Key<p:k>{urn:p},<x>(//child::Name<n>{})
a[$none]|@p:b => Relative(/child::Name<a>{}[Variable<none>{}])Relative(/attribute::Name<p:b>{urn:p})
key('n:k','x')/a[current()] => unbound prefix
a[current()]|n:b => unsupported
a[current(1)] => wrong arguments
n:a[current()] => unbound prefix";

#[test]
fn patterns_are_bound_or_refused_in_order(rt: HostRuntime) -> Result<(), Fail> {
    for row in PATTERNS.lines() {
        let (text, want) = row.split_once(" => ").unwrap_or((row, "no row"));
        assert_eq!(rt; shown_pattern(rt.alloc(), text)?.as_str(), want, "{text:?}");
    }
    Ok(())
}

// The tree of such a chain is as deep as the chain is long.
#[test]
fn long_chains_are_bound_without_stack(rt: HostRuntime) -> Result<(), Fail> {
    let alloc = rt.alloc();
    let scopes = scopes(alloc)?;
    let text = nested(alloc, 100_000, "1+", "n:a", "");
    let bound = bind(alloc, expression(alloc, text.as_str())?, &scopes, None);
    assert_eq!(rt; bound.err(), Some(BindError::UnboundPrefix));
    Ok(())
}
