//! Names and name tests (XSLT 1.0, sections 2.4 and 3.4).

ghost use Rattle.std.specs.Prelude.{◌≡◌, IfOk};
ghost use Rattle.std.specs.List.{list_all};
ghost use Rattle.xpath_binding.specs.Names.{resolution};
ghost use Rattle.sheet_values.specs.Answers.{Answers};
ghost use Rattle.sheet_values.specs.Refusals.{each};
ghost use Rattle.sheet_values.specs.Names as spec;

use crate::stop::ValueStop;
use crate::value::NameTest;
use crate::words::words;
use lists::List;
use name_grammar::{is_name, is_ncname, local, prefix};
use sheet_elements::SheetKind;
use std::alloc::{AllocError, Global};
use xml_names::Scopes;
use xpath_syntax::NameRef;

// The URI of a prefix, which is empty where there is none: no name of an attribute's value has the default namespace.
fn uri_of(alloc: Global, scopes: &Scopes, prefix: &[u8]) -> Result<List<u8>, ValueStop>
    ensures { Answers (spec.uri_of (resolution scopes.now) prefix.now) result }
{
    if prefix.is_empty() {
        return Ok(List::new(alloc));
    }
    match scopes.resolve(prefix) {
        Some(uri) => Ok(List::from_slice(alloc, uri.as_slice())?),
        None => Err(ValueStop::Refused(SheetKind::UnboundPrefix)),
    }
}

/// A name with the URI of its prefix; BadAttribute where the text is none. Copies the URI.
#[tactic(auto, unfolding(crate::specs::Names::name_of))]
pub fn name_of(alloc: Global, scopes: &Scopes, text: &[u8]) -> Result<NameRef, ValueStop>
    ensures { Answers (spec.name_of (resolution scopes.now) text.now) result }
{
    if !is_name(text) {
        return Err(ValueStop::Refused(SheetKind::BadAttribute));
    }
    bound_name(alloc, scopes, text)
}

fn bound_name(alloc: Global, scopes: &Scopes, text: &[u8]) -> Result<NameRef, ValueStop>
    ensures { Answers (spec.bound_name (resolution scopes.now) text.now) result }
{
    let uri = uri_of(alloc, scopes, prefix(text))?;
    Ok(NameRef {
        prefix: List::from_slice(alloc, prefix(text))?,
        local: List::from_slice(alloc, local(text))?,
        uri: Some(uri),
        slot: None,
    })
}

fn is_star(word: &[u8]) -> bool
    ensures { result ≡ spec.is_star word.now }
{
    word == b"*".as_slice()
}

// `*`, a name, or a prefix with `:*`.
fn is_test(word: &[u8]) -> bool
    ensures { result ≡ spec.is_test word.now }
{
    is_star(word) || is_name(word) || (is_ncname(prefix(word)) && is_star(local(word)))
}

fn are_tests(words: &[List<u8>]) -> bool
    ensures { result ≡ list_all spec.is_test words.now }
{
    words.iter().all(|word| is_test(word.as_slice()))
}

fn local_of_test(alloc: Global, word: &[u8]) -> Result<Option<List<u8>>, AllocError>
    ensures { IfOk result (λ local. local ≡ spec.local_of_test word.now) }
{
    let local = local(word);
    if is_star(local) {
        Ok(None)
    } else {
        Ok(Some(List::from_slice(alloc, local)?))
    }
}

#[tactic(auto, unfolding(crate::specs::Names::test_of))]
fn test_of(alloc: Global, scopes: &Scopes, word: &[u8]) -> Result<NameTest, ValueStop>
    ensures { Answers (spec.test_of (resolution scopes.now) word.now) result }
{
    if is_star(word) {
        return Ok(NameTest {
            uri: None,
            local: None,
        });
    }
    let uri = uri_of(alloc, scopes, prefix(word))?;
    let local = local_of_test(alloc, word)?;
    Ok(NameTest {
        uri: Some(uri),
        local,
    })
}

fn tests_of(alloc: Global, scopes: &Scopes, words: &[List<u8>]) -> Result<List<NameTest>, ValueStop>
    ensures { Answers (each (spec.test_of (resolution scopes.now)) words.now) result }
{
    let mut tests = List::new(alloc);
    for word in words {
        tests.push(test_of(alloc, scopes, word.as_slice())?)?;
    }
    Ok(tests)
}

/// The name tests that stand between whitespace, with the URIs of their prefixes; BadAttribute where a word is none.
#[tactic(auto, unfolding(crate::specs::Names::name_tests))]
pub fn name_tests(alloc: Global, scopes: &Scopes, text: &[u8]) -> Result<List<NameTest>, ValueStop>
    ensures { Answers (spec.name_tests (resolution scopes.now) text.now) result }
{
    let words = words(alloc, text)?;
    if !are_tests(words.as_slice()) {
        return Err(ValueStop::Refused(SheetKind::BadAttribute));
    }
    tests_of(alloc, scopes, words.as_slice())
}
