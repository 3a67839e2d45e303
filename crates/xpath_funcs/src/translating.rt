ghost use Rattle.std.specs.Prelude.{◌≡◌, ℕ, List as Lst, IfOk, OnOk, Some, None, if◌then◌else◌};
ghost use Rattle.std.specs.Str.{bytes_eq};
ghost use Rattle.xpath_funcs.specs.Characters.{characters};
ghost use Rattle.xpath_funcs.specs.Translating as spec;

use crate::characters::first_character;
use lists::List;
use std::alloc::{AllocError, Global};
use std::collections::BTreeMap;
use whole_num::Memory;

/// What stands for each character that is mentioned. Strangers choose the characters, so no hash with a fixed seed.
type Partners = BTreeMap<Vec<u8>, List<u8>>;

/// The text with each character of `from` replaced by the one at its place in `to`, or left out where there is none;
/// the first mention decides (XPath 1.0, section 4.2). Linear in the texts, but for the logarithm of the number of
/// characters in `from`; fails only for want of memory.
pub fn translate(alloc: Global, a: &[u8], from: &[u8], to: &[u8]) -> Result<List<u8>, Memory>
    ensures { IfOk result (λ text. text ≡ spec.translated a.now from.now to.now) }
{
    let partners = partners_of(alloc, from, to)?;
    let mut made = List::new(alloc);
    let mut rest = a;
    while let Some((character, behind)) = first_character(rest) {
        made.extend_from_slice(replacement(&partners, character))?;
        rest = behind;
    }
    Ok(made)
}

/// The partners of the characters of `from`: those at their places in `to`, or nothing.
fn partners_of(alloc: Global, from: &[u8], to: &[u8]) -> Result<Partners, AllocError>
    ensures { IfOk result (λ partners. (character : Lst ℕ) → spec.found character partners ≡ spec.partner character (characters from.now) (characters to.now)) }
{
    let mut partners = BTreeMap::new(alloc);
    let mut left = from;
    let mut others = to;
    while let Some((character, behind)) = first_character(left) {
        let (partner, rest) = next_partner(others);
        mention(alloc, &mut partners, character, partner)?;
        left = behind;
        others = rest;
    }
    Ok(partners)
}

/// The first character, or nothing, and what follows it.
fn next_partner(bytes: &[u8]) -> (&[u8], &[u8])
    ensures partner { result.0.now ≡ spec.first_of (characters bytes.now) }
    ensures rest { characters result.1.now ≡ spec.rest_of (characters bytes.now) }
{
    match first_character(bytes) {
        Some(cut) => cut,
        None => (bytes, bytes),
    }
}

/// Gives a character its partner, unless it has one.
fn mention(
    alloc: Global,
    partners: &mut Partners,
    character: &[u8],
    partner: &[u8],
) -> Result<(), AllocError>
    ensures { OnOk result ((other : Lst ℕ) → spec.found other partners.new ≡ spec.either (spec.found other partners.old) (if bytes_eq character.now other then Some partner.now else None)) }
{
    match partners.get(character) {
        Some(_) => Ok(()),
        None => add(alloc, partners, character, partner),
    }
}

fn add(
    alloc: Global,
    partners: &mut Partners,
    character: &[u8],
    partner: &[u8],
) -> Result<(), AllocError>
    requires { spec.found character.now partners.old ≡ None }
    ensures { OnOk result ((other : Lst ℕ) → spec.found other partners.new ≡ spec.either (spec.found other partners.old) (if bytes_eq character.now other then Some partner.now else None)) }
{
    let key = Vec::from_slice(alloc, character)?;
    partners.insert(key, List::from_slice(alloc, partner)?)?;
    Ok(())
}

/// What stands for a character.
fn replacement<'a>(partners: &'a Partners, character: &'a [u8]) -> &'a [u8]
    ensures { result.now ≡ spec.replaced character.now (spec.found character.now partners.now) }
{
    match partners.get(character) {
        Some(partner) => partner.as_slice(),
        None => character,
    }
}
