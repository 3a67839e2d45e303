// An element's head: its start, its declarations and its attributes.
ghost use Rattle.std.specs.Prelude.{◌≡◌, ◌++◌, ◌∷◌, ◌<◌, [], ℕ, List as Lst, IfOk, OnOk, Some, length, map};
ghost use Rattle.pyx_lines.specs.Writing.{written};
ghost use Rattle.pyx_lines.specs.declared.line.Line.TheVariants as line;
ghost use Rattle.pyx_output.specs.Bytes.{bytes_of_lines, in_force, Element};
ghost use Rattle.pyx_output.specs.Choosing.{choice_of, CanDeclare};
ghost use Rattle.pyx_output.specs.Declaring.{qualified, declaration_name, declaration_line, Head, first_head, element_choice, element_name, attribute_choice, with_choice};
ghost use Rattle.pyx_output.specs.Heading.{with_all, in_head, Stands, chosen_line};
ghost use Rattle.pyx_output.specs.Used.{IsUsed};

use crate::choosing::{Chosen, choose_for_attribute, choose_for_element};
use crate::nest::Nest;
use crate::used::{none_used, use_prefix};
use lists::List;
use pyx_lines::{write_attribute, write_start};
use result_events::Name;
use std::alloc::{AllocError, Global};
use std::collections::BTreeMap;

/// An element's head that may still grow: the prefixes that are used in it, and the bytes of its
/// attributes, which stand behind all its declarations.
#[derive(Debug, Drop)]
pub struct Heading {
    pub used: BTreeMap<Vec<u8>, usize>,
    pub held: Vec<u8>,
}

/// An element's start line and its own declaration.
pub fn begin(
    alloc: Global,
    out: &mut Vec<u8>,
    nest: &mut Nest,
    name: &Name,
) -> Result<Heading, AllocError>
    ensures stands { IfOk result (λ heading. Stands (in_head (element_name (in_force nest.old) name.now) nest.old (first_head (in_force nest.old) name.now) []) nest.new (Some heading)) }
    ensures out { IfOk result (λ heading. out.new.items ≡ out.old.items ++ (written (line.Start (element_name (in_force nest.old) name.now)) ++ bytes_of_lines (map declaration_line (element_choice (in_force nest.old) name.now).declared))) }
{
    let chosen = choose_for_element(alloc, nest, name)?;
    let written = qualified(alloc, chosen.prefix.as_slice(), name.local.as_slice())?;
    write_start(written.as_slice(), out)?;
    nest.open(alloc, written)?;
    let mut used = none_used(alloc);
    take(alloc, out, nest, &mut used, chosen, name)?;
    Ok(Heading {
        used,
        held: Vec::new(alloc),
    })
}

/// An attribute's declaration, if it needs one; its own line is held.
pub fn attribute(
    alloc: Global,
    out: &mut Vec<u8>,
    nest: &mut Nest,
    heading: Heading,
    name: &Name,
    value: &List<u8>,
) -> Result<Heading, AllocError>
    requires { 0 < length nest.old }
    ensures stands { (own : Lst ℕ) (outer : Lst Element) (head : Head) (held : Lst ℕ) → Stands (in_head own outer head held) nest.old (Some heading) →
        IfOk result (λ next. Stands (in_head own outer (with_choice (attribute_choice (in_force outer) head name.now) head) (held ++ written (chosen_line outer head name.now value.now))) nest.new (Some next)) }
    ensures out { (own : Lst ℕ) (outer : Lst Element) (head : Head) (held : Lst ℕ) → Stands (in_head own outer head held) nest.old (Some heading) →
        IfOk result (λ next. out.new.items ≡ out.old.items ++ bytes_of_lines (map declaration_line (attribute_choice (in_force outer) head name.now).declared)) }
{
    let Heading { mut used, mut held } = heading;
    let chosen = choose_for_attribute(alloc, nest, &used, name)?;
    let written = qualified(alloc, chosen.prefix.as_slice(), name.local.as_slice())?;
    write_attribute(written.as_slice(), value.as_slice(), &mut held)?;
    take(alloc, out, nest, &mut used, chosen, name)?;
    Ok(Heading { used, held })
}

// Uses a prefix in the head of the innermost element, and declares it if that is chosen.
fn take(
    alloc: Global,
    out: &mut Vec<u8>,
    nest: &mut Nest,
    used: &mut BTreeMap<Vec<u8>, usize>,
    chosen: Chosen,
    name: &Name,
) -> Result<(), AllocError>
    requires inside { 0 < length nest.old }
    requires declared { CanDeclare chosen }
    ensures nest { OnOk result (nest.new ≡ with_all (choice_of chosen name.now.uri).declared nest.old) }
    ensures out { OnOk result (out.new.items ≡ out.old.items ++ bytes_of_lines (map declaration_line (choice_of chosen name.now.uri).declared)) }
    ensures used { (prefixes : Lst (Lst ℕ)) → IsUsed used.old prefixes → OnOk result (IsUsed used.new (chosen.prefix ∷ prefixes)) }
{
    let prefix = chosen.prefix.as_slice();
    use_prefix(alloc, used, prefix)?;
    if chosen.declares {
        let uri = name.uri.as_slice();
        nest.declare(alloc, prefix, uri)?;
        let declaration = declaration_name(alloc, prefix)?;
        write_attribute(declaration.as_slice(), uri, out)?;
    }
    Ok(())
}

// A name as it is written.
fn qualified(alloc: Global, prefix: &[u8], local: &[u8]) -> Result<List<u8>, AllocError>
    ensures { IfOk result (λ name. name ≡ qualified prefix.now local.now) }
{
    if prefix.is_empty() {
        return List::from_slice(alloc, local);
    }
    let mut name = List::from_slice(alloc, prefix)?;
    name.push(b':')?;
    name.extend_from_slice(local)?;
    Ok(name)
}

fn declaration_name(alloc: Global, prefix: &[u8]) -> Result<List<u8>, AllocError>
    ensures { IfOk result (λ name. name ≡ declaration_name prefix.now) }
{
    let mut name = List::from_slice(alloc, b"xmlns")?;
    if !prefix.is_empty() {
        name.push(b':')?;
        name.extend_from_slice(prefix)?;
    }
    Ok(name)
}
