//! What stands in instructions beside other instructions.

ghost use Rattle.std.specs.Prelude.{◌≡◌, ◌||◌};
ghost use Rattle.std.specs.List.{list_any};
ghost use Rattle.engine_meaning.specs.Sizes as spec;
ghost use Rattle.xpath_chains.specs.Mentions.{last_outside};

use lists::List;
use sheet_ast::{LiteralAttr, SortDecl};
use xpath_chains::uses_last_outside_predicates;
use xpath_syntax::{Expr, Part};

fn part_asks(part: &Part) -> bool
    ensures { result ≡ spec.part_asks part.now }
{
    match part {
        Part::Plain(_) => false,
        Part::Value(e) => uses_last_outside_predicates(e),
    }
}

pub fn parts_ask(parts: &List<Part>) -> bool
    ensures { result ≡ spec.parts_ask parts.now }
{
    parts.as_slice().iter().any(|part| part_asks(part))
}

fn some_parts_ask(parts: &Option<List<Part>>) -> bool
    ensures { result ≡ spec.some_parts_ask parts.now }
{
    match parts {
        None => false,
        Some(parts) => parts_ask(parts),
    }
}

// The name and the namespace of an element or attribute whose name is computed.
pub fn name_asks(name: &List<Part>, namespace: &Option<List<Part>>) -> bool
    ensures { result ≡ (spec.parts_ask name.now || spec.some_parts_ask namespace.now) }
{
    parts_ask(name) || some_parts_ask(namespace)
}

fn attribute_asks(attribute: &LiteralAttr) -> bool
    ensures { result ≡ spec.attribute_asks attribute.now }
{
    parts_ask(&attribute.value)
}

pub fn attributes_ask(attributes: &List<LiteralAttr>) -> bool
    ensures { result ≡ list_any spec.attribute_asks attributes.now }
{
    attributes
        .as_slice()
        .iter()
        .any(|attribute| attribute_asks(attribute))
}

fn sort_asks(sort: &SortDecl) -> bool
    ensures { result ≡ spec.sort_asks sort.now }
{
    uses_last_outside_predicates(&sort.select)
}

fn sorts_ask(sorts: &List<SortDecl>) -> bool
    ensures { result ≡ list_any spec.sort_asks sorts.now }
{
    sorts.as_slice().iter().any(|sort| sort_asks(sort))
}

// The nodes of a select, and the keys that sort them.
pub fn select_asks(select: &Expr, sorts: &List<SortDecl>) -> bool
    ensures { result ≡ (last_outside select.now || list_any spec.sort_asks sorts.now) }
{
    uses_last_outside_predicates(select) || sorts_ask(sorts)
}
