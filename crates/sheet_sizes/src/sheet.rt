//! The whole sheet.

ghost use Rattle.std.specs.Prelude.{◌≡◌};
ghost use Rattle.std.specs.List.{list_any};
ghost use Rattle.engine_meaning.specs.Sizes as spec;

use crate::asking::{body_asks, value_asks, variables_ask};
use lists::List;
use sheet_ast::{Global, KeyDecl, Sheet, Template};
use xpath_chains::uses_last_outside_predicates;

fn template_asks(template: &Template) -> bool
    ensures { result ≡ spec.template_asks template.now }
{
    variables_ask(&template.params) || body_asks(&template.body)
}

fn templates_ask(templates: &List<Template>) -> bool
    ensures { result ≡ list_any spec.template_asks templates.now }
{
    templates
        .as_slice()
        .iter()
        .any(|template| template_asks(template))
}

fn global_asks(global: &Global) -> bool
    ensures { result ≡ spec.global_asks global.now }
{
    value_asks(&global.value)
}

fn globals_ask(globals: &List<Global>) -> bool
    ensures { result ≡ list_any spec.global_asks globals.now }
{
    globals.as_slice().iter().any(|global| global_asks(global))
}

fn key_asks(key: &KeyDecl) -> bool
    ensures { result ≡ spec.key_asks key.now }
{
    uses_last_outside_predicates(&key.value)
}

fn keys_ask(keys: &List<KeyDecl>) -> bool
    ensures { result ≡ list_any spec.key_asks keys.now }
{
    keys.as_slice().iter().any(|key| key_asks(key))
}

/// Whether some expression of a stylesheet has a call of last() that stands in no predicate (XPath 1.0, section 4.1; XSLT
/// 1.0, sections 5.4 and 8), in whatever template, global or key it is. Costs O(size of the sheet), takes no memory, and
/// recurs as deep as elements and expressions are nested, chains of operators left out.
#[tactic(auto, unfolding(engine_meaning::specs::Sizes::asks_size))]
pub fn asks_size(sheet: &Sheet) -> bool
    ensures { result ≡ spec.asks_size sheet.now }
{
    templates_ask(&sheet.templates) || globals_ask(&sheet.globals) || keys_ask(&sheet.keys)
}
