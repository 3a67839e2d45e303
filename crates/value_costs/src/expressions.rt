// Expressions over a document of items.
use crate::copies::document;
use doc_model::NodeView;
use key_sources::NoKeys;
use lists::List;
use plain_columns::Plain;
use std::alloc::{AllocError, Global};
use xml_names::Scopes;
use xpath_binding::{bind, mark};
use xpath_core::{Context, Env, Size, eval};
use xpath_parse::expression;
use xpath_syntax::Expr;
use xpath_values::Value;

// The root, as the only node of a list.
const ROOT: Context = Context {
    node: 0,
    position: 1,
    size: Size::Known(1),
    current: 0,
};

// What is evaluated for a kind; nothing for a kind that is none.
pub fn source_of(kind: &str) -> Option<&'static str> {
    let source = match kind {
        "descendants" => "//item",
        "counted" => "count(//item)",
        "chosen" => "//item[@kind = 'short']",
        "united" => "//item | //name",
        "stepped" => "list/item/name",
        "following" => "list/item[1]/following::item",
        "siblings" => "list/item[last()]/preceding-sibling::*",
        "placed" => "list/item[position() > 1]",
        "compared" => "//item = //name",
        "measured" => "string-length(/)",
        _ => return None,
    };
    Some(source)
}

// How many nodes an expression gives over a document of so many items; 1 where it gives no nodes.
pub fn evaluated(alloc: Global, source: &str, size: u32) -> Result<usize, AllocError> {
    let table = document(alloc, size).map_err(|_| AllocError)?;
    let e = parsed(alloc, source)?;
    value_size(alloc, &table, &e)
}

fn parsed(alloc: Global, source: &str) -> Result<Expr, AllocError> {
    let scopes = Scopes::start(alloc).map_err(|_| AllocError)?;
    let bare = expression(alloc, source).map_err(|_| AllocError)?;
    let mut e = bind(alloc, bare, &scopes, None).map_err(|_| AllocError)?;
    mark(&mut e, true);
    Ok(e)
}

fn value_size(alloc: Global, table: &Plain, e: &Expr) -> Result<usize, AllocError> {
    let none = List::new(alloc);
    let env = Env {
        globals: &none,
        locals: &none,
    };
    let mut view = table.view();
    view.told();
    match eval(alloc, &mut view, &mut NoKeys, e, &ROOT, &env) {
        Ok(Value::Nodes(nodes)) => Ok(nodes.len()),
        Ok(_) => Ok(1),
        Err(_) => Err(AllocError),
    }
}
