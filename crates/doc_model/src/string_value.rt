ghost use Rattle.std.specs.Prelude.{◌≡◌, ◌<◌, [], length, IfOk};
ghost use Rattle.doc_model.specs.Rows.{row_at};
ghost use Rattle.doc_model.specs.Values.{texts_below, value_in};

use crate::row::{Kind, Row};
use lists::List;
use std::alloc::{AllocError, Global};

/// The string-value of a row of finished rows (XPath 1.0, section 5), by its definition, for tests. Costs
/// the rows of its subtree. Fails only for want of memory.
pub fn value_by_filter(alloc: Global, rows: &[Row], n: u32) -> Result<List<u8>, AllocError>
    requires { n < length rows.now }
    ensures { IfOk result (λ value. value ≡ value_in [] rows.now n) }
{
    let row = &rows[n as usize];
    match row.kind {
        Kind::Root | Kind::Element => texts_below(alloc, rows, n as usize, row.depth),
        Kind::Attribute | Kind::Text | Kind::Instruction | Kind::Comment => {
            List::from_slice(alloc, row.value.as_slice())
        }
    }
}

// The texts of the rows after row n, up to the next row that is not deeper.
fn texts_below(alloc: Global, rows: &[Row], n: usize, depth: u32) -> Result<List<u8>, AllocError>
    requires within { n < length rows.now }
    requires depth { depth ≡ (row_at rows.now n).depth }
    ensures { IfOk result (λ value. value ≡ texts_below [] rows.now n) }
{
    let mut value = List::new(alloc);
    for k in n + 1..rows.len() {
        let row = &rows[k];
        if row.depth <= depth {
            return Ok(value);
        }
        match row.kind {
            Kind::Text => value.extend_from_slice(row.value.as_slice())?,
            _ => continue,
        }
    }
    Ok(value)
}
