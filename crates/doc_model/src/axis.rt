ghost use Rattle.std.specs.Prelude.{◌≡◌, ◌^◌, ◌<◌, [], length, IfOk};
ghost use Rattle.doc_model.specs.declared.node_test.Test.TheVariants.{Any};
ghost use Rattle.doc_model.specs.Axes.{is_on, is_node, is_below, is_descendant, is_sibling, axis_rows};
ghost use Rattle.doc_model.specs.Relations.{is_above, parent_of, extent_of, is_child, is_some_of};
ghost use Rattle.doc_model.specs.Rows.{row_at};

use crate::row::{Axis, Kind, Row};
use lists::List;
use std::alloc::{AllocError, Global};

/// The rows of an axis of row `n` in the order of the axis (XPath 1.0, section 2.2), where no row will be
/// added: each row is judged by the definition of the axis. Costs the square of the rows, so it is for
/// tests of faster walks. Fails only for want of memory.
pub fn axis_by_filter(
    alloc: Global,
    rows: &[Row],
    n: u32,
    axis: Axis,
) -> Result<List<u32>, AllocError>
    requires row { n < length rows.now }
    requires few { length rows.now < 2 ^ 32 }
    ensures { IfOk result (λ found. found ≡ axis_rows [] rows.now n axis Any) }
{
    let mut found = Vec::new(alloc);
    for k in 0..rows.len() as u32 {
        if is_on_axis(rows, n, k, axis) {
            found.push(k)?;
        }
    }
    match axis {
        Axis::Ancestor | Axis::AncestorOrSelf | Axis::Preceding | Axis::PrecedingSibling => {
            found.reverse();
        }
        _ => {}
    }
    Ok(List::from_vec(found))
}

// Whether row k is on the axis of row n.
fn is_on_axis(rows: &[Row], n: u32, k: u32, axis: Axis) -> bool
    requires row { n < length rows.now }
    requires other { k < length rows.now }
    requires few { length rows.now < 2 ^ 32 }
    ensures { result ≡ is_on axis rows.now n k }
{
    match axis {
        Axis::Itself => n == k,
        Axis::Child => is_child(rows, n, k),
        Axis::Parent => is_some(parent(rows, n), k),
        Axis::Descendant => is_descendant(rows, n, k),
        Axis::DescendantOrSelf => n == k || is_descendant(rows, n, k),
        Axis::Ancestor => is_below(rows, k, n),
        Axis::AncestorOrSelf => n == k || is_below(rows, k, n),
        Axis::Following => is_node(rows, k) && n < k && !is_descendant(rows, n, k),
        Axis::Preceding => is_node(rows, k) && k < n && !is_below(rows, k, n),
        Axis::FollowingSibling => n < k && is_sibling(rows, n, k),
        Axis::PrecedingSibling => k < n && is_sibling(rows, n, k),
        Axis::Attribute => !is_node(rows, k) && is_some(parent(rows, k), n),
    }
}

fn row(rows: &[Row], n: u32) -> &Row
    requires { n < length rows.now }
    ensures { result.now ≡ row_at rows.now n }
{
    &rows[n as usize]
}

fn is_node(rows: &[Row], k: u32) -> bool
    requires { k < length rows.now }
    ensures { result ≡ is_node rows.now k }
{
    match row(rows, k).kind {
        Kind::Attribute => false,
        _ => true,
    }
}

// Whether row k is in the subtree of row n and is not n.
fn is_below(rows: &[Row], n: u32, k: u32) -> bool
    requires row { n < length rows.now }
    requires few { length rows.now < 2 ^ 32 }
    ensures { result ≡ is_below rows.now n k }
{
    n < k && k < extent(rows, n)
}

fn is_descendant(rows: &[Row], n: u32, k: u32) -> bool
    requires row { n < length rows.now }
    requires other { k < length rows.now }
    requires few { length rows.now < 2 ^ 32 }
    ensures { result ≡ is_descendant rows.now n k }
{
    is_node(rows, k) && is_below(rows, n, k)
}

fn is_child(rows: &[Row], n: u32, k: u32) -> bool
    requires { k < length rows.now }
    ensures { result ≡ is_child rows.now n k }
{
    is_node(rows, k) && is_some(parent(rows, k), n)
}

fn is_sibling(rows: &[Row], n: u32, k: u32) -> bool
    requires row { n < length rows.now }
    requires other { k < length rows.now }
    ensures { result ≡ is_sibling rows.now n k }
{
    if !is_node(rows, n) {
        return false;
    }
    match parent(rows, n) {
        Some(above) => is_child(rows, above, k),
        None => false,
    }
}

fn is_some(found: Option<u32>, n: u32) -> bool
    ensures { result ≡ is_some_of found n }
{
    match found {
        Some(m) => m == n,
        None => false,
    }
}

// The last row before row m that can be its parent.
fn parent(rows: &[Row], m: u32) -> Option<u32>
    requires { m < length rows.now }
    ensures { result ≡ parent_of rows.now m }
{
    let depth = row(rows, m).depth;
    let mut found = None;
    for k in 0..m {
        if is_above(depth, row(rows, k)) {
            found = Some(k);
        }
    }
    found
}

fn is_above(depth: u32, row: &Row) -> bool
    ensures { result ≡ is_above depth row.now }
{
    match row.kind {
        Kind::Root | Kind::Element => row.depth < depth && depth - row.depth == 1,
        _ => false,
    }
}

// The end of the deeper rows after row n.
fn extent(rows: &[Row], n: u32) -> u32
    requires row { n < length rows.now }
    requires few { length rows.now < 2 ^ 32 }
    ensures { result ≡ extent_of rows.now n }
{
    let depth = row(rows, n).depth;
    let end = rows.len() as u32;
    for k in n + 1..end {
        if row(rows, k).depth <= depth {
            return k;
        }
    }
    end
}
