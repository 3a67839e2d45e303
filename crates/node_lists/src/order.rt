ghost use Rattle.std.specs.Prelude.{◌≡◌, ◌↔◌, ◌++◌, IsTrue, IfOk};
ghost use Rattle.std.specs.List.Sorted.{IsSorted};
ghost use Rattle.std.specs.Ordering.{nat_cmp};
ghost use Rattle.doc_laws.specs.Ordered.{AscendsFrom};
ghost use Rattle.doc_model.specs.Relations.{is_some_of};
ghost use Rattle.node_lists.specs.InOrder.{IsInOrder};

use lists::List;
use std::alloc::{AllocError, Global};

/// The nodes in document order, each once. One pass where they are so already; else they are sorted, which
/// costs n log r for n nodes that ascend in r runs. Fails only for want of memory.
pub fn in_order(alloc: Global, nodes: List<u32>) -> Result<List<u32>, AllocError>
    ensures { IfOk result (λ ordered. IsInOrder nodes ordered) }
{
    if ascends(nodes.as_slice()) {
        return Ok(nodes);
    }
    let mut sorted = nodes.into_vec();
    sorted.sort()?;
    without_repeats(alloc, sorted.as_slice())
}

/// The nodes of two lists in document order, each once. Linear where both are in order. Fails only for want
/// of memory.
pub fn union(alloc: Global, left: List<u32>, right: &[u32]) -> Result<List<u32>, AllocError>
    ensures { IfOk result (λ ordered. IsInOrder (left ++ right.now) ordered) }
{
    let mut nodes = left;
    nodes.extend_from_slice(right)?;
    in_order(alloc, nodes)
}

/// Whether the nodes are in document order, each once. One pass, up to the first that is not behind the one
/// before it.
pub fn ascends(nodes: &[u32]) -> bool
    ensures { IsTrue result ↔ AscendsFrom 0 nodes.now }
{
    let mut least: u64 = 0;
    for node in nodes {
        let n = *node as u64;
        if n < least {
            return false;
        }
        least = n + 1;
    }
    true
}

// Sorted nodes, each once.
fn without_repeats(alloc: Global, nodes: &[u32]) -> Result<List<u32>, AllocError>
    requires { IsSorted nat_cmp nodes.now }
    ensures { IfOk result (λ ordered. IsInOrder nodes.now ordered) }
{
    let mut ordered = List::new(alloc);
    let mut last = None;
    for node in nodes {
        if !is_repeat(last, *node) {
            ordered.push(*node)?;
            last = Some(*node);
        }
    }
    Ok(ordered)
}

fn is_repeat(last: Option<u32>, node: u32) -> bool
    ensures { result ≡ is_some_of last node }
{
    match last {
        Some(n) => n == node,
        None => false,
    }
}
