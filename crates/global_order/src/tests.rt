//! Small graphs with their orders.

use crate::graph::Node;
use crate::order::order_of;
use lists::List;
use std::alloc::{AllocError, Global};
use std::test::Fail;

// A node: `g` for a global or `t` for a template, and a digit for each node that it names.
fn node(alloc: Global, word: &str) -> Result<Node, AllocError> {
    let mut names = List::new(alloc);
    for byte in word.bytes() {
        if byte.is_ascii_digit() {
            names.push(u32::from(byte.saturating_sub(b'0')))?;
        }
    }
    Ok(Node {
        is_global: word.starts_with('g'),
        names,
    })
}

fn shown(alloc: Global, graph: &str) -> Result<String, AllocError> {
    let mut nodes = List::new(alloc);
    for word in graph.split_whitespace() {
        nodes.push(node(alloc, word)?)?;
    }
    match order_of(alloc, nodes.as_slice()) {
        Ok(order) => format!(in alloc; "{:?}", order.as_slice()),
        Err(stop) => format!(in alloc; "{stop:?}"),
    }
}

#[test]
fn globals_stand_behind_what_they_need(rt: HostRuntime) -> Result<(), Fail> {
    let alloc = rt.alloc();
    for (graph, want) in [
        ("", "[]"),
        ("g g g", "[0, 1, 2]"),
        ("g2 g g", "[1, 2, 0]"),
        ("g1 g2 g", "[2, 1, 0]"),
        ("g1 g0", "Circle(0)"),
        ("g g2 g2", "Circle(1)"),
        ("g1 t0", "Circle(0)"),
        ("g1 t2 t13 g", "[3, 0]"),
        ("g2 g t31 t2", "[1, 0]"),
        ("g1 t29 g", "[2, 0]"),
        ("g4 g3 g g2 t2", "[2, 0, 3, 1]"),
    ] {
        assert_eq!(rt; shown(alloc, graph)?.as_str(), want, "{graph}");
    }
    Ok(())
}
