//! The graph the other way round: which nodes name a node.

use crate::graph::Node;
use crate::numbers::{at, count, put, zeros};
use lists::List;
use std::alloc::{AllocError, Global};

/// The nodes that name a node, a name a time, are those from its start up to the start of the next node.
#[derive(Debug, Drop)]
pub struct Namers {
    starts: List<u32>,
    nodes: List<u32>,
}

impl Namers {
    pub fn start(&self, node: u32) -> u32 {
        at(&self.starts, node)
    }

    pub fn end(&self, node: u32) -> u32 {
        at(&self.starts, node.saturating_add(1))
    }

    pub fn node(&self, place: u32) -> u32 {
        at(&self.nodes, place)
    }
}

// Where the namers of each node start, and where those of the last end.
fn starts_of(alloc: Global, nodes: &[Node]) -> Result<List<u32>, AllocError> {
    let mut counts = zeros(alloc, nodes.len())?;
    for node in nodes {
        for name in node.names.as_slice() {
            count(&mut counts, *name);
        }
    }
    let mut starts = List::new(alloc);
    let mut start = 0u32;
    for names in counts.as_slice() {
        starts.push(start)?;
        start = start.saturating_add(*names);
    }
    starts.push(start)?;
    Ok(starts)
}

pub fn namers_of(alloc: Global, nodes: &[Node]) -> Result<Namers, AllocError> {
    let starts = starts_of(alloc, nodes)?;
    let all = at(&starts, u32::try_from(nodes.len()).unwrap_or(u32::MAX));
    let mut namers = zeros(alloc, all as usize)?;
    let mut next = List::from_slice(alloc, starts.as_slice())?;
    for (node, n) in nodes.iter().enumerate() {
        let number = u32::try_from(node).unwrap_or(u32::MAX);
        for name in n.names.as_slice() {
            if (*name as usize) < nodes.len() {
                let place = at(&next, *name);
                put(&mut namers, place, number);
                count(&mut next, *name);
            }
        }
    }
    Ok(Namers {
        starts,
        nodes: namers,
    })
}
