//! The strong components of the graph (Tarjan), in one walk over all names, without recursion. What is found here is
//! only a guess, which is tested afterwards.

use crate::graph::Node;
use crate::numbers::{at, put, zeros};
use lists::List;
use std::alloc::{AllocError, Global};

/// Each node's component, numbered from 1: a component has a number above those of the components that it names. And
/// the nodes, component by component.
#[derive(Debug, Drop)]
pub struct Components {
    pub of: List<u32>,
    pub nodes: List<u32>,
}

#[derive(Debug, Drop)]
struct Walk {
    order: List<u32>,
    low: List<u32>,
    component: List<u32>,
    open: List<u32>,
    frames: List<(u32, u32)>,
    closed: List<u32>,
    seen: u32,
    components: u32,
}

fn named(nodes: &[Node], node: u32, k: u32) -> Option<u32> {
    match nodes.get(node as usize) {
        Some(n) => n.names.get(k as usize).copied(),
        None => None,
    }
}

impl Walk {
    fn enter(&mut self, node: u32) -> Result<(), AllocError> {
        self.seen = self.seen.saturating_add(1);
        put(&mut self.order, node, self.seen);
        put(&mut self.low, node, self.seen);
        self.open.push(node)?;
        self.frames.push((node, 0))
    }

    fn lower(&mut self, node: u32, low: u32) {
        if low < at(&self.low, node) {
            put(&mut self.low, node, low);
        }
    }

    fn close(&mut self, node: u32) -> Result<(), AllocError> {
        self.components = self.components.saturating_add(1);
        for _ in 0..self.open.len() {
            let Some(member) = self.open.pop() else {
                return Ok(());
            };
            put(&mut self.component, member, self.components);
            self.closed.push(member)?;
            if member == node {
                return Ok(());
            }
        }
        Ok(())
    }

    // One step; false at the end of the walk.
    fn step(&mut self, nodes: &[Node]) -> Result<bool, AllocError> {
        let Some((node, k)) = self.frames.pop() else {
            return Ok(false);
        };
        match named(nodes, node, k) {
            Some(next) => {
                self.frames.push((node, k.saturating_add(1)))?;
                self.look_at(nodes, node, next)?;
            }
            None => self.leave(node)?,
        }
        Ok(true)
    }

    fn look_at(&mut self, nodes: &[Node], node: u32, next: u32) -> Result<(), AllocError> {
        if next as usize >= nodes.len() {
            return Ok(());
        }
        if at(&self.order, next) == 0 {
            return self.enter(next);
        }
        if at(&self.component, next) == 0 {
            let order = at(&self.order, next);
            self.lower(node, order);
        }
        Ok(())
    }

    fn leave(&mut self, node: u32) -> Result<(), AllocError> {
        let low = at(&self.low, node);
        if low == at(&self.order, node) {
            self.close(node)?;
        }
        if let Some((above, k)) = self.frames.pop() {
            self.lower(above, low);
            self.frames.push((above, k))?;
        }
        Ok(())
    }

    fn walk_from(&mut self, nodes: &[Node], node: u32) -> Result<(), AllocError> {
        self.enter(node)?;
        for _ in 0..u64::MAX {
            if !self.step(nodes)? {
                return Ok(());
            }
        }
        Ok(())
    }
}

pub fn components_of(alloc: Global, nodes: &[Node]) -> Result<Components, AllocError> {
    let mut walk = Walk {
        order: zeros(alloc, nodes.len())?,
        low: zeros(alloc, nodes.len())?,
        component: zeros(alloc, nodes.len())?,
        open: List::new(alloc),
        frames: List::new(alloc),
        closed: List::new(alloc),
        seen: 0,
        components: 0,
    };
    for node in 0..u32::try_from(nodes.len()).unwrap_or(u32::MAX) {
        if at(&walk.order, node) == 0 {
            walk.walk_from(nodes, node)?;
        }
    }
    Ok(Components {
        of: walk.component,
        nodes: walk.closed,
    })
}
