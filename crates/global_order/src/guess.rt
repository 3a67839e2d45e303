//! Guesses at the order and at what is stuck, linear in the names but for the set of the globals that are ready, which
//! costs a logarithm each. They are tested afterwards, so nothing is proved of them here but that they end safely.

use crate::components::Components;
use crate::graph::Node;
use crate::marks::Mark;
use crate::moments::Moment;
use crate::namers::Namers;
use crate::numbers::{at, put, zeros};
use lists::List;
use std::alloc::{AllocError, Global};
use std::collections::BTreeSet;

fn is_global(nodes: &[Node], node: u32) -> bool {
    match nodes.get(node as usize) {
        Some(n) => n.is_global,
        None => false,
    }
}

// The nodes of a component with its number are those at the places from its start up to the start of the next.
fn starts_of(alloc: Global, components: &Components) -> Result<List<u32>, AllocError> {
    let mut starts = List::new(alloc);
    let mut last = 0u32;
    for (place, node) in components.nodes.as_slice().iter().enumerate() {
        let component = at(&components.of, *node);
        if component != last {
            starts.push(u32::try_from(place).unwrap_or(u32::MAX))?;
            last = component;
        }
    }
    starts.push(u32::try_from(components.nodes.len()).unwrap_or(u32::MAX))?;
    Ok(starts)
}

/// For each node 1 where it needs a global that never becomes ready, else 0: its component has a global that the
/// component names, or names a component that is stuck.
pub fn stuck_of(
    alloc: Global,
    nodes: &[Node],
    components: &Components,
) -> Result<List<u32>, AllocError> {
    let mut stuck = zeros(alloc, nodes.len())?;
    for node in components.nodes.as_slice() {
        if leads_to_stuck(nodes, components, &stuck, *node) {
            put(&mut stuck, at(&components.of, *node).saturating_sub(1), 1);
        }
    }
    let mut of_nodes = List::new(alloc);
    for component in components.of.as_slice() {
        of_nodes.push(at(&stuck, component.saturating_sub(1)))?;
    }
    Ok(of_nodes)
}

fn leads_to_stuck(nodes: &[Node], components: &Components, stuck: &List<u32>, node: u32) -> bool {
    let own = at(&components.of, node);
    match nodes.get(node as usize) {
        Some(n) => n.names.as_slice().iter().any(|next| {
            let other = at(&components.of, *next);
            other == own && is_global(nodes, *next)
                || other > 0 && at(stuck, other.saturating_sub(1)) == 1
        }),
        None => false,
    }
}

#[derive(Debug, Drop)]
struct Distances {
    of: List<u32>,
    found: List<u32>,
}

impl Distances {
    fn seed(&mut self, node: u32) -> Result<(), AllocError> {
        self.find(node, 1)
    }

    fn find(&mut self, node: u32, distance: u32) -> Result<(), AllocError> {
        if at(&self.of, node) == 0 {
            put(&mut self.of, node, distance);
            self.found.push(node)?;
        }
        Ok(())
    }

    // The namers of a node in its class are one name further.
    fn spread_from(
        &mut self,
        namers: &Namers,
        classes: &List<u32>,
        node: u32,
    ) -> Result<(), AllocError> {
        let distance = at(&self.of, node).saturating_add(1);
        for place in namers.start(node)..namers.end(node) {
            let namer = namers.node(place);
            if at(classes, namer) == at(classes, node) {
                self.find(namer, distance)?;
            }
        }
        Ok(())
    }

    // Goes back from the seeds through nodes that are no globals.
    fn spread(
        &mut self,
        nodes: &[Node],
        namers: &Namers,
        classes: &List<u32>,
    ) -> Result<(), AllocError> {
        for place in 0..u32::try_from(nodes.len()).unwrap_or(u32::MAX) {
            let Some(node) = self.found.get(place as usize).copied() else {
                return Ok(());
            };
            if !is_global(nodes, node) {
                self.spread_from(namers, classes, node)?;
            }
        }
        Ok(())
    }
}

// The distances of the nodes of each class other than 0 from those that name a last global.
fn distances_of(
    alloc: Global,
    nodes: &[Node],
    namers: &Namers,
    classes: &List<u32>,
    lasts: &List<u32>,
) -> Result<List<u32>, AllocError> {
    let mut distances = Distances {
        of: zeros(alloc, nodes.len())?,
        found: List::new(alloc),
    };
    for (place, node) in nodes.iter().enumerate() {
        let number = u32::try_from(place).unwrap_or(u32::MAX);
        let class = at(classes, number);
        if class > 0 && names_last(node, class, lasts) {
            distances.seed(number)?;
        }
    }
    distances.spread(nodes, namers, classes)?;
    Ok(distances.of)
}

// Whether a node names a global that is a last one of a class.
fn names_last(node: &Node, class: u32, lasts: &List<u32>) -> bool {
    node.names
        .as_slice()
        .iter()
        .any(|name| at(lasts, *name) == class)
}

/// A mark for each node: ready by the number of its component, or stuck by its distance.
pub fn marks_of(
    alloc: Global,
    nodes: &[Node],
    components: &Components,
    namers: &Namers,
    stuck: &List<u32>,
) -> Result<List<Mark>, AllocError> {
    let mut lasts = List::new(alloc);
    for (place, node) in nodes.iter().enumerate() {
        let number = u32::try_from(place).unwrap_or(u32::MAX);
        lasts.push(if node.is_global { at(stuck, number) } else { 0 })?;
    }
    let distances = distances_of(alloc, nodes, namers, stuck, &lasts)?;
    let mut marks = List::new(alloc);
    for place in 0..u32::try_from(nodes.len()).unwrap_or(u32::MAX) {
        marks.push(if at(stuck, place) == 1 {
            Mark::Stuck(at(&distances, place))
        } else {
            Mark::Ready(at(&components.of, place))
        })?;
    }
    Ok(marks)
}

// The globals are done one by one: each component waits for the names that lead out of it.
#[derive(Debug, Drop)]
struct Schedule {
    waits_for: List<u32>,
    times: List<u32>,
    places: List<u32>,
    ready: BTreeSet<u32>,
    done: List<u32>,
    order: List<u32>,
}

impl Schedule {
    fn done_count(&self) -> u32 {
        u32::try_from(self.order.len()).unwrap_or(u32::MAX)
    }

    // All that the nodes of a component need are done.
    fn set_ready(
        &mut self,
        nodes: &[Node],
        components: &Components,
        starts: &List<u32>,
        component: u32,
    ) -> Result<(), AllocError> {
        let time = self.done_count();
        for place in at(starts, component.saturating_sub(1))..at(starts, component) {
            let node = at(&components.nodes, place);
            put(&mut self.times, node, time);
            if is_global(nodes, node) {
                self.ready.insert(node)?;
            } else {
                self.done.push(node)?;
            }
        }
        Ok(())
    }

    // A node is done: the components that name it have one name less to wait for.
    fn tell(
        &mut self,
        nodes: &[Node],
        components: &Components,
        starts: &List<u32>,
        namers: &Namers,
        node: u32,
    ) -> Result<(), AllocError> {
        for place in namers.start(node)..namers.end(node) {
            let component = at(&components.of, namers.node(place));
            if component != at(&components.of, node) {
                let left = at(&self.waits_for, component).saturating_sub(1);
                put(&mut self.waits_for, component, left);
                if left == 0 {
                    self.set_ready(nodes, components, starts, component)?;
                }
            }
        }
        Ok(())
    }

    // Tells of the nodes that are done, and then takes the first global that is ready; false where none is.
    fn step(
        &mut self,
        nodes: &[Node],
        components: &Components,
        starts: &List<u32>,
        namers: &Namers,
    ) -> Result<bool, AllocError> {
        if let Some(node) = self.done.pop() {
            self.tell(nodes, components, starts, namers, node)?;
            return Ok(true);
        }
        let Some(global) = self.ready.pop_first() else {
            return Ok(false);
        };
        let place = self.done_count();
        put(&mut self.places, global, place);
        self.order.push(global)?;
        self.done.push(global)?;
        Ok(true)
    }
}

// For each component the number of names that lead out of it, at its own number.
fn outward_names(
    alloc: Global,
    nodes: &[Node],
    components: &Components,
) -> Result<List<u32>, AllocError> {
    let mut counts = zeros(alloc, nodes.len().saturating_add(1))?;
    for node in components.nodes.as_slice() {
        let own = at(&components.of, *node);
        if let Some(n) = nodes.get(*node as usize) {
            for next in n.names.as_slice() {
                let other = at(&components.of, *next);
                if other > 0 && other != own {
                    let more = at(&counts, own).saturating_add(1);
                    put(&mut counts, own, more);
                }
            }
        }
    }
    Ok(counts)
}

/// The globals in an order, and for each node when what it needs is done.
#[derive(Debug, Drop)]
pub struct Guess {
    pub order: List<u32>,
    pub moments: List<Moment>,
}

fn scheduled(
    alloc: Global,
    nodes: &[Node],
    components: &Components,
    namers: &Namers,
) -> Result<Schedule, AllocError> {
    let starts = starts_of(alloc, components)?;
    let mut schedule = Schedule {
        waits_for: outward_names(alloc, nodes, components)?,
        times: zeros(alloc, nodes.len())?,
        places: zeros(alloc, nodes.len())?,
        ready: BTreeSet::new(alloc),
        done: List::new(alloc),
        order: List::new(alloc),
    };
    for component in 1..u32::try_from(starts.len()).unwrap_or(u32::MAX) {
        if at(&schedule.waits_for, component) == 0 {
            schedule.set_ready(nodes, components, &starts, component)?;
        }
    }
    for _ in 0..u64::MAX {
        if !schedule.step(nodes, components, &starts, namers)? {
            return Ok(schedule);
        }
    }
    Ok(schedule)
}

/// The order in which the first global that is ready comes next.
pub fn order_guess(
    alloc: Global,
    nodes: &[Node],
    components: &Components,
    namers: &Namers,
) -> Result<Guess, AllocError> {
    let schedule = scheduled(alloc, nodes, components, namers)?;
    let mut lasts = List::new(alloc);
    for (place, node) in nodes.iter().enumerate() {
        let number = u32::try_from(place).unwrap_or(u32::MAX);
        lasts.push(if node.is_global {
            at(&schedule.places, number).saturating_add(1)
        } else {
            0
        })?;
    }
    let distances = distances_of(alloc, nodes, namers, &schedule.times, &lasts)?;
    let mut moments = List::new(alloc);
    for place in 0..u32::try_from(nodes.len()).unwrap_or(u32::MAX) {
        moments.push(Moment {
            place: at(&schedule.places, place),
            time: at(&schedule.times, place),
            names: at(&distances, place),
        })?;
    }
    Ok(Guess {
        order: schedule.order,
        moments,
    })
}
