//! When the globals that a node needs are done, as numbers that show themselves.

ghost use Rattle.std.specs.Prelude.{◌≡◌, ◌<◌, ◌≤◌, ℕ, Some, IfOk, length, slice_get, option_copied};
ghost use Rattle.std.specs.Bool.{OnTrue};
ghost use Rattle.std.specs.List.{list_all, list_any};
ghost use Rattle.global_order.specs.Times as spec;
ghost use Rattle.global_order.specs.Times.{AreLess, AreTimes, StandsAt};

use crate::graph::Node;
use std::alloc::{AllocError, Global};

/// What is claimed of a node.
#[derive(Clone, Copy, Debug, PartialEq, Eq)]
pub struct Moment {
    /// The place of a global in the order.
    pub place: u32,
    /// How many globals of the order are done once all that the node needs are.
    pub time: u32,
    /// How many names lead from the node to the last global that it needs.
    pub names: u32,
}

fn done_by(global: bool, moment: Moment) -> u64
    ensures { result ≡ spec.done_by global moment }
{
    if global {
        moment.place as u64 + 1
    } else {
        moment.time as u64
    }
}

#[tactic(auto, unfolding(crate::specs::Times::is_in_time))]
fn is_in_time(nodes: &[Node], moments: &[Moment], time: u32, at: u32) -> bool
    ensures { result ≡ spec.is_in_time nodes.now moments.now time at }
{
    match (nodes.get(at as usize), moments.get(at as usize)) {
        (Some(node), Some(moment)) => done_by(node.is_global, *moment) <= time as u64,
        _ => true,
    }
}

#[tactic(auto, unfolding(crate::specs::Times::is_last))]
fn is_last(nodes: &[Node], moments: &[Moment], time: u32, names: u32, at: u32) -> bool
    ensures { result ≡ spec.is_last nodes.now moments.now time names at }
{
    match (nodes.get(at as usize), moments.get(at as usize)) {
        (Some(node), Some(moment)) => {
            done_by(node.is_global, *moment) == time as u64
                && (node.is_global || moment.names < names)
        }
        _ => false,
    }
}

fn all_in_time(nodes: &[Node], moments: &[Moment], time: u32, names: &[u32]) -> bool
    ensures { result ≡ list_all (spec.is_in_time nodes.now moments.now time) names.now }
{
    names.iter().all(|at| is_in_time(nodes, moments, time, *at))
}

fn any_last(nodes: &[Node], moments: &[Moment], moment: Moment, names: &[u32]) -> bool
    ensures { result ≡ list_any (spec.is_last nodes.now moments.now moment.time moment.names) names.now }
{
    names.iter().any(|at| is_last(nodes, moments, moment.time, moment.names, *at))
}

#[tactic(auto, unfolding(crate::specs::Times::is_timed))]
fn is_timed(nodes: &[Node], moments: &[Moment], node: &Node, moment: Moment) -> bool
    ensures { result ≡ spec.is_timed nodes.now moments.now node.now moment }
{
    all_in_time(nodes, moments, moment.time, node.names.as_slice())
        && (moment.time == 0 || any_last(nodes, moments, moment, node.names.as_slice()))
}

fn is_at(order: &[u32], place: u32, number: usize) -> bool
    ensures { result ≡ spec.is_at (slice_get order.now place) number }
{
    match order.get(place as usize) {
        Some(global) => *global as usize == number,
        None => false,
    }
}

#[tactic(auto, unfolding(crate::specs::Times::is_placed))]
fn is_placed(order: &[u32], number: usize, node: &Node, moment: Moment) -> bool
    ensures { result ≡ spec.is_placed order.now number node.now moment }
{
    !node.is_global || is_at(order, moment.place, number)
}

/// Whether the moments show themselves, and each global stands at its place. Costs in the order of all names.
pub fn are_times(nodes: &[Node], moments: &[Moment], order: &[u32]) -> bool
    ensures { OnTrue result (AreTimes nodes.now moments.now order.now) }
{
    if moments.len() != nodes.len() {
        return false;
    }
    for (at, moment) in moments.iter().enumerate() {
        let Some(node) = nodes.get(at) else {
            return false;
        };
        if !is_timed(nodes, moments, node, *moment) || !is_placed(order, at, node, *moment) {
            return false;
        }
    }
    true
}

// From which place on all globals are less than the one at this place. Looks at each stretch once.
fn stretch(order: &[u32], starts: &[usize], at: usize, global: u32) -> usize
    requires there { slice_get order.now at ≡ Some global }
    requires known { at ≡ length starts.now }
    requires less { (k s : ℕ) → slice_get starts.now k ≡ Some s → AreLess order.now s k }
    ensures { AreLess order.now result at }
{
    let mut from = at;
    while from > 0 {
        if order[from - 1] >= global {
            return from;
        }
        from = starts[from - 1];
    }
    from
}

// Whether the global stands at this place, and is ready where the stretch begins or later.
fn stands(nodes: &[Node], moments: &[Moment], global: u32, at: usize, from: usize) -> bool
    ensures { OnTrue result (spec.Stands nodes.now moments.now global at from) }
{
    match (nodes.get(global as usize), moments.get(global as usize)) {
        (Some(node), Some(moment)) => {
            node.is_global
                && moment.place as usize == at
                && moment.time as usize <= at
                && from <= moment.time as usize
        }
        _ => false,
    }
}

/// Whether each place of the order has a global that stands there, is ready there, and since it is only lesser ones
/// came. Linear in the order.
pub fn all_stand(
    alloc: Global,
    nodes: &[Node],
    moments: &[Moment],
    order: &[u32],
) -> Result<bool, AllocError>
    ensures { IfOk result (λ all. OnTrue all ((k : ℕ) → k < length order.now → StandsAt nodes.now moments.now order.now k)) }
{
    let mut starts = Vec::with_capacity(alloc, order.len())?;
    for (at, global) in order.iter().enumerate() {
        let from = stretch(order, &starts, at, *global);
        if !stands(nodes, moments, *global, at, from) {
            return Ok(false);
        }
        starts.push(from)?;
    }
    Ok(true)
}
