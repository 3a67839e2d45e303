//! What becomes ready and what is stuck, as marks that show themselves.

ghost use Rattle.std.specs.Prelude.{◌≡◌, ◌<◌, ◌^◌, ℕ, length, MatchOption};
ghost use Rattle.std.specs.Bool.{OnTrue};
ghost use Rattle.std.specs.List.{list_all, list_any};
ghost use Rattle.global_order.specs.Marks as spec;
ghost use Rattle.global_order.specs.Marks.{AreProof};
ghost use Rattle.global_order.specs.Needs.{IsCircle, IsGlobal, Ready};

use crate::graph::Node;

/// What is claimed of a node, with a number that shows it.
#[derive(Clone, Copy, Debug, PartialEq, Eq)]
pub enum Mark {
    /// All globals that it needs become ready. What it names is ready too and has no higher rank, and a global a lower
    /// one.
    Ready(u32),
    /// It needs a global that never becomes ready: it names one, or a node that is nearer to one.
    Stuck(u32),
}

#[tactic(auto, unfolding(crate::specs::Marks::is_global))]
fn is_global(nodes: &[Node], at: u32) -> bool
    ensures { result ≡ spec.is_global nodes.now at }
{
    match nodes.get(at as usize) {
        Some(node) => node.is_global,
        None => false,
    }
}

fn mark_below(global: bool, rank: u32, mark: Option<Mark>) -> bool
    ensures { result ≡ spec.mark_below global rank mark }
{
    match mark {
        Some(Mark::Ready(r)) => { if global { r < rank } else { r <= rank } }
        Some(Mark::Stuck(_)) => false,
        None => false,
    }
}

fn mark_nearer(global: bool, distance: u32, mark: Option<Mark>) -> bool
    ensures { result ≡ spec.mark_nearer global distance mark }
{
    match mark {
        Some(Mark::Ready(_)) => false,
        Some(Mark::Stuck(d)) => global || d < distance,
        None => false,
    }
}

#[tactic(auto, unfolding(crate::specs::Marks::is_below))]
fn is_below(nodes: &[Node], marks: &[Mark], rank: u32, at: u32) -> bool
    ensures { result ≡ spec.is_below nodes.now marks.now rank at }
{
    match nodes.get(at as usize) {
        Some(node) => mark_below(node.is_global, rank, marks.get(at as usize).copied()),
        None => true,
    }
}

#[tactic(auto, unfolding(crate::specs::Marks::is_nearer))]
fn is_nearer(nodes: &[Node], marks: &[Mark], distance: u32, at: u32) -> bool
    ensures { result ≡ spec.is_nearer nodes.now marks.now distance at }
{
    mark_nearer(
        is_global(nodes, at),
        distance,
        marks.get(at as usize).copied(),
    )
}

fn all_below(nodes: &[Node], marks: &[Mark], rank: u32, names: &[u32]) -> bool
    ensures { result ≡ list_all (spec.is_below nodes.now marks.now rank) names.now }
{
    names.iter().all(|at| is_below(nodes, marks, rank, *at))
}

fn any_nearer(nodes: &[Node], marks: &[Mark], distance: u32, names: &[u32]) -> bool
    ensures { result ≡ list_any (spec.is_nearer nodes.now marks.now distance) names.now }
{
    names
        .iter()
        .any(|at| is_nearer(nodes, marks, distance, *at))
}

#[tactic(auto, unfolding(crate::specs::Marks::node_shown))]
fn node_shown(nodes: &[Node], marks: &[Mark], node: &Node, mark: Mark) -> bool
    ensures { result ≡ spec.node_shown nodes.now marks.now node.now mark }
{
    match mark {
        Mark::Ready(rank) => all_below(nodes, marks, rank, node.names.as_slice()),
        Mark::Stuck(distance) => any_nearer(nodes, marks, distance, node.names.as_slice()),
    }
}

/// Whether every mark is shown by those of the nodes that its node names. Costs in the order of all names.
pub fn are_proof(nodes: &[Node], marks: &[Mark]) -> bool
    ensures { OnTrue result (AreProof nodes.now marks.now) }
{
    for (at, mark) in marks.iter().enumerate() {
        let Some(node) = nodes.get(at) else {
            return false;
        };
        if !node_shown(nodes, marks, node, *mark) {
            return false;
        }
    }
    true
}

/// The first global that never becomes ready, by marks that are proof and of which each node has one.
pub fn first_stuck(nodes: &[Node], marks: &[Mark]) -> Option<u32>
    requires proof { AreProof nodes.now marks.now }
    requires all { length nodes.now ≡ length marks.now }
    requires few { length nodes.now < 2 ^ 32 }
    ensures { MatchOption result ((g : ℕ) → IsGlobal nodes.now g → Ready nodes.now g) (IsCircle nodes.now) }
{
    let few = marks.len() as u32;
    for at in 0..few {
        if is_stuck_global(nodes, marks, at) {
            return Some(at);
        }
    }
    None
}

fn is_stuck(mark: Option<Mark>) -> bool
    ensures { result ≡ spec.is_stuck mark }
{
    match mark {
        Some(Mark::Ready(_)) => false,
        Some(Mark::Stuck(_)) => true,
        None => false,
    }
}

#[tactic(auto, unfolding(crate::specs::Marks::is_stuck_global))]
fn is_stuck_global(nodes: &[Node], marks: &[Mark], at: u32) -> bool
    ensures { result ≡ spec.is_stuck_global nodes.now marks.now at }
{
    is_global(nodes, at) && is_stuck(marks.get(at as usize).copied())
}
