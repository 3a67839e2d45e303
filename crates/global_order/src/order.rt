//! The order of the globals, or the first that never becomes ready.

ghost use Rattle.std.specs.Prelude.{◌≡◌, ℕ, IfOk};
ghost use Rattle.std.specs.Bool.{OnTrue};
ghost use Rattle.global_order.specs.Order.{Answers, IsOrder, Refuses};
ghost use Rattle.global_order.specs.declared.order.OrderStop.TheVariants as stop;

use crate::components::{Components, components_of};
use crate::graph::Node;
use crate::guess::{Guess, marks_of, order_guess, stuck_of};
use crate::marks::{Mark, are_proof, first_stuck};
use crate::moments::{all_stand, are_times};
use crate::namers::{Namers, namers_of};
use lists::List;
use std::alloc::{AllocError, Global};
use thiserror::Error;

/// Why there is no order.
#[derive(Clone, Copy, Debug, PartialEq, Eq, Error)]
pub enum OrderStop {
    /// This is the first global, by its number, that never becomes ready: it needs itself, or one that does.
    #[error("global {0} depends on itself")]
    Circle(u32),
    #[error("out of memory")]
    Memory,
}

impl From<AllocError> for OrderStop {
    ghost from_gives = { λ _ e. e ≡ stop.Memory };

    fn from(_error: AllocError) -> OrderStop {
        OrderStop::Memory
    }
}

/// The globals among these nodes, in the order in which they are evaluated (XSLT 1.0, section 11.4): again and again
/// the first, by its number, that isn't done and whose needs are. A global needs those that it names, and those that
/// the templates and modes need that it names. `Circle` comes exactly where some global never becomes ready. Costs in
/// the order of all names, with a logarithm for each global, and takes no stack. What is found is tested before it is
/// given, and a wrong guess would be told as want of memory.
pub fn order_of(alloc: Global, nodes: &[Node]) -> Result<List<u32>, OrderStop>
    ensures { Answers nodes.now result }
{
    let components = components_of(alloc, nodes)?;
    let namers = namers_of(alloc, nodes)?;
    let stuck = stuck_of(alloc, nodes, &components)?;
    if stuck.as_slice().iter().any(|mark| *mark == 1) {
        let marks = marks_of(alloc, nodes, &components, &namers, &stuck)?;
        return Err(circle(nodes, marks.as_slice()));
    }
    let guess = order_guess(alloc, nodes, &components, &namers)?;
    if shows(alloc, nodes, &guess)? {
        Ok(guess.order)
    } else {
        Err(OrderStop::Memory)
    }
}

// The first circular global that the marks show.
fn circle(nodes: &[Node], marks: &[Mark]) -> OrderStop
    ensures { Refuses nodes.now result }
{
    if nodes.len() != marks.len() || nodes.len() > u32::MAX as usize || !are_proof(nodes, marks) {
        return OrderStop::Memory;
    }
    match first_stuck(nodes, marks) {
        Some(global) => OrderStop::Circle(global),
        None => OrderStop::Memory,
    }
}

// Whether the guess shows that its order is the one.
fn shows(alloc: Global, nodes: &[Node], guess: &Guess) -> Result<bool, AllocError>
    ensures { IfOk result (λ shown. OnTrue shown (IsOrder nodes.now guess.now.order)) }
{
    let moments = guess.moments.as_slice();
    let order = guess.order.as_slice();
    if !are_times(nodes, moments, order) {
        return Ok(false);
    }
    all_stand(alloc, nodes, moments, order)
}
