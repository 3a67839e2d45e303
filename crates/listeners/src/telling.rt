ghost use Rattle.std.specs.Prelude.{◌≡◌, ◌≤◌, IfOk, IfErr, OnErr, IsOk, length, map};
ghost use Rattle.edge.specs.Outside.{AddsAtOk};
ghost use Rattle.edge.specs.Hearing.{HearsAsTold};
ghost use Rattle.edge.specs.Causes.{HasCause};
ghost use Rattle.listeners.specs.Telling.{Told, Hears, HeardAll, FailedAfter, Tells};

use crate::message::{Dropped, Message};
use edge::{Failed, Listener};
use lists::List;
use std::alloc::{AllocError, Global};
use std::mem;

/// Tells each listener in order the messages in order. One that fails is dropped and hears no more; the others stand in
/// their old order, and have heard all messages. Gives those that were dropped, in order. Takes its memory before the
/// first of them hears; on that refusal nobody heard anything. Costs a call for each listener and message.
pub fn tell_all(
    alloc: Global,
    listeners: &mut Vec<Box<dyn Listener>>,
    messages: &[Message],
) -> Result<List<Dropped>, AllocError>
    requires { length listeners.old.items ≤ 64 }
    ensures told { IfOk result (λ dropped. Tells messages.now 0
        (map (λ listener. record { heard = heard listener; hearing = hearing listener; faults = faults listener }) listeners.old.items)
        (map (λ listener. record { heard = heard listener; hearing = hearing listener; faults = faults listener }) listeners.new.items)
        dropped) }
    ensures err { OnErr result (listeners.new ≡ listeners.old) }
{
    let mut dropped = Vec::with_capacity(alloc, listeners.len())?;
    let left = Vec::with_capacity(alloc, listeners.len())?;
    let mut index = 0;
    for listener in mem::replace(listeners, left) {
        match tell(listener, messages) {
            Ok(listener) => listeners.push_reserved(listener),
            Err(heard) => dropped.push_reserved(Dropped { index, heard }),
        }
        index += 1;
    }
    Ok(List::from_vec(dropped))
}

// Tells one listener the messages: gives it back, or drops it and gives how many it had heard.
fn tell(listener: Box<dyn Listener>, messages: &[Message]) -> Result<Box<dyn Listener>, u64>
    ensures all { IfOk result (λ after. HeardAll messages.now
        (record { heard = heard listener; hearing = hearing listener; faults = faults listener })
        (record { heard = heard after; hearing = hearing after; faults = faults after })) }
    ensures failed { IfErr result (λ count. (after : Told) × FailedAfter messages.now count
        (record { heard = heard listener; hearing = hearing listener; faults = faults listener }) after) }
{
    let mut told = listener;
    let mut count = 0;
    for message in messages {
        match hear(&mut told, message) {
            Ok(()) => count += 1,
            Err(Failed) => return Err(count),
        }
    }
    Ok(told)
}

fn hear(listener: &mut Box<dyn Listener>, message: &Message) -> Result<(), Failed>
    ensures { Hears message.now
        (record { heard = heard listener.old; hearing = hearing listener.old; faults = faults listener.old })
        (record { heard = heard listener.new; hearing = hearing listener.new; faults = faults listener.new }) result }
{
    listener.hear(message.sheet, message.line.as_slice())
}
