ghost use Rattle.std.specs.Prelude.{◌≡◌, ◌+◌, ◌-◌, ◌*◌, ◌≤◌, ◌<◌, ◌↔◌, ◌⊎◌, ◌++◌, [], ◌∷◌, Some, IfOk, OnOk, OnErr, IsErr, IsTrue, All, length, map, slice_get, vec_len, vec_capacity};
ghost use Rattle.edge.specs.Causes.{HasCause};
ghost use Rattle.edge.specs.Outside.{AddsAtOk};
ghost use Rattle.edge.specs.Memory.{FailsNext, fresh, counted, faulted, put_size};
ghost use Rattle.edge.specs.Places.{puts_at, IsPlaceIn};

use crate::call_counter::CallCounter;
use crate::place::Place;
use crate::{Drawer, Failed, Memory};
use std::alloc::Global;
use std::marker::Model;

/// What a put counts against a drawer's room beside its name and its bytes.
const PUT: usize = 16;

/// A drawer that keeps what is put, up to its room, against which each put counts 16 bytes beside those of its name
/// and its bytes. A put that fails puts nothing.
#[derive(Drop)]
pub struct MemoryDrawer {
    kept: Vec<u8>,
    places: Vec<Place>,
    room: usize,
    calls: CallCounter,
}

impl Model for MemoryDrawer {
    ghost use Rattle.std.specs.Prelude.{◌+◌, ◌*◌, ◌≤◌, length, vec_capacity, All};
    ghost use Rattle.edge.specs.Memory.{DrawerState};
    ghost use Rattle.edge.specs.Places.{puts_at, IsPlaceIn};

    ghost Value = { DrawerState };

    ghost view = { λ d. record { puts = puts_at d.kept.items d.places.items; room = d.room; calls = d.calls } };

    ghost invariant = { λ d.
        (d.room + length d.kept.items ≤ vec_capacity d.kept)
        × (d.room + 16 * length d.places.items ≤ 16 * vec_capacity d.places + 15)
        × All (IsPlaceIn (length d.kept.items)) d.places.items };
}

impl MemoryDrawer {
    /// An empty drawer with this room, which is reserved here. The calls whose numbers, counted from 1, are in
    /// `failing` fail, and so does one that doesn't fit.
    pub fn make(alloc: Global, failing: &[u64], room: usize) -> Result<MemoryDrawer, Memory>
        ensures { IfOk result (λ drawer. drawer ≡ record { puts = []; room = room; calls = fresh failing.now }) }
    {
        let kept = Vec::with_capacity(alloc, room).map_err(|_| Memory)?;
        let places = Vec::with_capacity(alloc, room / PUT).map_err(|_| Memory)?;
        let calls = CallCounter::new(alloc, failing)?;
        Ok(MemoryDrawer {
            kept,
            places,
            room,
            calls,
        })
    }

    /// How many puts there were.
    pub fn len(&self) -> usize
        ensures { result ≡ length self.now.puts }
    {
        self.places.len()
    }

    /// Whether nothing was put.
    pub fn is_empty(&self) -> bool
        ensures { IsTrue result ↔ (self.now.puts ≡ []) }
    {
        self.places.is_empty()
    }

    /// The name of a put, counted from 0.
    pub fn name(&self, index: usize) -> &[u8]
        requires { index < length self.now.puts }
        ensures { slice_get (map (λ put. put.0) self.now.puts) index ≡ Some result.now }
    {
        let place = self.places[index];
        &self.kept[place.start..place.middle]
    }

    /// The bytes of a put, counted from 0.
    pub fn bytes(&self, index: usize) -> &[u8]
        requires { index < length self.now.puts }
        ensures { slice_get (map (λ put. put.1) self.now.puts) index ≡ Some result.now }
    {
        let place = self.places[index];
        &self.kept[place.middle..place.end]
    }
}

impl Drawer for MemoryDrawer {
    ghost puts = { λ d. Some d.puts };

    ghost faults = { λ d. d.calls.faults };

    fn put(&mut self, name: &str, bytes: &[u8]) -> Result<(), Failed>
        ensures puts { AddsAtOk (Some self.old.puts) (Some self.new.puts) result (name.now, bytes.now) }
        ensures cause { HasCause self.old.calls.faults self.new.calls.faults result }

        // What it does by its numbers and its room.
        ensures fails { IsErr result ↔ (FailsNext self.old.calls ⊎ (self.old.room < put_size name.now bytes.now)) }
        ensures ok { OnOk result (self.new ≡ record self.old {
          puts = self.old.puts ++ (name.now, bytes.now) ∷ [];
          room = self.old.room - put_size name.now bytes.now;
          calls = counted self.old.calls;
        }) }
        ensures err { OnErr result (self.new ≡ record self.old { calls = faulted self.old.calls }) }
    {
        if self.calls.fails_next() || !fits(self.room, name, bytes) {
            return Err(self.calls.fault());
        }
        add(&mut self.kept, &mut self.places, name, bytes);
        self.room -= PUT + name.len() + bytes.len();
        Ok(())
    }
}

// Whether a put fits into this room.
fn fits(room: usize, name: &str, bytes: &[u8]) -> bool
    ensures { IsTrue result ↔ (put_size name.now bytes.now ≤ room) }
{
    PUT <= room && name.len() <= room - PUT && bytes.len() <= room - PUT - name.len()
}

// Adds a name and its bytes, for which there is room.
fn add(kept: &mut Vec<u8>, places: &mut Vec<Place>, name: &str, bytes: &[u8])
    requires room { vec_len kept.old + length name.now + length bytes.now ≤ vec_capacity kept.old }
    requires place { vec_len places.old < vec_capacity places.old }
    requires within { All (IsPlaceIn (length kept.old.items)) places.old.items }
    ensures puts { puts_at kept.new.items places.new.items ≡ puts_at kept.old.items places.old.items ++ (name.now, bytes.now) ∷ [] }
    ensures within { All (IsPlaceIn (length kept.new.items)) places.new.items }
    ensures bytes { vec_len kept.new ≡ vec_len kept.old + length name.now + length bytes.now }
    ensures places { vec_len places.new ≡ vec_len places.old + 1 }
    ensures capacity { vec_capacity kept.old ≤ vec_capacity kept.new }
    ensures places_capacity { vec_capacity places.old ≤ vec_capacity places.new }
{
    let start = kept.len();
    kept.extend_from_slice(name.as_bytes()).unwrap();
    let middle = kept.len();
    kept.extend_from_slice(bytes).unwrap();
    let end = kept.len();
    places.push(Place { start, middle, end }).unwrap();
}
