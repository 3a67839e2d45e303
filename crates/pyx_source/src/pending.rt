// The bytes that were read and not yet given.
ghost use Rattle.std.specs.Prelude.{◌≡◌, ◌++◌, ◌+◌, ◌≤◌, ◌<◌, [], length, take, drop, slice_index, IfSome, IfNone, OnOk, vec_len};
ghost use Rattle.pyx_source.specs.Feeds.{HoldsNoFeed};

use memchr::memchr;
use std::alloc::{AllocError, Global};
use std::marker::Model;

/// A queue of bytes, which contracts see as their list. What was taken from its front is moved away only
/// when bytes are added, and the search for a line feed goes on where it stopped, so each byte is scanned once.
#[derive(Drop)]
pub struct Pending {
    buffer: Vec<u8>,
    // Where the bytes begin that weren't taken yet.
    start: usize,
    // How many of these are known to be no line feed.
    scanned: usize,
}

impl Model for Pending {
    ghost use Rattle.std.specs.Prelude.{List, ℕ, ◌+◌, ◌≤◌, take, drop, length};
    ghost use Rattle.pyx_source.specs.Feeds.{HoldsNoFeed};

    ghost Value = { List ℕ };

    ghost view = { λ p. drop p.start p.buffer.items };

    ghost invariant = { λ p. (p.start + p.scanned ≤ length p.buffer.items) × HoldsNoFeed (take p.scanned (drop p.start p.buffer.items)) };
}

impl Pending {
    pub fn new(alloc: Global) -> Pending
        ensures { result ≡ [] }
    {
        Pending {
            buffer: Vec::new(alloc),
            start: 0,
            scanned: 0,
        }
    }

    pub fn len(&self) -> usize
        ensures { result ≡ length self.now }
    {
        self.buffer.len() - self.start
    }

    /// Where the first line feed stands.
    pub fn line_feed(&mut self) -> Option<usize>
        ensures same { self.new ≡ self.old }
        ensures found { IfSome result (λ n. (n < length self.old) × (slice_index self.old n ≡ 10) × HoldsNoFeed (take n self.old)) }
        ensures none { IfNone result (HoldsNoFeed self.old) }
    {
        let found = first_feed(&self.buffer[self.start..], self.scanned);
        self.scanned = match found {
            Some(at) => at,
            None => self.buffer.len() - self.start,
        };
        found
    }

    pub fn front(&self, count: usize) -> &[u8]
        requires { count ≤ length self.now }
        ensures { result.now ≡ take count self.now }
    {
        &self.buffer[self.start..self.start + count]
    }

    /// Takes as many bytes from the front as there are, at most `count`.
    pub fn take(&mut self, count: usize)
        ensures { self.new ≡ drop count self.old }
    {
        self.start += count.min(self.len());
        self.scanned = 0;
    }

    /// Adds bytes at the end. Fails only for want of memory.
    pub fn add(&mut self, bytes: &[u8]) -> Result<(), AllocError>
        ensures { OnOk result (self.new ≡ self.old ++ bytes.now) }
    {
        drop_front(&mut self.buffer, self.start);
        self.start = 0;
        self.buffer.extend_from_slice(bytes)
    }
}

fn drop_front(buffer: &mut Vec<u8>, count: usize)
    requires { count ≤ vec_len buffer.old }
    ensures { buffer.new.items ≡ drop count buffer.old.items }
{
    if count > 0 {
        buffer.drain(..count);
    }
}

// The first line feed, where the first `scanned` bytes hold none.
fn first_feed(held: &[u8], scanned: usize) -> Option<usize>
    requires within { scanned ≤ length held.now }
    requires seen { HoldsNoFeed (take scanned held.now) }
    ensures found { IfSome result (λ n. (n < length held.now) × (slice_index held.now n ≡ 10) × HoldsNoFeed (take n held.now)) }
    ensures none { IfNone result (HoldsNoFeed held.now) }
{
    match memchr(b'\n', &held[scanned..]) {
        Some(at) => Some(scanned + at),
        None => None,
    }
}
