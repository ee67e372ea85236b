// The link buffer.
ghost use Rattle.std.specs.Prelude.{◌≡◌, ◌↔◌, ◌≤◌, ◌<◌, ◌+◌, ◌%◌, ◌^◌, ℕ, IsTrue, IfOk};
ghost use Rattle.std.specs.Bool.{OnTrue, OnFalse};
ghost use Rattle.std.specs.Int.{IsPowerOfTwo};
ghost use Rattle.redo_link.specs.Links.{capacity_of, link_at, IsFree, IsAdded, IsFollowed, Advances};

use redo_lsn::NoMemory;
use std::alloc::Global;
use std::marker::Model;

#[cfg(test)]
mod tests;

/// A link buffer. Contracts see its tail and the links by place. Only `new` takes memory.
#[derive(Debug, Drop)]
pub struct LinkBuf {
    tail: u64,
    // where the link ends that starts at a place, at the place modulo the capacity; 0 where no link stands
    slots: Vec<u64>,
}

impl Model for LinkBuf {
    ghost use Rattle.redo_link.specs.Links.{Links, IsSound};

    ghost Value = { Links };

    ghost view = { λ buffer. record { tail = buffer.tail; slots = buffer.slots.items } };

    ghost invariant = { λ buffer. IsSound (record { tail = buffer.tail; slots = buffer.slots.items }) };
}

impl LinkBuf {
    /// A buffer with no link, whose window has so many places from the tail on.
    pub fn new(alloc: Global, capacity: usize, tail: u64) -> Result<LinkBuf, NoMemory>
        requires { IsPowerOfTwo capacity }
        ensures tail { IfOk result (λ links. links.tail ≡ tail) }
        ensures capacity { IfOk result (λ links. capacity_of links ≡ capacity) }
        ensures empty { IfOk result (λ links. (place : ℕ) → link_at links place ≡ 0) }
    {
        let slots = vec![in alloc; 0u64; capacity]?;
        Ok(LinkBuf { tail, slots })
    }

    /// Up to here the links are connected.
    pub fn tail(&self) -> u64
        ensures { result ≡ self.now.tail }
    {
        self.tail
    }

    /// Whether the window reaches past a place, so that a link may start there.
    pub fn has_space(&self, place: u64) -> bool
        ensures { IsTrue result ↔ (place < self.now.tail + capacity_of self.now) }
    {
        // the sum of the tail and the capacity need not be an lsn
        place < self.tail || place - self.tail < self.slots.len() as u64
    }

    /// Adds a link.
    pub fn add_link(&mut self, from: u64, to: u64)
        requires behind { self.old.tail ≤ from }
        requires space { from < self.old.tail + capacity_of self.old }
        requires forward { from < to }
        requires free { IsFree self.old from to }
        ensures { IsAdded self.old from to self.new }
    {
        let slot = self.slot_of(from);
        self.slots[slot] = to;
    }

    /// Follows the links from the tail on up to the first place at which none starts, clears them, and answers that
    /// place, the new tail.
    pub fn advance(&mut self) -> u64
        ensures tail { result ≡ self.new.tail }
        ensures path { Advances self.old self.new }
    {
        'links: while self.follow() {}
        self.tail
    }

    // Follows the link that starts at the tail, and clears it, if one does.
    fn follow(&mut self) -> bool
        ensures link { OnTrue result (IsFollowed self.old self.new) }
        ensures none { OnFalse result (link_at self.old self.old.tail ≡ 0) }
        ensures same { OnFalse result (self.new ≡ self.old) }
        ensures small { self.new.tail < 2 ^ 64 }
    {
        let slot = self.slot_of(self.tail);
        let end = self.slots[slot];
        if end == 0 {
            return false;
        }
        self.slots[slot] = 0;
        self.tail = end;
        true
    }

    // The slot of the link that starts at a place.
    fn slot_of(&self, place: u64) -> usize
        ensures slot { result ≡ place % capacity_of self.now }
        ensures below { result < capacity_of self.now }
    {
        (place % self.slots.len() as u64) as usize
    }
}
