//! Sets of places, first in, first out.
ghost use Rattle.std.specs.Prelude.{◌≡◌, ◌<◌, ◌≤◌, ℕ, true, false, [], IfNone, IfSome, OnErr, OnOk, length, slice_set};
ghost use Rattle.kept_marks.specs.PlaceSet.{has_place};

use crgc_ids::NoMemory;
use std::alloc::Global;
use std::collections::VecDeque;
use std::marker::Model;

/// A set of places, with room for each place below a number; the place that is in it longest is the first to be taken out.
/// Contracts see a test for each place of the room, and read it by `has_place`.
#[derive(Drop)]
pub struct PlaceSet {
    flags: Vec<bool>,
    queue: VecDeque<u32>,
}

impl Model for PlaceSet {
    ghost use Rattle.std.specs.Prelude.{◌≤◌, Bool, List, length};
    ghost use Rattle.std.specs.VecDeque.{deque_capacity};
    ghost use Rattle.kept_marks.specs.PlaceSet.{AreListed};

    ghost Value = { List Bool };

    ghost view = { λ s. s.flags.items };

    ghost invariant = { λ s. AreListed s.flags.items s.queue.items × (length s.flags.items ≤ deque_capacity s.queue) };
}

impl PlaceSet {
    /// No place, and no room.
    pub fn new(alloc: Global) -> PlaceSet
        ensures { result ≡ [] }
    {
        PlaceSet {
            flags: Vec::new(alloc),
            queue: VecDeque::new(alloc),
        }
    }

    /// There is room for so many places at least; the set stays. After `NoMemory` all is as before. Amortized constant time for
    /// each place more than before: where there is too little room, it becomes twice as much at least.
    pub fn reserve(&mut self, places: u32) -> Result<(), NoMemory>
        ensures room { OnOk result (places ≤ length self.new) }
        ensures kept { length self.old ≤ length self.new }
        ensures places { (p : ℕ) → has_place self.new p ≡ has_place self.old p }
        ensures err { OnErr result (self.new ≡ self.old) }
    {
        let places = places as usize;
        if places <= self.flags.len() {
            return Ok(());
        }
        let room = places.max(self.flags.len().saturating_mul(2));
        if self.queue.reserve(room).is_err() {
            return Err(NoMemory);
        }
        match self.flags.resize(room, false) {
            Ok(()) => Ok(()),
            Err(_) => Err(NoMemory),
        }
    }

    /// Whether the place is in the set.
    pub fn has(&self, place: u32) -> bool
        requires { place < length self.now }
        ensures { result ≡ has_place self.now place }
    {
        self.flags[place as usize]
    }

    /// The place is in the set. It takes no memory.
    pub fn put(&mut self, place: u32)
        requires { place < length self.old }
        ensures { self.new ≡ slice_set self.old place true }
    {
        let index = place as usize;
        if !self.flags[index] {
            self.flags[index] = true;
            self.queue.push_back_reserved(place);
        }
    }

    /// A place of the set, which is taken out; None exactly where there is none.
    pub fn pop(&mut self) -> Option<u32>
        ensures some { IfSome result (λ place. has_place self.old place ≡ true) }
        ensures rest { IfSome result (λ place. self.new ≡ slice_set self.old place false) }
        ensures none { IfNone result ((p : ℕ) → has_place self.old p ≡ false) }
        ensures same { IfNone result (self.new ≡ self.old) }
    {
        let place = self.queue.pop_front()?;
        self.flags[place as usize] = false;
        Some(place)
    }
}
