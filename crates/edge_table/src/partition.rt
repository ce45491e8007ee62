//! Edges of a list of which some count, and stand first.
ghost use Rattle.std.specs.Prelude.{◌≡◌, ◌<◌, ◌≤◌, ◌^◌, ◌++◌, ℕ, Bool, List, true, false, [], ◌∷◌, OnErr, OnOk, length, take};
ghost use Rattle.crgc_ids.specs.Members.{IsAmong};
ghost use Rattle.edge_table.specs.Partition.{AreRising, CountsAt, IsExchanged, IsParted, nth_of, numbers_in};

use crgc_ids::NoMemory;
use std::alloc::Global;
use std::marker::Model;

/// The edges of a list whose numbers rise, in another order, those that count first; at which place of the list each of the order
/// stands, and at which index of the order each of the list. Of an edge it keeps what the list does, the place of its other end and
/// its number. The list itself is kept elsewhere. Contracts see the order, both maps and how many count.
#[derive(Drop)]
pub struct Partition {
    order: Vec<(u32, u32)>,
    places: Vec<u32>,
    indices: Vec<u32>,
    front: u32,
}

impl Model for Partition {
    ghost use Rattle.edge_table.specs.Partition.{Parted};

    ghost Value = { Parted };

    ghost view = { λ p. record { order = p.order.items; places = p.places.items; indices = p.indices.items; front = p.front } };
}

impl Partition {
    /// No edge.
    pub fn new(alloc: Global) -> Partition
        ensures { (counts : ℕ → Bool) → IsParted [] counts result }
    {
        Partition {
            order: Vec::new(alloc),
            places: Vec::new(alloc),
            indices: Vec::new(alloc),
            front: 0,
        }
    }

    /// The list has one edge more, the last, which does not count. After `NoMemory` all is as before. Amortized constant time.
    #[inline(always)]
    pub fn push(&mut self, end: (u32, u32)) -> Result<(), NoMemory>
        requires { length self.old.order < 2 ^ 32 }
        ensures ok { OnOk result ((ends : List (ℕ × ℕ)) (counts : ℕ → Bool) → IsParted ends counts self.old → counts end.1 ≡ false
            → IsParted (ends ++ end ∷ []) counts self.new) }
        ensures err { OnErr result (self.new ≡ self.old) }
    {
        let last = self.order.len() as u32;
        if self.order.reserve(1).is_err() {
            return Err(NoMemory);
        }
        if self.places.reserve(1).is_err() {
            return Err(NoMemory);
        }
        if self.indices.reserve(1).is_err() {
            return Err(NoMemory);
        }
        self.order.push_reserved(end);
        self.places.push_reserved(last);
        self.indices.push_reserved(last);
        Ok(())
    }

    /// The edge with this number, which is one of the list, counts from now on, or does not. Constant time where it is the last of
    /// the list, else logarithmic time.
    #[inline(always)]
    pub fn set(&mut self, ends: &[(u32, u32)], number: u32, counts: bool)
        requires rising { AreRising (numbers_in ends.now) }
        requires among { IsAmong number (numbers_in ends.now) }
        requires few { length ends.now < 2 ^ 32 }
        requires parted { (old : ℕ → Bool) × IsParted ends.now old self.old }
        ensures { (old new : ℕ → Bool) → IsParted ends.now old self.old → CountsAt old new number counts
            → IsParted ends.now new self.new }
    {
        self.set_at(place_in(ends, number), counts);
    }

    /// The edge at this place of the list counts from now on, or does not. Constant time.
    #[inline(always)]
    pub fn set_at(&mut self, place: usize, counts: bool)
        requires place { place < length self.old.order }
        requires few { length self.old.order < 2 ^ 32 }
        requires parted { (ends : List (ℕ × ℕ)) × (old : ℕ → Bool) × IsParted ends old self.old }
        ensures { (ends : List (ℕ × ℕ)) (old new : ℕ → Bool) → AreRising (numbers_in ends) → IsParted ends old self.old
            → CountsAt old new (nth_of (numbers_in ends) place) counts → IsParted ends new self.new }
    {
        let index = self.indices[place];
        if counts && self.front <= index {
            self.exchange(index, self.front);
            self.front += 1;
        } else if !counts && index < self.front {
            self.exchange(index, self.front - 1);
            self.front -= 1;
        }
    }

    /// What stands at these two indices of the order changes places. Constant time.
    fn exchange(&mut self, i: u32, j: u32)
        requires i { i < length self.old.order }
        requires j { j < length self.old.order }
        requires parted { (ends : List (ℕ × ℕ)) × (counts : ℕ → Bool) × IsParted ends counts self.old }
        ensures { IsExchanged self.old self.new i j }
    {
        let at_i = self.places[i as usize];
        let at_j = self.places[j as usize];
        self.order.swap(i as usize, j as usize);
        self.places.swap(i as usize, j as usize);
        self.indices[at_i as usize] = j;
        self.indices[at_j as usize] = i;
    }

    /// The edges that count.
    pub fn front(&self) -> &[(u32, u32)]
        requires { self.now.front ≤ length self.now.order }
        ensures { result.now ≡ take self.now.front self.now.order }
    {
        &self.order.as_slice()[..self.front as usize]
    }
}

/// The place of the edge with this number in the list, whose numbers rise. Constant time where it is the last, else logarithmic
/// time.
fn place_in(ends: &[(u32, u32)], number: u32) -> usize
    requires rising { AreRising (numbers_in ends.now) }
    requires among { IsAmong number (numbers_in ends.now) }
    ensures within { result < length ends.now }
    ensures there { nth_of (numbers_in ends.now) result ≡ number }
{
    let last = ends.len() - 1;
    if ends[last].1 == number {
        return last;
    }
    let mut low = 0;
    let mut high = last;
    while low < high {
        let middle = low + (high - low) / 2;
        if ends[middle].1 < number {
            low = middle + 1;
        } else {
            high = middle;
        }
    }
    low
}
