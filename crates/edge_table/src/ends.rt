//! The edges of one place.
ghost use Rattle.std.specs.Prelude.{◌≡◌, ◌-◌, ◌<◌, ◌++◌, [], ◌∷◌, OnOk, length, take};
ghost use Rattle.edge_table.specs.Ends.{HasSameLists};

use crgc_ids::NoMemory;
use smallvec::SmallVec;
use std::alloc::Global;
use std::marker::Model;

/// The edges that lead from a place, and those that lead to it, each by the place of its other end and its number, with reserved
/// room for more. Up to three that lead from it and four that lead to it stand in the value itself, and more in an allocation.
/// Contracts see both lists, and for how many more each has room.
#[derive(Drop)]
pub struct Ends {
    from: SmallVec<(u32, u32), 3>,
    to: SmallVec<(u32, u32), 4>,
}

impl Model for Ends {
    ghost use Rattle.std.specs.Prelude.{◌-◌};
    ghost use Rattle.smallvec.specs.SmallVec.{small_vec_len};
    ghost use Rattle.edge_table.specs.Ends.{PlaceEnds};

    ghost Value = { PlaceEnds };

    ghost view = { λ e. record {
      from = e.from.items;
      to = e.to.items;
      from_room = e.from.capacity - small_vec_len e.from;
      to_room = e.to.capacity - small_vec_len e.to;
    } };
}

impl Ends {
    /// No edge.
    pub fn new(alloc: Global) -> Ends
        ensures from { result.from ≡ [] }
        ensures to { result.to ≡ [] }
    {
        Ends {
            from: SmallVec::new(alloc),
            to: SmallVec::new(alloc),
        }
    }

    /// Room for one more edge from the place.
    pub fn reserve_from(&mut self) -> Result<(), NoMemory>
        ensures lists { HasSameLists self.old self.new }
        ensures others { self.new.to_room ≡ self.old.to_room }
        ensures ok { OnOk result (0 < self.new.from_room) }
    {
        if self.from.len() < self.from.capacity() {
            return Ok(());
        }
        match self.from.reserve(1) {
            Ok(()) => Ok(()),
            Err(_) => Err(NoMemory),
        }
    }

    /// Room for one more edge to the place.
    pub fn reserve_to(&mut self) -> Result<(), NoMemory>
        ensures lists { HasSameLists self.old self.new }
        ensures others { self.new.from_room ≡ self.old.from_room }
        ensures ok { OnOk result (0 < self.new.to_room) }
    {
        if self.to.len() < self.to.capacity() {
            return Ok(());
        }
        match self.to.reserve(1) {
            Ok(()) => Ok(()),
            Err(_) => Err(NoMemory),
        }
    }

    /// The edge with this target and number leads from the place, last of all. It takes no memory.
    pub fn push_from(&mut self, end: (u32, u32))
        requires { 0 < self.old.from_room }
        ensures from { self.new.from ≡ self.old.from ++ end ∷ [] }
        ensures to { self.new.to ≡ self.old.to }
        ensures others { self.new.to_room ≡ self.old.to_room }
    {
        self.from.push_reserved(end);
    }

    /// The edge with this owner and number leads to the place, last of all. It takes no memory.
    pub fn push_to(&mut self, end: (u32, u32))
        requires { 0 < self.old.to_room }
        ensures to { self.new.to ≡ self.old.to ++ end ∷ [] }
        ensures from { self.new.from ≡ self.old.from }
        ensures others { self.new.from_room ≡ self.old.from_room }
    {
        self.to.push_reserved(end);
    }

    /// The last edge from the place is taken away.
    pub fn pop_from(&mut self)
        ensures from { self.new.from ≡ take (length self.old.from - 1) self.old.from }
        ensures to { self.new.to ≡ self.old.to }
    {
        self.from.pop();
    }

    /// The last edge to the place is taken away.
    pub fn pop_to(&mut self)
        ensures to { self.new.to ≡ take (length self.old.to - 1) self.old.to }
        ensures from { self.new.from ≡ self.old.from }
    {
        self.to.pop();
    }

    /// The edges from the place: of each its target's place and its number.
    pub fn from(&self) -> &[(u32, u32)]
        ensures { result.now ≡ self.now.from }
    {
        self.from.as_slice()
    }

    /// The edges to the place: of each its owner's place and its number.
    pub fn to(&self) -> &[(u32, u32)]
        ensures { result.now ≡ self.now.to }
    {
        self.to.as_slice()
    }
}
