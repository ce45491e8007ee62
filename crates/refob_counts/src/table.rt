//! How many references to each of several targets are held.
ghost use Rattle.std.specs.Prelude.{◌≡◌, ◌+◌, ◌<◌, ◌^◌, ◌↔◌, [], IsTrue, None, OnOk, OnErr};
ghost use Rattle.refob_counts.specs.Counts.{IsCountChange, count_of};
ghost use Rattle.refob_counts.specs.Rising.{AreBelow, AreRising, found_in};

use crate::rising::{are_below, place_of, push};
use crate::strays::{add_in, clear_in, held_in, set_in};
use crgc_ids::{ActorId, NoMemory};
use std::alloc::Global;
use std::collections::BTreeMap;
use std::marker::Model;

/// The targets that came in rising order stand in a vector, eight bytes for each, and the strays among them in a map. A target of the
/// vector stays there with a count of 0 until the vector is full; those so kept, and the room, are fewer than four times the targets
/// that were held at one time. Contracts see the list of the targets and their counts.
#[derive(Debug, Drop)]
pub struct TargetTable {
    rising: Vec<(ActorId, u32)>,
    strays: BTreeMap<ActorId, u32>,
}

impl Model for TargetTable {
    ghost use Rattle.std.specs.Prelude.{ℕ, List, ◌++◌};
    ghost use Rattle.crgc_ids.specs.Actor.{Actor};
    ghost use Rattle.refob_counts.specs.Rising.{standing};
    ghost use Rattle.refob_counts.specs.Table.{IsTable};

    ghost Value = { List (Actor × ℕ) };

    ghost view = { λ t. standing t.rising.items ++ t.strays.entries };

    ghost invariant = { λ t. IsTable t.rising.items t.strays.entries };
}

impl TargetTable {
    /// Nothing is held.
    pub fn new(alloc: Global) -> TargetTable
        ensures { result ≡ [] }
    {
        TargetTable {
            rising: Vec::new(alloc),
            strays: BTreeMap::new(alloc),
        }
    }

    /// The target has so many more from now on. `NoMemory` comes only where it had none, and all is then as before. Amortized
    /// constant time where the target is above all the others and there are no strays, else logarithmic time.
    #[inline(always)]
    pub fn add(&mut self, target: ActorId, count: u32) -> Result<(), NoMemory>
        requires { count_of self.old target + count < 2 ^ 32 }
        ensures ok { OnOk result (IsCountChange self.old self.new target (count_of self.old target + count)) }
        ensures err { OnErr result (self.new ≡ self.old) }
        ensures absent { OnErr result (count_of self.old target ≡ 0) }
    {
        if is_next(&self.rising, &self.strays, target) {
            return push(&mut self.rising, target, count);
        }
        match place_of(&self.rising, target) {
            Some(place) => {
                self.rising[place].1 += count;
                Ok(())
            }
            None => add_in(&mut self.strays, target, count),
        }
    }

    /// The target has this count from now on. `NoMemory` comes only where it had none, and all is then as before. Amortized
    /// logarithmic time.
    pub fn set(&mut self, target: ActorId, count: u32) -> Result<(), NoMemory>
        ensures ok { OnOk result (IsCountChange self.old self.new target count) }
        ensures err { OnErr result (self.new ≡ self.old) }
        ensures absent { OnErr result (count_of self.old target ≡ 0) }
    {
        if is_next(&self.rising, &self.strays, target) {
            return push(&mut self.rising, target, count);
        }
        match place_of(&self.rising, target) {
            Some(place) => {
                self.rising[place].1 = count;
                Ok(())
            }
            None => set_in(&mut self.strays, target, count),
        }
    }

    /// No reference to the target is held from now on. Logarithmic time.
    pub fn clear(&mut self, target: ActorId)
        ensures { IsCountChange self.old self.new target 0 }
    {
        match place_of(&self.rising, target) {
            Some(place) => self.rising[place].1 = 0,
            None => clear_in(&mut self.strays, target),
        }
    }

    /// How many references to the target are held. Logarithmic time.
    pub fn held(&self, target: ActorId) -> u32
        ensures { result ≡ count_of self.now target }
    {
        match place_of(&self.rising, target) {
            Some(place) => self.rising[place].1,
            None => held_in(&self.strays, target),
        }
    }
}

/// Whether the target may come last of those that rise: it is above them all, and it is no stray.
#[inline(always)]
fn is_next(rising: &[(ActorId, u32)], strays: &BTreeMap<ActorId, u32>, target: ActorId) -> bool
    requires { AreRising rising.now }
    ensures { IsTrue result ↔ (AreBelow rising.now target × (found_in strays.now.entries target ≡ None)) }
{
    are_below(rising, target) && !strays.contains_key(&target)
}
