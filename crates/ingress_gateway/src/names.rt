//! The actors that a window will name.
ghost use Rattle.std.specs.Prelude.{◌≡◌, ◌+◌, ◌<◌, ◌≤◌, ◌||◌, [], if◌then◌else◌, length, OnOk};
ghost use Rattle.crgc_ids.specs.Actor.{Actor, same_actor};
ghost use Rattle.ingress_gateway.specs.NameSet.{HasSameNames, has_name};

use crgc_ids::{ActorId, NoMemory};
use std::alloc::Global;
use std::collections::HashSet;
use std::marker::Model;

/// A set of actors, with reserved room for more. Contracts see the actors, each once, and for how many more room is
/// reserved.
#[derive(Drop)]
pub struct Names {
    actors: HashSet<ActorId>,
}

impl Model for Names {
    ghost use Rattle.std.specs.HashSet.{spare};
    ghost use Rattle.ingress_gateway.specs.NameSet.{NameSet};

    ghost Value = { NameSet };

    ghost view = { λ n. record { actors = n.actors.keys; room = spare n.actors } };
}

impl Names {
    /// No actor.
    pub fn new(alloc: Global) -> Names
        ensures { result.actors ≡ [] }
    {
        Names {
            actors: HashSet::new(alloc),
        }
    }

    /// Room for that many actors more; the actors stay. Amortized constant time for each.
    pub fn reserve(&mut self, more: usize) -> Result<(), NoMemory>
        ensures same { HasSameNames self.old self.new }
        ensures ok { OnOk result (more ≤ self.new.room) }
    {
        match self.actors.reserve(more) {
            Ok(()) => Ok(()),
            Err(_) => Err(NoMemory),
        }
    }

    /// The actor is one of them from now on. Constant time on average.
    pub fn add(&mut self, actor: ActorId)
        requires { 0 < self.old.room }
        ensures names { (a : Actor) → has_name self.new a ≡ (same_actor a actor || has_name self.old a) }
        ensures count { length self.new.actors ≡ length self.old.actors + (if has_name self.old actor then 0 else 1) }
        ensures room { self.old.room ≤ self.new.room + 1 }
    {
        // there is room, so this takes no memory
        let _ = self.actors.insert(actor);
    }

    /// How many they are. Constant time.
    pub fn len(&self) -> usize
        ensures { result ≡ length self.now.actors }
    {
        self.actors.len()
    }
}
