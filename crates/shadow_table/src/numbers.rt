//! A number for each actor.
ghost use Rattle.std.specs.Prelude.{◌≡◌, ◌<◌, ℕ, if◌then◌else◌, OnOk, length, set, slice_index_or};
ghost use Rattle.crgc_ids.specs.Actor.{Actor, same_actor};
ghost use Rattle.crgc_ids.specs.declared.limits.TheConstants.{MOST_ACTORS};
ghost use Rattle.shadow_table.specs.Numbers.{HasRoomFor, number_of};

use crgc_ids::{ActorId, NoMemory};
use std::alloc::Global;
use std::array;
use std::marker::Model;

/// The numbers of one node's actors. Contracts see the list of these numbers, by serial.
#[derive(Drop)]
struct NodeNumbers {
    numbers: Vec<u32>,
}

impl Model for NodeNumbers {
    ghost use Rattle.std.specs.Prelude.{ℕ, List};

    ghost Value = { List ℕ };

    ghost view = { λ n. n.numbers.items };
}

impl NodeNumbers {
    /// The number of the serial; 0 where there is no room for it.
    fn at(&self, serial: usize) -> u32
        ensures { result ≡ slice_index_or self.now serial 0 }
    {
        match self.numbers.get(serial) {
            Some(number) => *number,
            None => 0,
        }
    }

    /// There is room for the serial. After `NoMemory` all is as before.
    fn reserve(&mut self, serial: usize) -> Result<(), NoMemory>
        requires { serial < MOST_ACTORS }
        ensures same { (k : ℕ) → slice_index_or self.new k 0 ≡ slice_index_or self.old k 0 }
        ensures room { OnOk result (serial < length self.new) }
    {
        if serial < self.numbers.len() {
            return Ok(());
        }
        match self.numbers.resize(serial + 1, 0) {
            Ok(()) => Ok(()),
            Err(_) => Err(NoMemory),
        }
    }

    /// The serial, for which there is room, has this number.
    fn set(&mut self, serial: usize, number: u32)
        requires { serial < length self.old }
        ensures { self.new ≡ set self.old serial number }
    {
        self.numbers[serial] = number;
    }
}

/// A number for each actor, at first 0. Contracts see for each of the 16 nodes the list of its actors' numbers, by serial, as
/// far as there is room for them.
#[derive(Drop)]
pub struct ActorNumbers {
    nodes: [NodeNumbers; 16],
}

impl Model for ActorNumbers {
    ghost use Rattle.std.specs.Prelude.{◌≡◌, ℕ, List, length};

    ghost Value = { List (List ℕ) };

    ghost view = { λ n. n.nodes };

    ghost invariant = { λ n. length n.nodes ≡ 16 };
}

impl ActorNumbers {
    /// Each actor's number is 0.
    pub fn new(alloc: Global) -> ActorNumbers
        ensures { (a : Actor) → number_of result a ≡ 0 }
    {
        ActorNumbers {
            nodes: array::from_fn(|_| NodeNumbers {
                numbers: Vec::new(alloc),
            }),
        }
    }

    /// The number of the actor. Constant time.
    pub fn at(&self, actor: ActorId) -> u32
        ensures { result ≡ number_of self.now actor }
    {
        self.nodes[actor.node().get() as usize].at(actor.serial() as usize)
    }

    /// There is room for the actor's number. After `NoMemory` all is as before. Amortized constant time, where serials come in
    /// their order.
    pub fn reserve(&mut self, actor: ActorId) -> Result<(), NoMemory>
        ensures same { (a : Actor) → number_of self.new a ≡ number_of self.old a }
        ensures room { OnOk result (HasRoomFor self.new actor) }
    {
        self.nodes[actor.node().get() as usize].reserve(actor.serial() as usize)
    }

    /// The actor, for whose number there is room, has this one. Constant time.
    pub fn set(&mut self, actor: ActorId, number: u32)
        requires { HasRoomFor self.old actor }
        ensures { (a : Actor) → number_of self.new a ≡ (if same_actor a actor then number else number_of self.old a) }
    {
        self.nodes[actor.node().get() as usize].set(actor.serial() as usize, number);
    }
}
