//! Nodes and actors, as numbers in range.
ghost use Rattle.std.proofs.Common.{rules};
ghost use Rattle.std.specs.Cmp.{partial_order_from_own_ties};
ghost use Rattle.std.specs.Cmp.Rules.{comparing, hashing};
ghost use Rattle.std.specs.Ordering.{as_partial_cmp};
ghost use Rattle.std.specs.Hash as fed;
ghost use Rattle.std.specs.Prelude.{◌≡◌, ◌<◌, ◌≤◌, ◌↔◌, IfSome, IfNone, OnSome};
ghost use Rattle.crgc_ids.specs.Actor.{IsActor, actor_number};
ghost use Rattle.crgc_ids.specs.declared.limits.TheConstants.{MOST_ACTORS};

use crate::limits::MOST_ACTORS;
use std::cmp::Ordering;
use std::hash::{Hash, Hasher};
use std::marker::Model;

/// A node of the cluster, numbered from 0 to 15. Contracts see its number.
#[derive(Clone, Copy, PartialEq, Eq, PartialOrd, Ord, Hash, Debug)]
pub struct NodeId {
    number: u8,
}

impl Model for NodeId {
    ghost use Rattle.std.specs.Prelude.{ℕ, ◌<◌};

    ghost Value = { ℕ };

    ghost view = { λ n. n.number };

    ghost invariant = { λ n. n.number < 16 };

    ghost inverse = { λ n. record { number = n } };
}

impl NodeId {
    /// The node with this number; None exactly at 16 and above.
    pub fn new(n: u8) -> Option<NodeId>
        ensures some { IfSome result (λ node. node ≡ n) }
        ensures in_range { OnSome result (n < 16) }
        ensures none { IfNone result (16 ≤ n) }
    {
        if n < 16 {
            Some(NodeId { number: n })
        } else {
            None
        }
    }

    /// Its number, below 16.
    pub fn get(self) -> u8
        ensures number { result ≡ self }
        ensures in_range { result < 16 }
    {
        self.number
    }
}

/// An actor of the cluster: the node on which it lives, and its serial there, counted from 0 and below 262,144.
/// Actors are ordered by node, then serial. It takes four bytes: the number of the node times 262,144, and the serial.
/// Contracts see the record of the two numbers.
#[derive(Clone, Copy, Debug)]
pub struct ActorId {
    number: u32,
}

impl Model for ActorId {
    ghost use Rattle.std.specs.Prelude.{◌<◌, ◌/◌, ◌%◌};
    ghost use Rattle.crgc_ids.specs.Actor.{Actor, actor_number};
    ghost use Rattle.crgc_ids.specs.declared.limits.TheConstants.{MOST_ACTORS};

    ghost Value = { Actor };

    ghost view = { λ a. record { node = a.number / MOST_ACTORS; serial = a.number % MOST_ACTORS } };

    ghost invariant = { λ a. a.number < 4194304 };

    ghost inverse = { λ a. record { number = actor_number a } };
}

impl PartialEq for ActorId {
    ghost use Rattle.crgc_ids.specs.Actor.{same_actor};

    ghost eq = { same_actor };

    ghost laws = { Prim.search (comparing, rules) };

    fn eq(&self, other: &ActorId) -> bool {
        self.number == other.number
    }
}

impl Eq for ActorId {
    ghost laws = { Prim.search (comparing, rules) };
}

impl Ord for ActorId {
    ghost use Rattle.crgc_ids.specs.Actor.{actor_cmp};

    ghost cmp = { actor_cmp };

    ghost total = { Prim.search (comparing, rules) };

    ghost matches_partial_cmp = { Prim.search (comparing, rules) };

    ghost matches_eq = { Prim.search (comparing, rules) };

    fn cmp(&self, other: &ActorId) -> Ordering {
        self.number.cmp(&other.number)
    }
}

impl PartialOrd for ActorId {
    ghost use Rattle.crgc_ids.specs.Actor.{actor_cmp};

    ghost partial_cmp = { as_partial_cmp actor_cmp };

    ghost laws = { partial_order_from_own_ties (Prim.search (comparing, rules))
        (Prim.search (comparing, rules)) };

    fn partial_cmp(&self, other: &ActorId) -> Option<Ordering> {
        Some(self.cmp(other))
    }
}

impl Hash for ActorId {
    ghost use Rattle.crgc_ids.specs.Actor.{actor_number};

    ghost hash_input = { λ a. fed.u32 (actor_number a) };

    ghost respects_eq = { Prim.search (hashing, rules) };

    fn hash<H: Hasher>(&self, state: &mut H) {
        self.number.hash(state);
    }
}

impl ActorId {
    /// The actor with this serial on this node; None exactly at 262,144 and above.
    pub fn new(node: NodeId, serial: u32) -> Option<ActorId>
        ensures some { IfSome result (λ a. (a.node ≡ node) × (a.serial ≡ serial)) }
        ensures in_range { OnSome result (serial < MOST_ACTORS) }
        ensures none { IfNone result (MOST_ACTORS ≤ serial) }
    {
        if serial < MOST_ACTORS {
            Some(ActorId {
                number: u32::from(node.get()) * MOST_ACTORS + serial,
            })
        } else {
            None
        }
    }

    /// Its two numbers as one, by which actors are ordered.
    pub fn number(self) -> u32
        ensures number { result ≡ actor_number self }
        ensures in_range { IsActor self }
    {
        self.number
    }

    /// The node on which it lives.
    pub fn node(self) -> NodeId
        ensures { result ≡ self.node }
    {
        NodeId {
            number: (self.number / MOST_ACTORS) as u8,
        }
    }

    /// Its serial on its node, below 262,144.
    pub fn serial(self) -> u32
        ensures number { result ≡ self.serial }
        ensures in_range { result < MOST_ACTORS }
    {
        self.number % MOST_ACTORS
    }
}
